//! The line of one instruction.

ghost use Rattle.std.specs.Prelude.{◌≡◌, IfOk};
ghost use Rattle.std.specs.String.{string_bytes};
ghost use Rattle.bpf_text.specs.Listing as specs;

use crate::lister::push_line;
use bpf_insn::Insn;
use std::alloc::{AllocError, Global};

/// The listing's line of an instruction, ended by LF.
// open: whether an allocation fails.
pub fn line_of(alloc: Global, insn: Insn) -> Result<String, AllocError>
    ensures { IfOk result (λ text. string_bytes text ≡ specs.line_of insn) }
{
    let mut text = String::new(alloc);
    push_line(&mut text, insn)?;
    Ok(text)
}
