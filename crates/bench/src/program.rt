//! Building a program: the encodings of its instructions, one after the other.

ghost use Rattle.std.specs.Prelude.{◌≡◌, ◌<◌, ◌++◌, IfOk, OnOk};
ghost use Rattle.bpf_insn.specs.Program.{encodings};
ghost use Rattle.bench.specs.Patterns as patterns;

use crate::blocks::{block, closing, opening};
use crate::pattern::Pattern;
use bpf_insn::{Insn, encode};
use std::alloc::{AllocError, Global};

/// Adds the encodings of instructions.
#[tactic(auto, using(crate::proofs::Building::insn_added))]
fn push_all(bytes: &mut Vec<u8>, insns: &[Insn]) -> Result<(), AllocError>
    ensures { OnOk result (bytes.new.items ≡ bytes.old.items ++ encodings insns.now) }
{
    for insn in insns {
        let (encoding, length) = encode(insn);
        bytes.extend_from_slice(&encoding[..length])?;
    }
    Ok(())
}

/// The bytes of the program of `count` blocks, which is `4 * count + 4` slots.
// open: whether an allocation fails.
pub fn program(alloc: Global, pattern: Pattern, count: u16) -> Result<Vec<u8>, AllocError>
    requires { count < 1024 }
    ensures { IfOk result (λ bytes. bytes.items ≡ encodings (patterns.program pattern count)) }
{
    let mut bytes = Vec::new(alloc);
    push_all(&mut bytes, &opening())?;
    for k in 0..count {
        push_all(&mut bytes, &block(pattern, count, k))?;
    }
    push_all(&mut bytes, &closing())?;
    Ok(bytes)
}
