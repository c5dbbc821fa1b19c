//! The bytes of a program.

ghost use Rattle.std.specs.Prelude.{◌≡◌, IfOk, OnOk};
ghost use Rattle.std.specs.List.{AllByRecursion};
ghost use Rattle.rule_compile.specs.Writing.{CanEncode};
ghost use Rattle.flow_check.specs.Flow as flow;
ghost use Rattle.flow_check.specs.Laid.{laid};

use bpf_insn::{Insn, encode};
use flow_check::is_wide;
use std::alloc::{AllocError, Global};

/// The bytes of a program's slots (RFC 9669, "Instruction Encoding"). Each slot has an instruction,
/// or a filler if it is the second half of a wide one.
pub fn program_bytes(alloc: Global, slots: &[Insn]) -> Result<Vec<u8>, AllocError>
    ensures bytes { IfOk result (λ bytes. bytes.items ≡ flow.program_bytes (laid slots.now)) }
    ensures encodable { OnOk result (AllByRecursion CanEncode (laid slots.now)) }
{
    let mut bytes = Vec::new(alloc);
    let mut rest = slots;
    let mut is_half = false;
    while let [insn, later @ ..] = rest {
        if !is_half {
            let (encoding, count) = encode(insn);
            bytes.extend_from_slice(&encoding[..count])?;
        }
        is_half = is_wide(insn);
        rest = later;
    }
    Ok(bytes)
}
