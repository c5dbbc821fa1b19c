//! What an instruction wrote: a register, or bytes of the stack.

ghost use Rattle.std.specs.Prelude.{◌≡◌};
ghost use Rattle.bpf_checks.specs.Reads.{writes};

use bpf_insn::{Insn, Reg, Size};
use bpf_semantics::{STACK_TOP, add_offset, byte_count, fetched};
use reference::Interpreter;
use std::alloc::AllocError;
use std::fmt::Write;

/// Writes the value of the register that the instruction wrote, if it wrote one.
pub(crate) fn push_written(
    text: &mut String,
    insn: Insn,
    run: &Interpreter,
) -> Result<(), AllocError> {
    let Some(register) = written(insn) else {
        return Ok(());
    };
    let Some(value) = run.register(register) else {
        return Ok(());
    };
    let number = register.index();
    write!(text, " ; r{number} {value}")
}

/// Writes the bytes of the stack that the instruction wrote, if it wrote any, as a number.
pub(crate) fn push_stored(
    text: &mut String,
    insn: Insn,
    run: &Interpreter,
) -> Result<(), AllocError> {
    match insn {
        Insn::StoreImm {
            size,
            dst,
            offset,
            ..
        } => push_bytes(text, run, run.register(dst), offset, size),
        Insn::Store {
            size,
            dst,
            offset,
            ..
        } => push_bytes(text, run, run.register(dst), offset, size),
        _ => Ok(()),
    }
}

// The number of the bytes that lie this far from an address of the stack.
fn push_bytes(
    text: &mut String,
    run: &Interpreter,
    base: Option<u64>,
    offset: i16,
    size: Size,
) -> Result<(), AllocError> {
    let Some(base) = base else {
        return Ok(());
    };
    let address = add_offset(base, offset);
    let Some(value) = run.number_at(address, byte_count(size) as u64) else {
        return Ok(());
    };
    let below = STACK_TOP.saturating_sub(address);
    write!(text, " ; [r10-{below}] {value}")
}

// The register that an instruction writes; for an atomic operation, the one that gets the old
// value.
fn written(insn: Insn) -> Option<Reg>
    ensures { result ≡ writes insn }
{
    match insn {
        Insn::Alu { dst, .. } => Some(dst),
        Insn::Mov { dst, .. } => Some(dst),
        Insn::MovSx { dst, .. } => Some(dst),
        Insn::Neg { dst, .. } => Some(dst),
        Insn::End { dst, .. } => Some(dst),
        Insn::Call { .. } => Some(Reg::R0),
        Insn::Load { dst, .. } => Some(dst),
        Insn::Atomic { op, src, .. } => fetched(op, src),
        Insn::Wide { dst, .. } => Some(dst),
        _ => None,
    }
}
