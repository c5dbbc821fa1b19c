//! The explanation of an access that isn't allowed, and of an array that doesn't exist.

use crate::reads::{TouchedMemory, touched};
use crate::register_texts::{push_memory, push_register};
use crate::sentence::push_register_is;
use abs_value::{Abs, AbsState};
use bpf_insn::{AtomicOp, Insn, Reg, WideValue};
use bpf_verify::VerifierRule;
use cells::Shape;
use std::alloc::AllocError;
use std::fmt::Write;

/// Writes a number of bytes, without a plural for 1.
pub(crate) fn push_so_many(text: &mut String, count: u64) -> Result<(), AllocError> {
    if count == 1 {
        return text.push_str("1 byte");
    }
    write!(text, "{count} bytes")
}

/// Writes the address of an access, and what a rule requires of it.
pub(crate) fn push_access(
    text: &mut String,
    shape: &Shape,
    e: &AbsState,
    rule: VerifierRule,
    touched: Option<TouchedMemory>,
) -> Result<(), AllocError> {
    let Some(touched) = touched else {
        return Ok(());
    };
    let base = touched.base;
    match (rule, e.value(base)) {
        (VerifierRule::NotAddress, Abs::MayCell(_)) => {
            push_register(text, base)?;
            return text.push_str(" may be 0: compare it with 0 first");
        }
        _ => push_register_is(text, shape, e, base)?,
    }
    match (rule, e.value(base)) {
        (VerifierRule::NotAddress, _) => text.push_str(", which is no address"),
        (VerifierRule::Access, Abs::Cell(_)) => {
            text.push_str(": a cell is accessed as a whole, at its own address and without a sign")
        }
        (VerifierRule::Access, _) => push_outside(text, touched),
        (VerifierRule::WritesContext, _) => text.push_str(": the context isn't written"),
        (VerifierRule::Kind, _) => text.push_str(": no atomic operation goes to the stack"),
        _ => text.push_str(
            ", of an array with a quota: only a load or an atomic add of 1 with fetch touches it",
        ),
    }
}

fn push_outside(text: &mut String, touched: TouchedMemory) -> Result<(), AllocError> {
    text.push_str(", and ")?;
    push_so_many(text, touched.count as u64)?;
    text.push_str(" at ")?;
    push_memory(text, touched.base, touched.offset)?;
    text.push_str(" may lie outside the region")
}

/// Writes how a cell with a quota is accessed, and what an addition adds.
pub(crate) fn push_quota(
    text: &mut String,
    shape: &Shape,
    e: &AbsState,
    insn: Insn,
) -> Result<(), AllocError> {
    push_access(text, shape, e, VerifierRule::QuotaCell, touched(insn))?;
    match insn {
        Insn::Atomic {
            op: AtomicOp::FetchAdd,
            src,
            ..
        } => {
            text.push_str(", and ")?;
            push_register_is(text, shape, e, src)
        }
        _ => Ok(()),
    }
}

/// Writes which array or cell doesn't exist.
pub(crate) fn push_array_fault(
    text: &mut String,
    shape: &Shape,
    insn: Insn,
) -> Result<(), AllocError> {
    let (index, byte) = match insn {
        Insn::Wide {
            value: WideValue::Map(index),
            ..
        } => (index, None),
        Insn::Wide {
            value: WideValue::Cell { array, offset },
            ..
        } => (array, Some(offset)),
        _ => return Ok(()),
    };
    let array = if index < 0 {
        None
    } else {
        shape.arrays().get(index as usize)
    };
    match (array, byte) {
        (Some(array), Some(byte)) => {
            let name = array.name.as_str();
            write!(text, "{name} has no cell at byte {byte}")
        }
        _ => write!(text, "there is no array {index}"),
    }
}
