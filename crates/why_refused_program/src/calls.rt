//! The explanation of a call that isn't allowed: what its helper takes, and what it is given.

use crate::accesses::push_so_many;
use crate::sentence::push_register_is;
use abs_value::{Abs, AbsState};
use bpf_insn::{Insn, Reg};
use bpf_semantics::STACK_SIZE;
use bpf_semantics::helpers::Prototype;
use cells::Shape;
use std::alloc::AllocError;
use std::fmt::Write;

/// Writes what a helper takes, and what it is given.
pub(crate) fn push_call(
    text: &mut String,
    shape: &Shape,
    e: &AbsState,
    insn: Insn,
) -> Result<(), AllocError> {
    let Insn::Call { helper } = insn else {
        return Ok(());
    };
    match Prototype::called(helper) {
        Some(Prototype::OfMap) => {
            text.push_str("helper 1 takes a map and a number: ")?;
            push_given(text, shape, e, Reg::R2)
        }
        Some(Prototype::OfText) => {
            text.push_str("helper 2 takes a number, and of the stack a place and a single length")?;
            text.push_str(" up to 64: ")?;
            push_given(text, shape, e, Reg::R3)?;
            push_past_top(text, e.value(Reg::R2), e.value(Reg::R3))
        }
        Some(Prototype::OfNumber { .. }) => {
            write!(text, "helper {helper} takes a number: ")?;
            push_given(text, shape, e, Reg::R1)
        }
        None => write!(text, "there is no helper {helper}"),
    }
}

// The registers from r1 up to the last of the arguments.
fn push_given(text: &mut String, shape: &Shape, e: &AbsState, last: Reg) -> Result<(), AllocError> {
    push_register_is(text, shape, e, Reg::R1)?;
    for r in [Reg::R2, Reg::R3] {
        if r.index() <= last.index() {
            text.push_str(", ")?;
            push_register_is(text, shape, e, r)?;
        }
    }
    Ok(())
}

// For a text in the stack: how far it ends past the top.
fn push_past_top(text: &mut String, address: Abs, length: Abs) -> Result<(), AllocError> {
    let (Abs::Stk { place }, Abs::Num(n)) = (address, length) else {
        return Ok(());
    };
    let end = (place as u64).saturating_add(n.least());
    if n.is_single() && n.least() <= 64 && end > STACK_SIZE as u64 {
        text.push_str(", which ends past the stack's top by ")?;
        push_so_many(text, end.saturating_sub(STACK_SIZE as u64))?;
    }
    Ok(())
}
