//! A counter in a line: its name, the operation and the reply.

use cells::{CellEvent, CellOp, Shape};
use std::alloc::AllocError;
use std::fmt::Write;
use why_refused_program::push_counter;

/// Writes the operation on a counter, if there was one.
pub(crate) fn push_event(
    text: &mut String,
    shape: &Shape,
    event: Option<CellEvent>,
) -> Result<(), AllocError> {
    let Some(event) = event else {
        return Ok(());
    };
    text.push_str(" ; ")?;
    push_counter(text, shape, event.cell)?;
    text.push_str(" ")?;
    push_op(text, event.op)?;
    let reply = event.reply;
    write!(text, " replied {reply}")
}

fn push_op(text: &mut String, op: CellOp) -> Result<(), AllocError> {
    match op {
        CellOp::Load => text.push_str("load"),
        CellOp::Store(new) => write!(text, "store {new}"),
        CellOp::Add(number) => write!(text, "add {number}"),
        CellOp::Or(bits) => write!(text, "or {bits}"),
        CellOp::And(bits) => write!(text, "and {bits}"),
        CellOp::Xor(bits) => write!(text, "xor {bits}"),
        CellOp::Swap(new) => write!(text, "swap {new}"),
        CellOp::CompareExchange(expected, new) => write!(text, "compare {expected} swap {new}"),
    }
}
