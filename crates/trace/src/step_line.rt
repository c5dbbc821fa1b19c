//! The line of one step. No clause says how it looks; rows of `crates/rows` compare it.

use crate::changes::{push_stored, push_written};
use crate::counter::push_event;
use bpf_insn::Insn;
use bpf_text::push_bare_line;
use cells::{CellEvent, Shape};
use reference::Interpreter;
use std::alloc::AllocError;
use std::fmt::Write;

/// Writes the line of a step: the instruction at a slot, its operation on a counter, and what it
/// wrote; the run is in the state after it.
pub(crate) fn push_step(
    text: &mut String,
    shape: &Shape,
    slot: usize,
    insn: Insn,
    event: Option<CellEvent>,
    run: &Interpreter,
) -> Result<(), AllocError> {
    write!(text, "{slot}: ")?;
    push_bare_line(text, insn)?;
    push_event(text, shape, event)?;
    push_written(text, insn, run)?;
    push_stored(text, insn, run)?;
    text.push_str("\n")
}
