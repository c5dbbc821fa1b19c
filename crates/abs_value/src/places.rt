//! Places: offsets from the start of a region, 0 to 64 in the context and 0 to 512 in the stack.
//! The end of a region is also a place, so that a pointer may be just past the last byte.

ghost use Rattle.std.specs.Prelude.{◌≡◌};
ghost use Rattle.abs_value.specs.Values as values;

use crate::number::Number;
use bpf_insn::AluOp;
use bpf_semantics::{CONTEXT_SIZE, STACK_SIZE};

/// The places from `lo` to `hi`, both included.
#[derive(Clone, Copy)]
pub struct Places {
    pub lo: u16,
    pub hi: u16,
}

impl Places {
    /// The least range that contains both.
    pub(crate) fn hull(self, other: Places) -> Places
        ensures { result ≡ values.place_hull self other }
    {
        Places {
            lo: self.lo.min(other.lo),
            hi: self.hi.max(other.hi),
        }
    }

    /// The places after arithmetic in the context; `None` if one may be outside.
    pub(crate) fn moved(self, op: AluOp, by: Number) -> Option<Places>
        ensures { result ≡ values.moved_in_context op self by }
    {
        let (lo, hi) = if by.is_single() {
            let lo = moved_by_single(CONTEXT_SIZE, op, self.lo, by.range.lo)?;
            (lo, moved_by_single(CONTEXT_SIZE, op, self.hi, by.range.hi)?)
        } else {
            let lo = moved_by_end(CONTEXT_SIZE, op, self.lo, by.range.lo)?;
            (lo, moved_by_end(CONTEXT_SIZE, op, self.hi, by.range.hi)?)
        };
        Some(Places { lo, hi })
    }
}

/// The place after arithmetic in the stack; `None` if it may be outside.
pub fn moved_in_stack(op: AluOp, place: u16, by: Number) -> Option<u16>
    ensures { result ≡ values.moved_in_stack op place by }
{
    if by.is_single() {
        moved_by_single(STACK_SIZE, op, place, by.range.lo)
    } else {
        None
    }
}

/// The place plus a single number, which counts by its signed view.
fn moved_up(size: u16, place: u16, n: u64) -> Option<u16>
    ensures { result ≡ values.moved size place (values.distance AluOp.Add n) }
{
    let moved = place as i128 + n.cast_signed() as i128;
    if moved >= 0 && moved <= size as i128 {
        Some(moved as u16)
    } else {
        None
    }
}

/// The place minus a single number, which counts by its signed view.
fn moved_down(size: u16, place: u16, n: u64) -> Option<u16>
    ensures { result ≡ values.moved size place (values.distance AluOp.Sub n) }
{
    let moved = place as i128 - n.cast_signed() as i128;
    if moved >= 0 && moved <= size as i128 {
        Some(moved as u16)
    } else {
        None
    }
}

fn moved_by_single(size: u16, op: AluOp, place: u16, n: u64) -> Option<u16>
    ensures { result ≡ values.moved size place (values.distance op n) }
{
    match op {
        AluOp::Add => moved_up(size, place, n),
        AluOp::Sub => moved_down(size, place, n),
        _ => None,
    }
}

/// The place plus an end of a range, which counts as unsigned and can only be added.
fn moved_by_end(size: u16, op: AluOp, place: u16, n: u64) -> Option<u16>
    ensures { result ≡ values.moved size place (values.distance_of_end op n) }
{
    if op != AluOp::Add {
        return None;
    }
    let moved = place as u128 + n as u128;
    if moved <= size as u128 {
        Some(moved as u16)
    } else {
        None
    }
}
