//! The slots that are reached from one: while a marked slot leads to an unmarked one, that one is
//! marked.

ghost use Rattle.std.specs.Prelude.{◌≡◌, ◌<◌, ◌≤◌, IfOk, IfSome, IfNone, Some, Contains, length};
ghost use Rattle.std.specs.Prelude.{ℕ, false, true, replicate, slice_set};
ghost use Rattle.bpf_insn.specs.declared.insn.Insn.{Insn};
ghost use Rattle.flow_check.specs.Edges.{successors};
ghost use Rattle.flow_check.specs.Sweep.{IsMarked};
ghost use Rattle.block_order.specs.Reach.{IsUnmarked, LeadsOutOf, IsClosed};
ghost use Rattle.block_order.specs.Reach.{AreReachedFrom, IsReachedSo};

use bpf_insn::Insn;
use flow_check::{jump_target, next_place};
use std::alloc::{AllocError, Global};

/// The slot, if it is within the program and unmarked.
fn unmarked(marks: &[bool], place: Option<usize>) -> Option<usize>
    ensures some { IfSome result (λ t. (place ≡ Some t) × IsUnmarked marks.now t) }
    ensures none { IfNone result ((t : ℕ) → place ≡ Some t → t < length marks.now
        → IsMarked marks.now t) }
{
    match place {
        Some(place) if place < marks.len() && !marks[place] => Some(place),
        _ => None,
    }
}

/// An unmarked slot to which the instruction of this slot leads, if this slot is marked.
fn next_of_slot(marks: &[bool], slot: usize, place: Option<Insn>) -> Option<usize>
    requires slot { slot < 4096 }
    requires within { slot < length marks.now }
    ensures some { IfSome result (λ t. (i : Insn) × (place ≡ Some i) × IsMarked marks.now slot
        × Contains (successors slot i) t × IsUnmarked marks.now t) }
    ensures none { IfNone result ((i : Insn) (t : ℕ) → place ≡ Some i → IsMarked marks.now slot
        → Contains (successors slot i) t → t < length marks.now → IsMarked marks.now t) }
{
    let Some(insn) = place else {
        return None;
    };
    if !marks[slot] {
        return None;
    }
    match unmarked(marks, jump_target(slot, insn)) {
        Some(target) => Some(target),
        None => unmarked(marks, next_place(slot, insn)),
    }
}

/// An unmarked slot to which a marked one leads.
fn next_unmarked(marks: &[bool], code: &[Option<Insn>]) -> Option<usize>
    requires short { length code.now ≤ 4096 }
    requires length { length marks.now ≡ length code.now }
    ensures some { IfSome result (λ t. LeadsOutOf code.now marks.now t) }
    ensures none { IfNone result (IsClosed code.now marks.now) }
{
    for (slot, place) in code.iter().enumerate() {
        if let Some(place) = next_of_slot(marks, slot, *place) {
            return Some(place);
        }
    }
    None
}

/// A mark for each slot; only that of `start` is set.
fn opening(alloc: Global, count: usize, start: usize) -> Result<Vec<bool>, AllocError>
    requires { start < count }
    ensures { IfOk result (λ v. v.items ≡ slice_set (replicate count false) start true) }
{
    let mut marks = vec![in alloc; false; count]?;
    marks[start] = true;
    Ok(marks)
}

/// Marks all slots that are reached from the marked ones.
fn mark_reached(marks: &mut [bool], code: &[Option<Insn>], start: usize)
    requires short { length code.now ≤ 4096 }
    requires start { IsReachedSo code.now start marks.old }
    ensures { AreReachedFrom code.now start marks.new }
{
    while let Some(place) = next_unmarked(marks, code) {
        marks[place] = true;
    }
}

/// A mark for each slot: it is set if a path of edges leads from `start` to the slot.
pub fn reached_from(
    alloc: Global,
    code: &[Option<Insn>],
    start: usize,
) -> Result<Vec<bool>, AllocError>
    requires short { length code.now ≤ 4096 }
    requires start { start < length code.now }
    ensures { IfOk result (λ marks. AreReachedFrom code.now start marks.items) }
{
    let mut marks = opening(alloc, code.len(), start)?;
    mark_reached(&mut marks, code, start);
    Ok(marks)
}
