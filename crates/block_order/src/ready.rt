//! The choice of the next slot. A block is ready if each instruction that leads to it is placed.
//! The next block is the lowest ready one; within a block, the next instruction follows. A block
//! begins at the entry, at the target of a jump, and after a conditional jump.

ghost use Rattle.std.specs.Prelude.{◌<◌, ◌≤◌, IfSome, length};

use bpf_insn::Insn;
use flow_check::{jump_target, next_place};

fn is_marked(marks: &[bool], slot: usize) -> bool {
    match marks.get(slot) {
        Some(mark) => *mark,
        None => false,
    }
}

/// Sets the mark of the slot, if it is within the program.
fn set_mark(marks: &mut [bool], place: Option<usize>, mark: bool) {
    if let Some(place) = place
        && place < marks.len()
    {
        marks[place] = mark;
    }
}

/// Marks the slots, other than the entry, at which a block begins.
pub fn mark_heads(heads: &mut [bool], code: &[Option<Insn>], reached: &[bool])
    requires { length code.now ≤ 4096 }
{
    for (slot, place) in code.iter().enumerate() {
        if let Some(insn) = *place
            && is_marked(reached, slot)
        {
            set_mark(heads, jump_target(slot, insn), true);
            if let Insn::JumpIf { .. } = insn {
                set_mark(heads, next_place(slot, insn), true);
            }
        }
    }
}

/// Marks the successors of each reached instruction that isn't placed yet.
pub fn mark_entered(
    entered: &mut [bool],
    code: &[Option<Insn>],
    reached: &[bool],
    places: &[Option<usize>],
)
    requires { length code.now ≤ 4096 }
{
    for slot in 0..entered.len() {
        set_mark(entered, Some(slot), false);
    }
    for (slot, place) in code.iter().enumerate() {
        if let Some(insn) = *place
            && is_marked(reached, slot)
            && let Some(None) = places.get(slot)
        {
            set_mark(entered, jump_target(slot, insn), true);
            set_mark(entered, next_place(slot, insn), true);
        }
    }
}

/// The next slot, if one is ready.
pub fn next_ready(
    heads: &[bool],
    entered: &[bool],
    reached: &[bool],
    places: &[Option<usize>],
) -> Option<usize>
    ensures { IfSome result (λ s. s < length places.now) }
{
    let mut first = None;
    for (slot, place) in places.iter().enumerate() {
        if place.is_none() && is_marked(reached, slot) && !is_marked(entered, slot) {
            if !is_marked(heads, slot) {
                return Some(slot);
            }
            if first.is_none() {
                first = Some(slot);
            }
        }
    }
    first
}
