//! Whether one program is another one in order. Each instruction that has a new slot is compared
//! with the instruction there, and its targets with the new targets.

ghost use Rattle.std.specs.Prelude.{◌≡◌, ℕ, ◌<◌, ◌≤◌, Some, IsTrue, length};
ghost use Rattle.bpf_insn.specs.declared.insn.Insn.{Insn};
ghost use Rattle.bpf_insn.specs.Program as program;
ghost use Rattle.block_order.specs.Order.{place_at, IsJump, GoesOnAt};
ghost use Rattle.block_order.specs.Order.{IsSameJump, IsJumpKept, IsStraight, IsStraightKept};
ghost use Rattle.block_order.specs.Order.{IsKeptAs, IsOrderOf};

use crate::leaving::all_leave_jumps;
use crate::same::is_same;
use bpf_insn::{Distance, Insn, MOST_SLOTS};
use flow_check::{Flow, jump_target};

/// The new slot of the instruction that was at `slot`.
pub fn place_of(places: &[Option<usize>], slot: usize) -> Option<usize>
    ensures { result ≡ place_at places.now slot }
{
    match places.get(slot) {
        Some(place) => *place,
        None => None,
    }
}

/// Whether a JA at the slot lands on the target.
fn is_jump(flow: &Flow, slot: usize, target: usize) -> bool
    ensures { IsTrue result → IsJump flow.now slot target }
{
    if slot >= MOST_SLOTS {
        return false;
    }
    match flow.at(slot) {
        Some(Insn::Jump { distance }) => distance.target(slot) == Some(target),
        _ => false,
    }
}

/// Whether the new slot leads to the instruction of the old slot.
fn goes_on_at(flow: &Flow, places: &[Option<usize>], slot: usize, old: usize) -> bool
    ensures { IsTrue result → GoesOnAt (place_at places.now) flow.now slot old }
{
    match place_of(places, old) {
        Some(place) => slot == place || is_jump(flow, slot, place),
        None => false,
    }
}

/// Whether the JA of the old slot leads on from the new slot.
fn is_passed(
    flow: &Flow,
    places: &[Option<usize>],
    old: usize,
    slot: usize,
    distance: Distance,
) -> bool
    requires { old < 4096 }
    ensures { IsTrue result → IsKeptAs (place_at places.now) flow.now old slot
        (Insn.Jump distance) }
{
    match distance.target(old) {
        Some(target) => goes_on_at(flow, places, slot, target),
        None => false,
    }
}

/// Whether the instruction is at the slot.
fn stands_at(flow: &Flow, slot: usize, insn: Insn) -> bool
    ensures { IsTrue result → program.at flow.now slot ≡ Some insn }
{
    match flow.at(slot) {
        Some(found) => is_same(found, insn),
        None => false,
    }
}

/// Whether both are the same conditional jump, except for the offset.
#[tactic(auto, using(crate::proofs::Straight::same_jump))]
fn is_same_jump(insn: Insn, found: Insn) -> bool
    ensures { IsTrue result → IsSameJump insn found }
{
    let Insn::JumpIf {
        bits,
        condition,
        left,
        right,
        ..
    } = insn
    else {
        return false;
    };
    let Insn::JumpIf { offset, .. } = found else {
        return false;
    };
    let moved = Insn::JumpIf {
        bits,
        condition,
        left,
        right,
        offset,
    };
    is_same(found, moved)
}

/// Whether the conditional jump of the old slot is at the new slot, and lands on the same
/// instruction.
fn is_jump_kept(flow: &Flow, places: &[Option<usize>], old: usize, slot: usize, insn: Insn) -> bool
    requires old { old < 4096 }
    requires slot { slot < 4096 }
    ensures { IsTrue result → IsJumpKept (place_at places.now) flow.now old slot insn }
{
    let Some(moved) = flow.at(slot) else {
        return false;
    };
    let Some(target) = jump_target(old, insn) else {
        return false;
    };
    let Some(place) = place_of(places, target) else {
        return false;
    };
    is_same_jump(insn, moved) && jump_target(slot, moved) == Some(place)
}

/// Whether the instruction continues at the next one, and doesn't jump.
fn is_straight(insn: Insn) -> bool
    ensures { IsTrue result → IsStraight insn }
{
    match insn {
        Insn::Jump { .. } | Insn::JumpIf { .. } | Insn::Exit => false,
        _ => true,
    }
}

/// Whether an instruction that doesn't jump is at the new slot, and continues as before.
fn is_straight_kept(
    flow: &Flow,
    places: &[Option<usize>],
    old: usize,
    slot: usize,
    insn: Insn,
) -> bool
    requires old { old < 4096 }
    requires slot { slot < 4096 }
    ensures { IsTrue result → IsStraightKept (place_at places.now) flow.now old slot insn }
{
    let width = insn.width().slots();
    stands_at(flow, slot, insn) && goes_on_at(flow, places, slot + width, old + width)
}

/// Whether the instruction of the old slot is at the new slot, and continues as before.
#[tactic(auto, using(crate::proofs::Straight::kept_straight))]
fn is_kept(flow: &Flow, places: &[Option<usize>], old: usize, slot: usize, insn: Insn) -> bool
    requires { old < 4096 }
    ensures { IsTrue result → IsKeptAs (place_at places.now) flow.now old slot insn }
{
    if slot >= MOST_SLOTS {
        return false;
    }
    if is_straight(insn) {
        return is_straight_kept(flow, places, old, slot, insn);
    }
    match insn {
        Insn::Jump { distance } => is_passed(flow, places, old, slot, distance),
        Insn::JumpIf { .. } => {
            is_jump_kept(flow, places, old, slot, insn)
                && goes_on_at(flow, places, slot + 1, old + 1)
        }
        Insn::Exit => stands_at(flow, slot, insn),
        _ => false,
    }
}

/// Whether the instruction of the old slot is kept at its new slot, if it has one.
fn is_slot_kept(flow: &Flow, places: &[Option<usize>], old: usize, insn: Option<Insn>) -> bool
    requires { old < 4096 }
    ensures { IsTrue result → ((t : ℕ) → place_at places.now old ≡ Some t
        → (i : Insn) × (insn ≡ Some i) × IsKeptAs (place_at places.now) flow.now old t i) }
{
    let Some(slot) = place_of(places, old) else {
        return true;
    };
    match insn {
        Some(insn) => is_kept(flow, places, old, slot, insn),
        None => false,
    }
}

/// Whether the entry is still at slot 0.
fn keeps_entry(places: &[Option<usize>]) -> bool
    ensures { IsTrue result → place_at places.now 0 ≡ Some 0 }
{
    place_of(places, 0) == Some(0)
}

/// Whether the program `flow` is `code` in order. `places` has the new slot of each old slot.
pub fn is_in_order(code: &[Option<Insn>], flow: &Flow, places: &[Option<usize>]) -> bool
    requires short { length code.now ≤ 4096 }
    requires length { length places.now ≡ length code.now }
    ensures { IsTrue result → IsOrderOf (place_at places.now) code.now flow.now }
{
    if !keeps_entry(places) {
        return false;
    }
    if !all_leave_jumps(code, places) {
        return false;
    }
    for (slot, place) in code.iter().enumerate() {
        if !is_slot_kept(flow, places, slot, *place) {
            return false;
        }
    }
    true
}
