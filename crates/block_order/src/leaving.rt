//! Loops of JAs. A program in order may have nothing in place of a JA, and so nothing in place of a
//! loop of only JAs. So the old program is checked: each run of JAs must reach another instruction.

ghost use Rattle.std.specs.Prelude.{◌≡◌, ℕ, ◌<◌, ◌≤◌, Some, IfSome, IsTrue, length};
ghost use Rattle.bpf_insn.specs.declared.operand.Distance.{Distance};
ghost use Rattle.bpf_insn.specs.declared.insn.Insn.{Insn};
ghost use Rattle.bpf_insn.specs.Program as program;
ghost use Rattle.block_order.specs.Order.{place_at, IsNoJump, LeavesJumps};

use crate::kept::place_of;
use bpf_insn::Insn;

/// The instruction that begins at the slot.
#[tactic(auto, using(crate::proofs::Places::at_within))]
fn insn_at(code: &[Option<Insn>], slot: usize) -> Option<Insn>
    ensures at { result ≡ program.at code.now slot }
    ensures within { IfSome result (λ i. slot < length code.now) }
{
    match code.get(slot) {
        Some(place) => *place,
        None => None,
    }
}

/// Whether the instruction isn't a JA.
fn is_no_jump(insn: Insn) -> bool
    ensures { IsTrue result → IsNoJump insn }
{
    match insn {
        Insn::Jump { .. } => false,
        _ => true,
    }
}

/// The target of a JA at the slot; `None` for any other instruction.
fn landing_of(slot: usize, insn: Insn) -> Option<usize>
    requires { slot < 4096 }
    ensures { IfSome result (λ t. (d : Distance) × (insn ≡ Insn.Jump d)
        × (program.landing slot (program.slots_moved d) ≡ Some t)) }
{
    match insn {
        Insn::Jump { distance } => distance.target(slot),
        _ => None,
    }
}

/// Whether following JAs from the slot ends at another instruction.
#[tactic(auto, using(crate::proofs::JumpsOn::by_other, crate::proofs::JumpsOn::by_jump))]
fn leaves_jumps(code: &[Option<Insn>], slot: usize) -> bool
    requires { length code.now ≤ 4096 }
    ensures { IsTrue result → LeavesJumps code.now slot }
{
    let mut place = slot;
    for _count in 0..code.len() {
        let Some(insn) = insn_at(code, place) else {
            return false;
        };
        if is_no_jump(insn) {
            return true;
        }
        let Some(target) = landing_of(place, insn) else {
            return false;
        };
        place = target;
    }
    false
}

/// Whether following JAs from each slot that has a new slot ends at another instruction.
#[tactic(auto, using(crate::proofs::Places::place_within))]
pub fn all_leave_jumps(code: &[Option<Insn>], places: &[Option<usize>]) -> bool
    requires { length code.now ≤ 4096 }
    ensures { IsTrue result → ((s t : ℕ) → place_at places.now s ≡ Some t
        → LeavesJumps code.now s) }
{
    for slot in 0..places.len() {
        if place_of(places, slot).is_some() && !leaves_jumps(code, slot) {
            return false;
        }
    }
    true
}
