//! The successors of an instruction, and the rules F1 to F4 for one slot. A jump counts slots from
//! the instruction after it (RFC 9669, "Jump Instructions"). If a slot breaks several rules, the
//! lowest is returned: a conditional jump at the last slot breaks F1 or F2 before F4.

ghost use Rattle.std.specs.Prelude.{◌≡◌, ℕ, ◌<◌, ◌≤◌, IfSome, IfNone, length};
ghost use Rattle.std.specs.Prelude.{Some};
ghost use Rattle.bpf_insn.specs.Program as program;
ghost use Rattle.flow_check.specs.Edges.{jump_of, target_of, next_target};
ghost use Rattle.flow_check.specs.Edges.{KeepsJump, KeepsEdges};
ghost use Rattle.flow_check.specs.Fault.{IsEdgeFault};
ghost use Rattle.flow_check.specs.Laid.{laid};

use crate::flow_fault::FlowRule;
use crate::slots::{insn_after, is_half, is_wide_at, slot_count};
use bpf_insn::{Distance, Insn};

/// The distance of the instruction's jump, if it is a jump.
fn distance_of(insn: Insn) -> Option<Distance>
    ensures { result ≡ jump_of insn }
{
    match insn {
        Insn::Jump { distance } => Some(distance),
        Insn::JumpIf { offset, .. } => Some(Distance::Short(offset)),
        _ => None,
    }
}

/// The slot that the instruction jumps to; `None` if it isn't a jump, or jumps below slot 0.
// open: slots from 4096 on, which no program has.
pub fn jump_target(slot: usize, insn: Insn) -> Option<usize>
    requires { slot < 4096 }
    ensures { result ≡ target_of slot insn }
{
    distance_of(insn)?.target(slot)
}

/// The slot of the next instruction, if this one may continue there.
// open: slots from 4096 on, which no program has.
pub fn next_place(slot: usize, insn: Insn) -> Option<usize>
    requires { slot < 4096 }
    ensures { result ≡ next_target slot insn }
{
    match insn {
        Insn::Jump { .. } | Insn::Exit => None,
        _ => Some(slot + insn.width().slots()),
    }
}

/// The lowest rule that the jump breaks.
fn jump_fault(code: &[Insn], slot: usize, insn: Insn) -> Option<FlowRule>
    requires short { length (laid code.now) ≤ 4096 }
    requires at { program.at (laid code.now) slot ≡ Some insn }
    ensures fault { IfSome result (λ rule. IsEdgeFault (laid code.now) slot rule) }
    ensures none { IfNone result (KeepsJump (laid code.now) slot) }
{
    let Some(distance) = distance_of(insn) else {
        return None;
    };
    let Some(target) = distance.target(slot) else {
        return Some(FlowRule::BackJump);
    };
    if target <= slot {
        return Some(FlowRule::BackJump);
    }
    if target >= slot_count(code) {
        return Some(FlowRule::Outside);
    }
    if is_half(code, target) {
        return Some(FlowRule::InsideWide);
    }
    None
}

/// The lowest of the rules F1 to F4 that the slot breaks.
pub fn edge_fault(code: &[Insn], slot: usize, insn: Insn) -> Option<FlowRule>
    requires short { length (laid code.now) ≤ 4096 }
    requires at { program.at (laid code.now) slot ≡ Some insn }
    ensures fault { IfSome result (λ rule. IsEdgeFault (laid code.now) slot rule) }
    ensures none { IfNone result (KeepsEdges (laid code.now) slot) }
{
    if let Some(rule) = jump_fault(code, slot, insn) {
        return Some(rule);
    }
    match next_place(slot, insn) {
        Some(next) if next == slot_count(code) => Some(FlowRule::FallsOff),
        _ => None,
    }
}

/// The lowest slot that breaks one of the rules F1 to F4, and the lowest rule that it breaks.
pub fn first_edge_fault(code: &[Insn]) -> Option<(usize, FlowRule)>
    requires { length (laid code.now) ≤ 4096 }
    ensures fault { IfSome result (λ f. IsEdgeFault (laid code.now) f.0 f.1) }
    ensures before { IfSome result (λ f. (k : ℕ) → k < f.0 → KeepsEdges (laid code.now) k) }
    ensures none { IfNone result ((k : ℕ) → KeepsEdges (laid code.now) k) }
{
    let count = slot_count(code);
    let mut wide = false;
    for slot in 0..count {
        if let Some(insn) = insn_after(code, slot, wide)
            && let Some(rule) = edge_fault(code, slot, insn)
        {
            return Some((slot, rule));
        }
        wide = is_wide_at(code, slot);
    }
    None
}
