//! Why a program has no order: the lowest slot with an edge that leads onto no instruction, or the
//! lowest jump that closes a cycle.

ghost use Rattle.std.specs.Prelude.{◌≡◌, ℕ, ◌<◌, ◌≤◌, IfOk, IfSome, IfNone, IsSome, IsTrue};
ghost use Rattle.std.specs.Prelude.{None, Some, false, length};
ghost use Rattle.bpf_insn.specs.Program as program;
ghost use Rattle.bpf_insn.specs.declared.insn.Insn.{Insn};
ghost use Rattle.flow_check.specs.Edges.{jump_of};
ghost use Rattle.flow_check.specs.Sweep.{IsMarked};
ghost use Rattle.block_order.specs.Refusal.{IsStrayBy, LandsWithin, StaysWithin, ClosesCycle};

use crate::reach::reached_from;
use bpf_insn::Insn;
use flow_check::{FlowRule, jump_target, next_place};
use std::alloc::{AllocError, Global};

/// Whether the instruction is a jump.
fn is_jump(insn: Insn) -> bool
    ensures yes { IsTrue result → IsSome (jump_of insn) }
    ensures no { result ≡ false → jump_of insn ≡ None }
{
    matches!(insn, Insn::Jump { .. } | Insn::JumpIf { .. })
}

/// The rule that the jump breaks in any order: it lands below slot 0, at or past the end, or in the
/// second half of a wide load.
fn stray_jump(code: &[Option<Insn>], slot: usize, insn: Insn) -> Option<FlowRule>
    requires short { length code.now ≤ 4096 }
    requires at { program.at code.now slot ≡ Some insn }
    ensures some { IfSome result (λ rule. IsStrayBy code.now slot rule) }
    ensures none { IfNone result (LandsWithin code.now slot) }
{
    if !is_jump(insn) {
        return None;
    }
    let Some(target) = jump_target(slot, insn) else {
        return Some(FlowRule::BackJump);
    };
    match code.get(target) {
        None => Some(FlowRule::Outside),
        Some(None) => Some(FlowRule::InsideWide),
        Some(Some(_)) => None,
    }
}

/// The rule that the slot breaks in any order, apart from cycles.
fn stray(code: &[Option<Insn>], slot: usize, insn: Insn) -> Option<FlowRule>
    requires short { length code.now ≤ 4096 }
    requires at { program.at code.now slot ≡ Some insn }
    ensures some { IfSome result (λ rule. IsStrayBy code.now slot rule) }
    ensures none { IfNone result (StaysWithin code.now slot) }
{
    if let Some(rule) = stray_jump(code, slot, insn) {
        return Some(rule);
    }
    match next_place(slot, insn) {
        Some(next) if next == code.len() => Some(FlowRule::FallsOff),
        _ => None,
    }
}

/// The lowest reached slot with an edge that leads onto no instruction, and the rule that it
/// breaks.
pub fn first_stray(code: &[Option<Insn>], reached: &[bool]) -> Option<(usize, FlowRule)>
    requires short { length code.now ≤ 4096 }
    requires length { length reached.now ≡ length code.now }
    ensures some { IfSome result (λ f. IsMarked reached.now f.0 × IsStrayBy code.now f.0 f.1) }
    ensures before { IfSome result (λ f. (s : ℕ) → s < f.0 → IsMarked reached.now s
        → StaysWithin code.now s) }
    ensures none { IfNone result ((s : ℕ) → IsMarked reached.now s → StaysWithin code.now s) }
{
    for (slot, place) in code.iter().enumerate() {
        if let Some(insn) = *place
            && reached[slot]
            && let Some(rule) = stray(code, slot, insn)
        {
            return Some((slot, rule));
        }
    }
    None
}

/// Whether the instruction jumps back to a slot from which it is reached again.
fn closes_cycle(
    alloc: Global,
    code: &[Option<Insn>],
    slot: usize,
    insn: Insn,
) -> Result<bool, AllocError>
    requires short { length code.now ≤ 4096 }
    requires at { program.at code.now slot ≡ Some insn }
    requires within { slot < length code.now }
    ensures yes { IfOk result (λ b. IsTrue b → ClosesCycle code.now slot) }
    ensures no { IfOk result (λ b. b ≡ false → ¬ ClosesCycle code.now slot) }
{
    let Some(target) = jump_target(slot, insn) else {
        return Ok(false);
    };
    if target > slot {
        return Ok(false);
    }
    let marks = reached_from(alloc, code, target)?;
    Ok(marks[slot])
}

/// The lowest jump that closes a cycle.
pub fn first_cycle(
    alloc: Global,
    code: &[Option<Insn>],
    reached: &[bool],
) -> Result<Option<usize>, AllocError>
    requires short { length code.now ≤ 4096 }
    requires length { length reached.now ≡ length code.now }
    ensures some { IfOk result (λ o. IfSome o (λ s.
        IsMarked reached.now s × ClosesCycle code.now s)) }
    ensures before { IfOk result (λ o. IfSome o (λ s. (t : ℕ) → t < s → IsMarked reached.now t
        → ¬ ClosesCycle code.now t)) }
    ensures none { IfOk result (λ o. IfNone o ((s : ℕ) → IsMarked reached.now s
        → ¬ ClosesCycle code.now s)) }
{
    for (slot, place) in code.iter().enumerate() {
        if let Some(insn) = *place
            && reached[slot]
            && closes_cycle(alloc, code, slot, insn)?
        {
            return Ok(Some(slot));
        }
    }
    Ok(None)
}
