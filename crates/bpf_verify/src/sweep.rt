//! The sweep over the slots, upwards: it judges each slot by its entry, and propagates the entry
//! along the edges of its instruction. Each slot is judged once, and memory is allocated only for
//! targets ahead.

ghost use Rattle.std.specs.Prelude.{◌≡◌, ◌<◌, ◌≤◌, ◌+◌, OnOk, IfErr, OnErr, Some};
ghost use Rattle.bpf_insn.specs.Program.{at};
ghost use Rattle.flow_check.specs.Edges.{next_of};
ghost use Rattle.bpf_semantics.specs.Program.{shaped};
ghost use Rattle.bpf_verify.specs.Accepted.{IsFine, IsRefusal, FailsAt, IsAccepted};
ghost use Rattle.bpf_verify.specs.Entries.{AreSwept, HaveArrived};
ghost use Rattle.bpf_verify.specs.Kept.{IsPeak, IsPeakBefore, greatest_ahead};

use crate::entries::Entries;
use bpf_checks::{Refusal, first_rule};
use bpf_insn::Insn;
use cells::Shape;
use flow_check::Flow;
use std::alloc::AllocError;

/// Judges the instruction at the slot by the current entry; if there is none, nothing is judged.
pub fn judge(
    entries: &Entries,
    flow: &Flow,
    shape: &Shape,
    slot: usize,
    insn: &Insn,
) -> Result<(), Refusal>
    requires place { at flow.now slot ≡ Some insn.now }
    requires here { HaveArrived flow.now shape.now slot entries.now }
    ensures fine { OnOk result (IsFine (shaped flow.now shape.now) slot) }
    ensures here { IfErr result (λ r. FailsAt slot r) }
    ensures refused { IfErr result (λ r. IsRefusal flow.now shape.now r) }
    ensures exact { IfErr result (λ r. IsPeakBefore (shaped flow.now shape.now) r
        (entries.now.waiting.most + 1)) }
{
    flow.invariant_law();
    if !entries.is_live {
        return Ok(());
    }
    match first_rule(shape, &entries.here, insn) {
        Some(rule) => Err(Refusal::Rule { slot, rule }),
        None => Ok(()),
    }
}

/// Propagates the current entry along the edges of the instruction, which breaks no rule.
pub fn carry_on(
    entries: &mut Entries,
    flow: &Flow,
    shape: &Shape,
    slot: usize,
    insn: &Insn,
) -> Result<(), AllocError>
    requires place { at flow.now slot ≡ Some insn.now }
    requires here { HaveArrived flow.now shape.now slot entries.old }
    requires fine { IsFine (shaped flow.now shape.now) slot }
    ensures swept { OnOk result
        (AreSwept flow.now shape.now (next_of slot insn.now) entries.new) }
    ensures most { OnErr result (entries.new.waiting.most ≡ entries.old.waiting.most) }
{
    flow.invariant_law();
    if !entries.is_live {
        return Ok(());
    }
    entries.jump(slot, insn)?;
    entries.go_on(shape, slot, insn);
    Ok(())
}

// Visits one slot: computes its entry, judges it, and propagates the entry.
fn visit(
    entries: &mut Entries,
    flow: &Flow,
    shape: &Shape,
    slot: usize,
    insn: &Insn,
) -> Result<(), Refusal>
    requires place { at flow.now slot ≡ Some insn.now }
    requires swept { AreSwept flow.now shape.now slot entries.old }
    ensures swept { OnOk result
        (AreSwept flow.now shape.now (next_of slot insn.now) entries.new) }
    ensures refused { IfErr result (λ r. IsRefusal flow.now shape.now r) }
    ensures exact { IfErr result (λ r. IsPeakBefore (shaped flow.now shape.now) r
        (entries.new.waiting.most + 1)) }
    ensures most { OnErr result (entries.new.waiting.most ≡ entries.old.waiting.most) }
{
    entries.arrive(slot)?;
    judge(entries, flow, shape, slot, insn)?;
    carry_on(entries, flow, shape, slot, insn)?;
    Ok(())
}

/// Judges all slots, from the first to the last or to one that breaks a rule.
pub fn sweep(entries: &mut Entries, flow: &Flow, shape: &Shape) -> Result<(), Refusal>
    requires { AreSwept flow.now shape.now 0 entries.old }
    ensures accepted { OnOk result (IsAccepted flow.now shape.now) }
    ensures refused { IfErr result (λ r. IsRefusal flow.now shape.now r) }
    ensures exact { IsPeak (shaped flow.now shape.now) result (entries.new.waiting.most + 1) }
    ensures most { entries.new.waiting.most ≤ greatest_ahead flow.now }
{
    flow.invariant_law();
    let mut slot = 0;
    while slot < flow.len() {
        let insn = flow.insn(slot);
        visit(entries, flow, shape, slot, insn)?;
        slot += insn.width().slots();
    }
    Ok(())
}
