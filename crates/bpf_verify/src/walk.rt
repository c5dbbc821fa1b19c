//! A walk over the slots of a program, for callers that report each entry. It proceeds as the sweep
//! does, and its caller drives it: arrive, read the entry, judge, carry on.

ghost use Rattle.std.specs.Prelude.{◌≡◌, ◌<◌, length, option_copied, IfOk, IfErr, OnOk, Some};
ghost use Rattle.bpf_insn.specs.Program.{Program, at};
ghost use Rattle.bpf_semantics.specs.Program.{shaped};
ghost use Rattle.flow_check.specs.Edges.{next_of};
ghost use Rattle.cells.specs.Arrays.{AppShape};
ghost use Rattle.bpf_verify.specs.Accepted.{IsFine, IsRefusal, FailsAt};
ghost use Rattle.bpf_verify.specs.Walk.{entry_here, IsWalkBefore, IsWalkAt, EndIsAccepted};

use crate::entries::Entries;
use crate::sweep;
use abs_value::AbsState;
use bpf_checks::Refusal;
use bpf_insn::Insn;
use cells::Shape;
use flow_check::Flow;
use std::alloc::{AllocError, Global};

/// The entries of a program's slots, one after the other, upwards. It holds what `verify` holds:
/// the current entry, which is changed in place, and those that wait for targets ahead.
#[derive(Drop)]
pub struct Walk {
    entries: Entries,
}

impl Walk {
    /// A walk before the first slot, under any shape.
    // open: whether an allocation fails.
    pub fn start(alloc: Global, flow: &Flow) -> Result<Walk, AllocError>
        ensures { IfOk result (λ w. (shape : AppShape) → IsWalkBefore flow.now shape 0 w) }
    {
        flow.invariant_law();
        let Ok(entries) = Entries::opening(alloc, flow.len()) else {
            return Err(AllocError);
        };
        Ok(Walk { entries })
    }

    /// Arrives at the next slot, which is `slot`. If an allocation fails, here or in `carry_on`,
    /// the walk is unusable.
    // open: whether an allocation fails.
    pub fn arrive(&mut self, slot: usize) -> Result<(), AllocError>
        ensures { OnOk result ((code : Program) (shape : AppShape) → slot < length code
            → IsWalkBefore code shape slot self.old → IsWalkAt code shape slot self.new) }
    {
        self.entries.arrive(slot)?;
        Ok(())
    }

    /// The entry before the instruction; `None` if no edge leads to it.
    pub fn entry(&self) -> Option<&AbsState>
        ensures { option_copied result ≡ entry_here self.now }
    {
        if self.entries.is_live {
            Some(&self.entries.here)
        } else {
            None
        }
    }

    /// Judges the slot as `verify` does: a refusal here is the program's.
    pub fn judge(&self, flow: &Flow, shape: &Shape, slot: usize, insn: &Insn) -> Result<(), Refusal>
        requires place { at flow.now slot ≡ Some insn.now }
        requires here { IsWalkAt flow.now shape.now slot self.now }
        ensures fine { OnOk result (IsFine (shaped flow.now shape.now) slot) }
        ensures refused { IfErr result (λ r. IsRefusal flow.now shape.now r) }
        ensures here { IfErr result (λ r. FailsAt slot r) }
    {
        sweep::judge(&self.entries, flow, shape, slot, insn)
    }

    /// Continues from a slot that breaks no rule, along the edges of its instruction.
    // open: whether an allocation fails.
    pub fn carry_on(
        &mut self,
        flow: &Flow,
        shape: &Shape,
        slot: usize,
        insn: &Insn,
    ) -> Result<(), AllocError>
        requires place { at flow.now slot ≡ Some insn.now }
        requires here { IsWalkAt flow.now shape.now slot self.old }
        requires fine { IsFine (shaped flow.now shape.now) slot }
        ensures { OnOk result
            (IsWalkBefore flow.now shape.now (next_of slot insn.now) self.new) }
    {
        sweep::carry_on(&mut self.entries, flow, shape, slot, insn)
    }
}

/// Law: if a walk reaches the end, the program is accepted.
pub fn end_is_accepted()
    ensures { (code : Program) (shape : AppShape) → EndIsAccepted code shape }
{}
