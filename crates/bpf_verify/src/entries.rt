//! The entries that the sweep holds: the current one, which is changed in place from instruction to
//! instruction, and those that wait for the targets of jumps.

ghost use Rattle.std.specs.Prelude.{◌≡◌, ◌+◌, ◌-◌, ◌<◌, ◌≤◌};
ghost use Rattle.std.specs.Prelude.{length, replicate, IfOk, OnOk, OnErr};
ghost use Rattle.std.specs.Prelude.{Some, None, true, IfSome};
ghost use Rattle.abs_value.specs.States.{opening_state};
ghost use Rattle.flow_check.specs.Edges.{target_of};
ghost use Rattle.bpf_checks.specs.Transfer.{jumping};
ghost use Rattle.bpf_verify.specs.Pool.{held, IsChanged};
ghost use Rattle.bpf_verify.specs.Sweep.{falling, IsAdded};
ghost use Rattle.bpf_verify.specs.Entries.{current_entry, arriving};

use crate::pool::Pool;
use abs_value::{AbsState, joins_commute};
use bpf_checks::{Compared, go_on_in, is_lookup_check, jump_in};
use bpf_insn::Insn;
use cells::Shape;
use flow_check::{jump_target, next_place};
use std::alloc::{AllocError, Global};

/// The current entry, which counts only if `is_live`, and those that wait.
#[derive(Drop)]
pub struct Entries {
    pub here: AbsState,
    pub is_live: bool,
    pub waiting: Pool,
}

impl Entries {
    /// The entry at the start of a run, before the first of `count` slots.
    pub fn opening(alloc: Global, count: usize) -> Result<Entries, AllocError>
        requires { count ≤ 4096 }
        ensures here { IfOk result (λ e. current_entry e ≡ Some opening_state) }
        ensures none { IfOk result (λ e. e.waiting.entries ≡ replicate count None) }
        ensures most { IfOk result (λ e. e.waiting.most ≡ 0) }
    {
        let waiting = Pool::new(alloc, count)?;
        Ok(Entries {
            here: AbsState::opening(),
            is_live: true,
            waiting,
        })
    }

    /// The greatest number of entries that were kept at once.
    pub fn peak(&self) -> usize
        ensures { result ≡ self.now.waiting.most + 1 }
    {
        self.waiting.most() + 1
    }

    /// Joins the entry that waits for the slot with the one that falls through.
    fn join_waiting(&mut self, slot: usize)
        ensures here { current_entry self.new ≡ arriving self.old slot }
        ensures waiting { self.new.waiting ≡ self.old.waiting }
    {
        let Some(found) = self.waiting.at(slot) else {
            return;
        };
        if self.is_live {
            joins_commute();
            self.here.join_in(found);
        } else {
            self.here.copy_from(found);
            self.is_live = true;
        }
    }

    /// Makes the slot's entry the current one, and frees the one that waited for it.
    pub fn arrive(&mut self, slot: usize) -> Result<(), AllocError>
        ensures here { OnOk result (current_entry self.new ≡ arriving self.old slot) }
        ensures waiting { OnOk result (IsChanged self.old.waiting self.new.waiting slot None) }
        ensures most { self.new.waiting.most ≡ self.old.waiting.most }
        ensures held { OnOk result (held self.new.waiting ≤ self.new.waiting.most) }
    {
        self.join_waiting(slot);
        self.waiting.free_entry(slot)
    }

    /// Joins the state on the instruction's jump edge into the entry that waits for its target.
    pub fn jump(&mut self, slot: usize, insn: &Insn) -> Result<(), AllocError>
        requires slot { slot < 4096 }
        requires target { IfSome (target_of slot insn.now)
            (λ t. t < length self.old.waiting.entries) }
        ensures here { OnOk result (self.new.here ≡ self.old.here) }
        ensures live { OnOk result (self.new.is_live ≡ self.old.is_live) }
        ensures added { OnOk result (IsAdded (target_of slot insn.now)
            (jumping self.old.here insn.now) self.old.waiting self.new.waiting) }
        ensures most { OnErr result (self.new.waiting.most ≡ self.old.waiting.most) }
    {
        let Some(target) = jump_target(slot, *insn) else {
            return Ok(());
        };
        if is_lookup_check(&self.here, insn) {
            return self.jump_at_check(target, insn);
        }
        let compared = Compared::of(&self.here, insn);
        if jump_in(&mut self.here, insn) {
            self.waiting.add(target, &self.here)?;
            compared.restore(&mut self.here);
        }
        Ok(())
    }

    /// Like `jump`, for a comparison of a lookup's result with 0. The edge also narrows each copy
    /// of that result, so it needs a copy of the state. That copy is on the stack frame of this
    /// function, not of its callers.
    #[inline(never)]
    fn jump_at_check(&mut self, target: usize, insn: &Insn) -> Result<(), AllocError>
        requires { target < length self.old.waiting.entries }
        ensures here { OnOk result (self.new.here ≡ self.old.here) }
        ensures live { OnOk result (self.new.is_live ≡ self.old.is_live) }
        ensures added { OnOk result (IsAdded (Some target) (jumping self.old.here insn.now)
            self.old.waiting self.new.waiting) }
        ensures most { OnErr result (self.new.waiting.most ≡ self.old.waiting.most) }
    {
        let mut edge = self.here.copy();
        if jump_in(&mut edge, insn) {
            self.waiting.add(target, &edge)?;
        }
        Ok(())
    }

    /// Makes the entry after the instruction the current one. If no run can fall through, no entry
    /// is current.
    pub fn go_on(&mut self, shape: &Shape, slot: usize, insn: &Insn)
        requires { slot < 4096 }
        ensures here { current_entry self.new ≡ falling shape.now slot self.old.here insn.now }
        ensures waiting { self.new.waiting ≡ self.old.waiting }
    {
        self.is_live = next_place(slot, *insn).is_some()
            && go_on_in(&mut self.here, shape, slot as u16, insn);
    }
}
