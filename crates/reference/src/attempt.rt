//! The result of one instruction, before the reply of a counter that it uses.

ghost use Rattle.std.specs.Prelude.{◌≡◌, ◌+◌, ◌<◌, ◌≤◌};
ghost use Rattle.bpf_semantics.specs.Outcome as outcome;
ghost use Rattle.bpf_semantics.specs.State.{State};
ghost use Rattle.reference.specs.Attempts.{HasRoom, Comes, replied};
ghost use Rattle.reference.specs.Marks.{state_of};

use crate::state::Interpreter;
use bpf_insn::{Distance, Reg};
use cells::{CellNo, CellOp};

/// The run continues, requests a counter operation, ends, or has an undefined step.
#[derive(Clone, Copy)]
pub enum Attempt {
    Going,
    /// The counter's reply goes into the register, if there is one.
    Operates {
        cell: CellNo,
        op: CellOp,
        into: Option<Reg>,
    },
    Done(u64),
    Trap,
}

impl Interpreter {
    /// Continues at a slot, if there is one.
    pub(crate) fn jump_to(&mut self, slot: Option<usize>) -> Attempt
        requires { HasRoom (state_of self.old) }
        ensures { let s = state_of self.old in
            Comes (outcome.jump_to s slot) s result (state_of self.new) }
    {
        match slot {
            Some(slot) => {
                self.go(slot);
                Attempt::Going
            }
            None => Attempt::Trap,
        }
    }

    /// Jumps if the condition holds, otherwise continues at the next slot.
    pub(crate) fn branch(&mut self, offset: i16, taken: Option<bool>) -> Attempt
        requires { HasRoom (state_of self.old) }
        ensures { let s = state_of self.old in
            Comes (outcome.branch s offset taken) s result (state_of self.new) }
    {
        match taken {
            Some(true) => {
                let target = Distance::Short(offset).target(self.slot());
                self.jump_to(target)
            }
            Some(false) => {
                self.go(self.slot() + 1);
                Attempt::Going
            }
            None => Attempt::Trap,
        }
    }

    /// Sets a register, and continues `width` slots further. R10 is read-only.
    pub(crate) fn write(&mut self, width: usize, dst: Reg, value: Option<u64>) -> Attempt
        requires room { HasRoom (state_of self.old) }
        requires width { width ≤ 2 }
        ensures { let s = state_of self.old in
            Comes (outcome.write s width dst value) s result (state_of self.new) }
    {
        match value {
            Some(value) if dst != Reg::R10 => {
                let next = self.slot() + width;
                self.set(dst, value);
                self.go(next);
                Attempt::Going
            }
            _ => Attempt::Trap,
        }
    }

    /// Stores a helper's result, and continues.
    pub(crate) fn answer(&mut self, value: Option<u64>) -> Attempt
        requires { HasRoom (state_of self.old) }
        ensures { let s = state_of self.old in
            Comes (outcome.answer s value) s result (state_of self.new) }
    {
        match value {
            Some(value) => {
                let next = self.slot() + 1;
                self.set_result(value);
                self.go(next);
                Attempt::Going
            }
            None => Attempt::Trap,
        }
    }

    /// Stores a counter's reply, and continues.
    pub(crate) fn take_reply(&mut self, into: Option<Reg>, reply: u64)
        requires { HasRoom (state_of self.old) }
        ensures { state_of self.new ≡ replied (state_of self.old) into reply }
    {
        let next = self.slot() + 1;
        if let Some(dst) = into {
            self.set(dst, reply);
        }
        self.go(next);
    }
}

/// Requests a counter operation; the reply goes into the register, if there is one. R10 is
/// read-only.
pub fn operate(cell: CellNo, op: CellOp, into: Option<Reg>) -> Attempt
    ensures { (s : State) → Comes (outcome.operate s cell.number op into) s result s }
{
    match into {
        Some(Reg::R10) => Attempt::Trap,
        _ => Attempt::Operates { cell, op, into },
    }
}

/// Ends the run with a choice, if it is set.
pub fn finish(choice: Option<u64>) -> Attempt
    ensures { (s : State) → Comes (outcome.finish choice) s result s }
{
    match choice {
        Some(choice) => Attempt::Done(choice),
        None => Attempt::Trap,
    }
}
