//! One step of a run of any program.

ghost use Rattle.std.specs.Prelude.{◌-◌, ◌<◌, ◌≤◌, ◌^◌, length};
ghost use Rattle.bpf_semantics.specs.Step as semantics;
ghost use Rattle.reference.specs.Attempts.{Comes};
ghost use Rattle.reference.specs.Marks.{state_of};
ghost use Rattle.bpf_semantics.specs.Program.{shaped};
ghost use Rattle.reference.specs.Observed.{IsStep, Grew};

use crate::attempt::Attempt;
use crate::observed::Observed;
use crate::state::Interpreter;
use bpf_insn::Insn;
use cells::{CellEvent, CellSteps, Shape};

impl Interpreter {
    /// Executes one step of a program of at most 4096 slots, for an app of this shape.
    // open: which reply the counter gives.
    pub fn step<C: CellSteps>(
        &mut self,
        code: &[Option<Insn>],
        shape: &Shape,
        cells: &C,
        pass: &mut C::Pass,
    ) -> Observed
        requires short { length code.now ≤ 4096 }
        requires count { (state_of self.old).count < 2 ^ 64 - 1 }
        requires belongs { C.belongs cells.now pass.old }
        ensures step { let s = state_of self.old in
            IsStep (shaped code.now shape.now) s result (state_of self.new) }
        ensures grew { Grew C.grew pass.old result pass.new }
        ensures belongs { C.belongs cells.now pass.new }
    {
        match self.attempt(code, shape) {
            Attempt::Going => Observed::Going,
            Attempt::Operates { cell, op, into } => {
                let reply = cells.act(pass, cell, op);
                self.take_reply(into, reply);
                let cell = cell.number;
                Observed::Event(CellEvent { cell, op, reply })
            }
            Attempt::Done(choice) => Observed::Done(choice),
            Attempt::Trap => Observed::Trap,
        }
    }

    /// Executes the instruction at the slot, if there is one.
    fn attempt(&mut self, code: &[Option<Insn>], shape: &Shape) -> Attempt
        requires short { length code.now ≤ 4096 }
        requires count { (state_of self.old).count < 2 ^ 64 - 1 }
        ensures { let s = state_of self.old in
            Comes (semantics.step (shaped code.now shape.now) s) s result (state_of self.new) }
    {
        match code.get(self.slot()) {
            Some(Some(insn)) => self.perform(shape, *insn),
            _ => Attempt::Trap,
        }
    }
}
