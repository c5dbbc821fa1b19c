//! A whole run of any program, with a limit of steps: a program that isn't accepted may run
//! forever.

ghost use Rattle.std.specs.Prelude.{◌+◌, ◌<◌, ◌≤◌, ◌^◌, List, length};
ghost use Rattle.cells.specs.Grown.{GrewBy};
ghost use Rattle.cells.specs.declared.event.CellEvent.{CellEvent};
ghost use Rattle.reference.specs.Marks.{state_of};
ghost use Rattle.bpf_semantics.specs.Program.{shaped};
ghost use Rattle.reference.specs.Runs.{IsRun};

use crate::observed::{Observed, RunEnd};
use crate::state::Interpreter;
use bpf_insn::Insn;
use bpf_semantics::counts_instructions;
use cells::{CellSteps, Shape, growth};

impl Interpreter {
    /// Runs at most `limit` steps of a program of at most 4096 slots, for an app of this shape.
    // open: which replies the counters give.
    pub fn run<C: CellSteps>(
        &mut self,
        code: &[Option<Insn>],
        shape: &Shape,
        cells: &C,
        pass: &mut C::Pass,
        limit: u64,
    ) -> RunEnd
        requires short { length code.now ≤ 4096 }
        requires count { (state_of self.old).count + limit < 2 ^ 64 }
        requires belongs { C.belongs cells.now pass.old }
        ensures run { let p = shaped code.now shape.now in
            (es : List CellEvent) × IsRun p (state_of self.old) es limit result (state_of self.new)
            × GrewBy C.grew pass.old es pass.new }
        ensures belongs { C.belongs cells.now pass.new }
    {
        growth::<C>();
        counts_instructions();
        for _done in 0..limit {
            match self.step(code, shape, cells, pass) {
                Observed::Done(choice) => return RunEnd::Choice(choice),
                Observed::Trap => return RunEnd::Trap,
                _ => {}
            }
        }
        RunEnd::Unfinished
    }
}
