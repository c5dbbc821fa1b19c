//! The seat of a worker: empty, or with a run. The contracts say what a step and a finish do to
//! every worker that the seat represents.

ghost use Rattle.std.specs.Prelude.{◌≡◌, IfErr, IsTrue, IsFalse};

use crate::event::{Effect, WorldFault};
use bpf_machine::{Choice, Progress, Run};
use cells::{PlainCells, PlainPass};

/// A seat. Its run started under the ruleset `number`, and has a choice once it has ended.
#[derive(Drop)]
pub enum Seat {
    Empty,
    Taken {
        run: Run,
        number: usize,
        choice: Option<Choice>,
    },
}

impl Seat {
    ghost use Rattle.world.specs.World.{Worker, IsIdle};
    ghost use Rattle.world.specs.Seats.{SeatRepresents, IsSoundSeat, StaysOffered};
    ghost use Rattle.world.specs.Seats.{SeatSteps, SeatFinishes, SeatReturns};

    /// Whether it has a run, even one that has ended.
    pub fn is_taken(&self) -> bool
        ensures taken { IsTrue result → (x : Worker) → SeatRepresents self.now x → ¬ IsIdle x }
        ensures empty { IsFalse result → self.now ≡ Seat.Empty }
    {
        match self {
            Seat::Empty => false,
            Seat::Taken { .. } => true,
        }
    }

    /// One instruction, with the reply of a counter if it accesses one. Returns E3 if the seat is
    /// empty or its run has ended.
    pub fn step(&mut self, cells: &PlainCells, pass: &mut PlainPass) -> Result<Effect, WorldFault>
        requires { IsSoundSeat self.old }
        ensures same { IfErr result (λ e. self.new ≡ self.old) }
        ensures untouched { IfErr result (λ e. pass.new ≡ pass.old) }
        ensures steps { SeatSteps pass.old self.old result pass.new self.new }
        ensures is_sound { IsSoundSeat self.new }
        ensures offered { StaysOffered self.old self.new }
    {
        match self {
            Seat::Taken {
                run,
                choice: choice @ None,
                ..
            } => {
                run.invariant_law();
                match run.step(cells, pass) {
                    Progress::Going => {
                        run.invariant_law();
                        Ok(Effect::Stepped)
                    }
                    Progress::Done(chosen) => {
                        *choice = Some(chosen);
                        Ok(Effect::Ended { choice: chosen })
                    }
                }
            }
            _ => Err(WorldFault::Idle),
        }
    }

    /// Returns the choice of a run that has ended, and leaves the seat empty. Returns E3 if it was
    /// empty, and E5 if the run hasn't ended.
    pub fn finish(&mut self) -> Result<Effect, WorldFault>
        requires { IsSoundSeat self.old }
        ensures same { IfErr result (λ e. self.new ≡ self.old) }
        ensures finishes { SeatFinishes self.old result self.new }
        ensures is_sound { IsSoundSeat self.new }
        ensures offered { StaysOffered self.old self.new }
    {
        let finished = self.finished()?;
        *self = Seat::Empty;
        Ok(finished)
    }

    // The result of a finish.
    fn finished(&self) -> Result<Effect, WorldFault>
        requires { IsSoundSeat self.now }
        ensures { SeatReturns self.now result }
    {
        match self {
            Seat::Empty => Err(WorldFault::Idle),
            Seat::Taken { choice: None, .. } => Err(WorldFault::NotDone),
            Seat::Taken {
                run,
                number,
                choice: Some(choice),
            } => {
                run.invariant_law();
                Ok(Effect::Finished {
                    choice: *choice,
                    instructions: run.count() + 1,
                    ruleset: *number,
                })
            }
        }
    }
}
