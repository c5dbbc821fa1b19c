//! The observable result of a step, and of a run.

use cells::CellEvent;

/// The run continues, continues with an event on a counter, ends with a choice, or has an undefined
/// step.
#[derive(Clone, Copy, PartialEq, Eq)]
pub enum Observed {
    Going,
    Event(CellEvent),
    Done(u64),
    Trap,
}

/// The result of a run with a limit of steps: a choice, an undefined step, or no end yet.
#[derive(Clone, Copy, PartialEq, Eq)]
pub enum RunEnd {
    Choice(u64),
    Trap,
    Unfinished,
}
