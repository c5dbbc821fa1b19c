//! The machine's semantics, executable: an interpreter that marks each unset register and byte, and
//! returns a trap for an undefined step. It is slow and simple, and runs any program, accepted or
//! not; tests compare the fast machine with it.
//!
//! See docs/SPECIFICATION.md, "The machine".
#![tactic(auto)]

mod attempt;
mod calls;
mod counters;
mod memory;
mod observed;
mod perform;
mod run;
mod state;
mod step;

pub use observed::{Observed, RunEnd};
pub use state::Interpreter;
