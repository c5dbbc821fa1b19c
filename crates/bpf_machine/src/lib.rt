//! The machine that runs accepted programs (RFC 9669): plain words and bytes, without marks of what
//! is set, without traps, and without work beyond the step's own.
//!
//! `perform` computes the next state of one instruction from the words, and `carry_out` executes
//! it, with the counter that it uses. Both are proved against the semantics without mentioning the
//! verifier: if the step of the semantics is a trap, nothing is promised and nothing is tested. A
//! `Run` holds a program that the verifier accepted, and represents at least one state that the
//! verifier covers; so no step of a run is a trap.
//!
//! See docs/SPECIFICATION.md, "The machine".
#![tactic(auto)]

mod access;
mod advance;
mod calls;
mod counters;
mod jumps;
mod memory;
mod next;
mod perform;
mod progress;
mod run;
mod whole;
mod words;

pub use progress::{Choice, Progress};
pub use run::Run;
