//! The trace of a run: each step with its slot, its instruction and what it wrote; and the last
//! jump that the run took.
//!
//! See docs/PROGRAM.md, "trace".
#![tactic(auto)]

// The run is the definition's own: the interpreter that keeps track of what is set makes its steps,
// and after each step a line is written with what the state after it has. The program is accepted,
// so the machine defines every step. Counters are named like in `explain`.

mod changes;
mod counter;
mod jump;
mod step_line;
mod traced;

pub use jump::Jump;
pub use traced::{TracedRun, trace, trace_on};
