//! The first of the two checks before a program may run. `Flow::check` reads bytes as a program,
//! and accepts it if every edge of its control flow graph leads forward onto an instruction and
//! every instruction is reached.
//!
//! See docs/SPECIFICATION.md, "The graph"; docs/PROGRAM.md, "Refusals".
#![tactic(auto)]

mod edges;
mod flow;
mod flow_fault;
mod laws;
mod reach;
mod read;
mod slots;

pub use edges::{jump_target, next_place};
pub use flow::Flow;
pub use flow_fault::{FlowFault, FlowRule};
pub use laws::one_verdict;
pub use read::{MOST_PROGRAM, read_program};
pub use slots::{is_wide, laid_out};
