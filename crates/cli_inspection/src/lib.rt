//! The commands that show what a program does: `explain`, `trace` and `order`.
//!
//! See docs/PROGRAM.md, "explain"; docs/PROGRAM.md, "trace"; docs/C.md, "In order".
#![tactic(auto)]

// How they work. The file is read as by `cli_programs`, with whose faults these commands are
// refused. `explain` lists the program with what is known before each instruction, also if a rule
// refuses it. `trace` runs an accepted program, and prints a line for each instruction. `order`
// needs no shape: it writes the program's blocks in order.

mod explanation;
mod order;
mod tracing;

pub use explanation::{ExplainedProgram, RefusedProgram, explain_file};
pub use order::order_file;
pub use tracing::trace_file;
