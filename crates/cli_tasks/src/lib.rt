//! The commands of the program `rollout` that print their output and end: all but `serve`.
//!
//! See docs/PROGRAM.md, "Status".
#![tactic(auto)]

// A task works on a program or a script, or sends a request to a server's operator port. Its
// output is printed, or why it is refused. What only people read goes to standard error: a second
// line of a refusal, the apps that a load removed, and how long a halt lasts.

mod details;
mod halt_note;
mod output;
mod performing;
mod removed_apps;
mod replays;
mod requests;
mod task_fault;

pub use performing::perform;
