//! The commands of the program `rollout`, from the words of a command line to a status, over any
//! files that are read and any two writers.
//!
//! See docs/PROGRAM.md, "Status".
#![tactic(auto)]

// How a command runs. `cli_words` makes a command of its words; if it can't, what is wrong with
// them is printed. `cli_tasks` does any command but `serve`. For `serve` a server is made ready,
// with the file of its counters if one is named. It prints that it serves, and serves until it is
// stopped. Then the file gets the counters that it leaves. The status says whether all this was
// done.

mod details;
mod logged;
mod ready;
mod serve;
mod serve_fault;
mod status;

pub use bounded_files::{Device, Disk};
pub use server_log::LogOutput;
pub use status::command;
