//! The commands of the program `rollout-tools`, from the words of a command line to a status, over
//! any files that are read and any two writers.
//!
//! See docs/PROGRAM.md, "Status".
#![tactic(auto)]

// How a command runs. Its words are read as a command, or what is wrong with them is printed. The
// command is done by the crate that has it, on a program, on manifests, on logs, or for `ask` on
// the files of a dry run and a server's counters. Its output is printed, or its refusal. The status
// says whether all this was done, and for a check, a comparison or a simulation whether it passes.

mod details;
mod diffs;
mod dry_runs;
mod found_server;
mod logged_whys;
mod manifest_names;
mod output;
mod programs;
mod reports;
mod requests;
mod simulations;
mod stages;
mod status;
mod subject;
mod tool_fault;
mod whys;

pub use status::command;
