//! The words of `rollout`, and the command that they make.
//!
//! See docs/PROGRAM.md, "Status".
#![tactic(auto)]

// How words are read. `environment` adds options of the environment. `command_rows` is the table of
// the commands. By it `cli_base` has `clap` parse the words, or find their first fault.
// `words` makes a command of the parsed texts.

mod brake_rows;
mod brake_words;
mod environment;
mod program_rows;
mod program_words;
mod request;
mod rows;
mod server_rows;
mod server_words;
mod task;
mod verb;
mod words;

pub use environment::words_of;
pub use request::{Command, ServeArgs, ServePlan};
pub use rows::command_rows;
pub use task::Task;
pub use words::read_words;
