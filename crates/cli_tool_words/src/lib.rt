//! The words of `rollout-tools`, and the command that they make; and the completions of shells.
//!
//! See docs/PROGRAM.md, "Status".
#![tactic(auto)]

// How words are read. `environment` adds the operator's port of the environment. `tool_rows` is the
// table of the eleven commands, by which `cli_base` has `clap` parse the words, or find their
// first fault. Of the texts that it finds, `words` makes a command. It reads the texts of
// `--allow`, `--cells`, `--since` and `--until`, those of `stage`, and a shell's name, which the
// grammar doesn't check. It has `cli_base` read those of moments and days, and those that
// `rollout` also has.

mod args;
mod ask_words;
mod buckets;
mod check_words;
mod completion_words;
mod completions;
mod diff_words;
mod environment;
mod manifest_rows;
mod program_rows;
mod program_words;
mod report_words;
mod rows;
mod simulate_words;
mod stage_words;
mod verb;
mod why_words;
mod words;

pub use args::{
    AskArgs, CheckArgs, DiffArgs, ReportArgs, Shell, SimulateArgs, StageArgs, ToolCommand, WhyArgs,
};
pub use completions::completion_text;
pub use environment::words_of;
pub use rows::tool_rows;
pub use words::read_tool_words;
