//! What the two programs share: the grammar of a table of commands, the values of their arguments,
//! and what a command prints if its words are wrong or its request is refused.
//!
//! See docs/PROGRAM.md, "Status".
#![tactic(auto)]

// How words are read. A program has a table of commands, a row each. `read_matches` describes the
// table to `clap`, which parses the words by it, or finds their first fault. The program finds the
// command by its name, and reads its arguments. It reads the texts of `--arrays`, `--attr`,
// `--today`, `--installed` and `--at`, which the grammar doesn't check.

mod app_args;
mod app_options;
mod argument;
mod argument_fault;
mod date;
mod day;
mod declared_shape;
mod grammar;
mod help;
mod matches;
mod row;
mod run_args;
mod second;
mod shared_arguments;
mod status;
mod values;
mod verbose;
mod words_fault;

pub use app_args::AppArgs;
pub use app_options::read_app;
pub use argument::{CommandArgument, NumberLimits};
pub use argument_fault::{ArgsError, ArgumentFault};
pub use declared_shape::DeclaredShape;
pub use matches::read_matches;
pub use row::{CommandRow, command_found};
pub use run_args::{RunArgs, read_run};
pub use second::{from_of, second_of};
pub use shared_arguments::{
    ARRAYS, AT, ATTR, BUCKET, BYTES, EVENT, INSTALLED, MANIFEST, OPERATOR, PING, PORTS, PROGRAM,
    RELEASES, TODAY, VERBOSE, VERSION,
};
pub use status::{print_lines, print_output, print_refusal, refused, unreadable_words, usage};
pub use values::{
    flag_of, is_text, number_of, optional_number, optional_text, shape_of, text_of, texts_of,
};
pub use verbose::is_verbose;
pub use words_fault::WordsFault;
