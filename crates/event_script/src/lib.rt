//! Scripts of events, line by line.
//!
//! A script has a line for each event, in the order in which they are played:
//!
//! ```text
//! # A worker starts a run for the app x, in bucket 4999, with no version.
//! start 0 x 4999 -
//! # It does one instruction, then three (1 to 4097 at once), and gives its choice.
//! step 0
//! step 0 3
//! finish 0
//! # The rest of the line is the path of a manifest.
//! swap next.toml
//! ```
//!
//! The fields of a line are separated by one blank, and none is empty. Numbers are decimal digits;
//! a worker's is at most 4294967295, a bucket's 9999. Lines end with LF, or with CR LF.
//!
//! See docs/PROGRAM.md, "replay".
#![tactic(auto)]

mod number;
mod script;
mod script_fault;
mod script_line;

pub use script::read_script;
pub use script_fault::ScriptFault;
pub use script_line::EventLine;
