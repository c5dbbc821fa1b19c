//! The port of a server's operator.
//!
//! A connection sends one line: `load PATH`, `halt APPID`, `resume APPID`, `show`, `state`, `cells`
//! or `stop`. One owner has the publisher of rulesets, the last load, the halted apps, and the
//! directory of arrays. It does what is requested, and the lines of the reply are written. A load
//! makes a new directory with its ruleset, and the directory replaces the previous one only once
//! the ruleset is installed. So a refused load changes nothing.
//!
//! What is published is the last load, with the programs of the halted apps replaced by one that
//! always chooses none. A load leaves the same apps halted.
//!
//! The contract of `perform` is one relation, with a constructor for each outcome of a request. It
//! has the reply, the ruleset and arrays afterwards, and the events by which the cells were read.
//!
//! See docs/SPECIFICATION.md, "The operator's port".
#![tactic(auto)]

mod client;
mod connection;
mod control;
mod halting;
mod last_load;
mod laws;
mod loader;
mod performing;
mod reply;
mod reply_forms;
mod reply_lines;
mod request_line;
mod server_reply;
mod state_lines;

pub use client::{ask_server, stop_and_wait};
pub use connection::{answer, write_reply};
pub use control::Control;
pub use last_load::LastLoad;
pub use laws::{halts_hold, loads_monotone};
pub use loader::Loader;
pub use reply::{OperatorRefusal, OperatorReply};
pub use server_reply::RequestFault;
