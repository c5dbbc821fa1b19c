//! An operator's requests to a server, and the lines that spell them.
//!
//! The command line makes a request from its words, and a server's operator's port reads one from
//! the line that it is sent. Both have one type, so that what is sent is what is read.
//!
//! See docs/SPECIFICATION.md, "The operator's port".
#![tactic(auto)]

mod request;

pub use request::{LINE_LIMIT, OperatorRequest};
