//! The devices that requests come from and replies go to: readers and writers, before a protocol is
//! read.
//!
//! `Counted` counts the failures of any reader or writer, so that an error that blames the device
//! can be checked against the count. `Timed` is a connection with a deadline: a read or write that
//! isn't ready waits for the time that is left. So a client that sends a byte now and then is
//! dropped like a silent one. `FailAt` is for tests.
//!
//! See docs/SPECIFICATION.md, "The front".
#![tactic(auto)]

mod counted;
mod fail_at;
mod timed;

pub use counted::{Counted, Failed, WriteFault};
pub use fail_at::FailAt;
pub use timed::{Timed, drain, take_rest};
