//! What a server says, as text: its counters, and for Prometheus also whether it replies, what it
//! serves and which apps it halts.
#![tactic(auto)]

mod gauges;
mod texts;

pub use texts::server_text;
