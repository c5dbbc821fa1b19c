//! Which replies may be sent: those of which each counter's place is stored, so that a crash can't
//! give it to another client.
//!
//! See docs/SPECIFICATION.md, "Counters".
#![tactic(auto)]

mod cover;
mod uncovered;

pub use cover::Cover;
pub use uncovered::Uncovered;
