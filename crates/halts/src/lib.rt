//! Halted apps: the ruleset that a server serves while its operator halts some of its apps. The
//! program of each of these is replaced by one that always chooses none, and nothing else changes.
//!
//! See docs/SPECIFICATION.md, "The operator's port".
#![tactic(auto)]

mod halted_list;
mod halting;
mod laws;
mod none;

pub use halted_list::{is_halted, with_halted, without_halted};
pub use halting::served_rules;
pub use laws::halts_sound;
pub use none::none_program;
