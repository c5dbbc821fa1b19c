//! What `stage` says of a rule and of its steps: what each statement offers, and what a step did,
//! when, by whom, why, and what became of it.
//!
//! See docs/OPERATING.md.
#![tactic(auto)]

mod rule_offers;
mod shares;
mod step_lines;
mod step_states;

pub use rule_offers::{RuleText, rule_lines, rule_text};
pub use step_lines::{now_of, push_action, push_since, push_step, time_of};
pub use step_states::{StepState, step_state};
