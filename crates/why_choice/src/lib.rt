//! Reasons: why a rule chooses what it chooses, test by test, on counters with given values.
//!
//! See docs/PROGRAM.md, "ask".
#![tactic(auto)]

// How a condition is evaluated. Its tests are reported from left to right until it is decided, as
// its meaning evaluates them (`specs/Reading.antt`). Its steps are in post-fix order, and nothing
// here recurses, however deep and long a condition is. So `fold` of `rule_eval` evaluates the steps
// in order: the second part of an `and` is evaluated before the `and` appears. If that part turns
// out not to count, its text is dropped, and what its takes added is undone. For this a part keeps
// the cells that it took from, with their previous values.
//
// Laws of the definitions (`laws.rt`): each reported truth is that of its test; the rule chooses by
// the last line; a client's text, which is quoted, has no quote and no control inside.

mod condition;
mod counters;
mod found;
mod laws;
mod part;
mod quoted;
mod rule_lines;
mod rule_report;

pub use laws::{
    conditions_sound, endings_are_meant, last_line_chooses, quotes_end_texts, truths_sound,
    whens_decide,
};
pub use quoted::push_quoted;
pub use rule_report::explain_rule;
