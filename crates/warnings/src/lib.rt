//! Warnings about what a manifest may say but probably doesn't intend.
//!
//! See docs/PROGRAM.md, "check".
#![tactic(auto)]

// How a rule is evaluated. Two things are known of an app: its bucket, one of 10,000, and where its
// version lies. Take two versions that a rule names, with none named between them: all versions
// between them have the same results in its tests. So the rule is evaluated at each named version,
// just above each, and at the lowest version (`spot.rt`).
//
// Evaluation is three-valued: a condition may hold, may fail, or both (`condition.rt`). A test of
// version or bucket is decided, and a test of a day is bounded by the range of days. Other
// attributes are open, and so is whether a counter grants (`holding.rt`). So a rule may continue
// after a statement, or end with it (`course.rt`). There is a warning if it never does, in any
// bucket at any version (`whens.rt`, `given.rt`). For these, the rule is walked once for each
// bucket and spot. The walk marks the statements that are reached, and those that may end the rule
// (`marks.rt`).
//
// A client that has a release may be offered it again, or a lower one. That is evaluated for one
// client at a time, with each counter replying 0, so each test is decided (`evaluating.rt`). One
// client sends only its version. For each `when` that requires more (`wanted.rt`), another one
// sends that, too (`client.rt`, `getting.rt`).
//
// A bucket test whose number is probably too small or too large is found by reading the rule,
// without evaluating it (`parts.rt`). So are an early day, a cohort that no reply has, and a take
// before the test of the version (`takes.rt`).
//
// A warning is a place and a kind (`warning.rt`), so that a pipeline can allow some by name and
// count the others. Its line is made of both (`warning_lines.rt`).
//
// Law (`laws.rt`): warnings on a rule are true for all clients. No run does what a warning denies,
// and some run does what a warning says may happen. No law covers the warnings on a take, a day or
// a cohort.

mod appid;
mod budget;
mod client;
mod condition;
mod course;
mod evaluating;
mod getting;
mod given;
mod holding;
mod laws;
mod marks;
mod parts;
mod possible;
mod release;
mod rule_warnings;
mod spot;
mod takes;
mod wanted;
mod warning;
mod warning_lines;
mod warning_names;
mod whens;

pub use appid::push_appid_warning;
pub use evaluating::EvaluatedRule;
pub use laws::{warnings_are_named, warnings_sound};
pub use release::push_release_warnings;
pub use rule_warnings::push_rule_warnings;
pub use warning::{Warning, WarningKind, WarningPlace, warn_if};
pub use warning_lines::{push_warning_text, push_warnings};
pub use warning_names::{is_warning_name, some_counts};
