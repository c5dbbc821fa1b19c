//! The tests of a rule, one by one: whether one holds for an app, which value it read, and its
//! text. Also the walk over a condition, for any values of its tests.
//!
//! See docs/RULES.md.
#![tactic(auto)]

// It is for tools that evaluate a rule test by test, without running its program. What a test reads
// and whether it holds is the meaning of rules itself (`rule_lang/specs/Meaning.antt`). The
// contract of the walk says that a value is the one of the condition's tree, by the definition that
// the caller has of it. The only other definitions here are those of the texts.
//
// A take holds by its cell's reply. The caller passes that reply, and updates the cell itself.

mod comparing;
mod folding;
mod holding;
mod test_text;
mod words;

pub use comparing::{allows, compare_versions, compares_so};
pub use folding::{ConditionFold, fold};
pub use holding::{bucket_tested, quota_named, test_holds};
pub use test_text::push_test;
pub use words::push_numbers;
