//! The comparison of two manifests, and what the command `diff` prints. For each app it gives rows
//! of machines and states that get another release, or says that the app is the same, or that it
//! isn't compared.
//!
//! See docs/PROGRAM.md, "diff".
#![tactic(auto)]

// How it works. Each manifest is opened like a server's first one (`opened.rt`). An app with a rule
// is a side of a comparison by rows (`sides.rt`); a manifest that lacks the app is a side that
// offers nothing. An app with two equal sides, or two equal programs, is the same without a search
// (`same.rt`). Everything else with a program isn't compared.
//
// What is promised of rows is proved in `diff_rules`. Here the law `diff_sound` says it of apps: a
// machine that is in no row of an app compared by rows gets the same from both manifests.

mod app_diff;
mod apps;
mod arrays;
mod comparing;
mod counters;
mod diff_fault;
mod laws;
mod lines;
mod objects;
mod opened;
mod outcome;
mod output;
mod same;
mod sides;

pub use app_diff::AppDiff;
pub use diff_fault::DiffFault;
pub use laws::diff_sound;
pub use opened::{OpenedBoth, open_both};
pub use outcome::{AppChange, AppOutcome, WhyNot};
pub use output::{DiffOptions, DiffOutput, diff_manifests};
