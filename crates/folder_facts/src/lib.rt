//! What a folder of `stage` says for the page of a report: what each app of its manifest is
//! offered, and the last steps.
//!
//! See docs/PROGRAM.md, "report".
#![tactic(auto)]

mod apps;
mod digest;
mod facts;
mod left;
mod quotas;
mod steps;
mod unread;

pub use facts::{facts_in, folder_facts};
