//! The page of a report: one file in HTML for an operator's browser, without scripts. It shows
//! first what is wrong and what to do, then each app with what it is offered, its versions and its
//! course, the steps, the loads, the requests, and the whole report.
//!
//! See docs/PROGRAM.md, "report".
#![tactic(auto)]

mod app_section;
mod band;
mod elements;
mod facts;
mod facts_line;
mod finding_text;
mod findings;
mod folder;
mod head;
mod log_age;
mod offer_section;
mod page;
mod request_section;
mod source;
mod step_section;
mod unexplained;

pub use facts::{LogsEnd, PageFacts};
pub use folder::{FolderDigests, FolderFacts, OfferedApp, OfferedQuota, TakenStep};
pub use head::PAGE_BEGINNING;
pub use page::page_text;
