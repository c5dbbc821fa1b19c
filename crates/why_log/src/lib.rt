//! Why a machine got what it got, by the lines of a server's log: the newest requests of the
//! machine, each explained by a manifest from the facts that its line has.
#![tactic(auto)]

// How it works. A log is read in blocks, and of the machine's lines the newest are kept. Each kept
// line is read again as a request: its moment, and for each app the facts that the line has. The
// apps are then explained as `ask --why` explains those of a body, on counters with given values.
// The bucket is the line's, whether a cohort named it or not. A fact that no line has isn't
// guessed: it counts as absent, and the explanation names it.

mod app_notes;
mod explained_apps;
mod explained_line;
mod explanation;
mod finding;
mod line_app;
mod line_head;
mod line_request;
mod log_files;
mod log_reading;
mod machine;
mod served;

pub use explanation::explain_found;
pub use finding::FoundLines;
pub use log_files::find_lines;
pub use machine::Machine;
