//! The command `stage`: an app of a folder's manifest is halted or raised, or another manifest is
//! put in place; the last of these steps is undone; and the servers load what is in place.
//!
//! See docs/OPERATING.md.
#![tactic(auto)]

// How it works. A halt is sent to the servers before the folder is opened, and the folder is locked
// (`locking.rt`). An action but a halt stops if a server says that it serves neither what is in
// place nor what the last step left, nor for `back` what the step before it left (`stage_servers`).
//
// The manifest in place is gathered like a load's. What is to be replaced is planned first, and
// nothing is changed meanwhile: the file that halts an app (`app_halts.rt`), a rule with another
// number (`raises.rt`), the one from before a halt (`resumes.rt`), the files of another manifest
// (`puts.rt`). All but a halt are compared with what the servers serve (`comparison.rt`,
// `served_rows.rt`), and the rules of a raise, a resume and a put are warned of as `check` does
// (`warned.rt`). The plan is a step, which is recorded and then performed (`taking.rt`), or for
// `back` one that is undone (`undoing.rt`).
//
// Then each server loads the manifest (`stage_servers`), but one that is spared; also if nothing
// had to be replaced.
//
// The contracts are about the files of the folder, which are known for a folder in memory. No
// contract says what is printed, or what a server does.

mod actions;
mod app_file;
mod app_halts;
mod backs;
mod changes;
mod comparison;
mod counters;
mod folder_opening;
mod gathered;
mod judged;
mod laws;
mod lifting;
mod locking;
mod next_rows;
mod present;
mod put_files;
mod puts;
mod raises;
mod release_halts;
mod restored;
mod resume_rows;
mod resumed_file;
mod resumes;
mod served_rows;
mod step_stops;
mod steps;
mod stop_texts;
mod taking;
mod undoing;
mod unlisted;
mod warned;

pub use actions::stage_in;
pub use folder_opening::stage;
pub use laws::stopped_is_undoable;
pub use stage_servers::{StageOptions, StageOutcome};
