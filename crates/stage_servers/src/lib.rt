//! What `stage` finds and has done at the servers of a folder: what each serves, its halts and its
//! loads; and what it prints of the folder: the status and the history.
//!
//! See docs/OPERATING.md.
#![tactic(auto)]

// How it works. A halt is sent to the servers before a file is read (`server_halts.rt`). Each
// server's state is compared with the recorded steps (`surveying.rt`), by the digest of what a step
// left (`earlier_files.rt`). An action but a halt stops if a server says that it serves neither
// what is in place nor what the last step left, nor for `back` what the step before it left
// (`drift.rt`). It also stops at an edited file, if it looks at the files (`edits.rt`). Once the
// files are changed, each server loads the manifest (`loads.rt`), but one that is spared
// (`spared_servers.rt`). Then it offers those apps again (`halt_ends.rt`) which these files surely
// offer (`lifted_halts.rt`): of a resume its own, of a put and `back` with `--anyway` those whose
// recorded halts were in force before; and after a halt of one release its app. Its reply to the
// load is noted (`load_notes.rt`), by which a status knows what an older server serves
// (`servers.rt`).
//
// A server's replies are its own. What is known of files is what `load` gathers.

mod action_kinds;
mod app_status;
mod collected;
mod comparing;
mod digest_line;
mod drift;
mod earlier_files;
mod edit_texts;
mod edits;
mod gathered;
mod halt_advice;
mod halt_ends;
mod halted_app;
mod halts_in_force;
mod history;
mod lifted_halts;
mod load_notes;
mod loads;
mod log_digest;
mod options;
mod outcome;
mod place;
mod quota_lines;
mod recorded;
mod refusals;
mod release_status;
mod removed_apps;
mod replaced_files;
mod served;
mod server_halts;
mod server_loads;
mod server_state;
mod servers;
mod serves;
mod spared_servers;
mod status;
mod surveying;

pub use collected::{app_named, collected_at};
pub use drift::{push_serves, stop_if_drifted};
pub use earlier_files::{collected_as, collected_with, files_left};
pub use edits::stop_if_edited;
pub use gathered::{collected_now, precedes_files};
pub use halted_app::halted_appid;
pub use history::push_history;
pub use lifted_halts::{apps_halted, apps_lifted};
pub use loads::load_all;
pub use options::{StageCall, StageOptions};
pub use outcome::{Lines, StageOutcome, Stop};
pub use quota_lines::push_quotas;
pub use recorded::read_steps;
pub use refusals::{RECORDS, in_folder, no_manifest, refusal, refusal_of, refused};
pub use release_status::halted_release;
pub use replaced_files::{bytes_of, file_named, replaced_file, sources_with};
pub use server_halts::{halt_again, halt_at_servers};
pub use serves::{Serves, Surveyed};
pub use status::push_status;
pub use surveying::survey;
