//! A dry run of one request: the reply that a server would send, without a server, and why its apps
//! get what they get.
#![tactic(auto)]

// How it works. A manifest is loaded like a server's first one, and a body is read. Counters are 0,
// except for the given cells. Then the apps are answered by a server's own functions, on counters
// of one thread. A law of the definitions (`sends_what_is_found`): this is what a server sends if
// its counters have these values and no other run comes between.
//
// Why an app gets what it gets is explained app by app, on counters with the same values. If an app
// has a rule, the rule is evaluated instead of running the program. The program was compiled from
// exactly this rule, so it has its meaning, and on counters with given values a run has one course.
// If a program isn't a rule's, it is run step by step, like `trace`, but on these counters.
// The manifest and its files are gathered once, and each app is judged with its rule
// (`why_files.rt`).

mod app_lines;
mod app_runs;
mod counters;
mod dry_run_fault;
mod explained_app;
mod files;
mod laws;
mod notes;
mod on_counters;
mod reply;
mod wanted;
mod why;
mod why_files;

pub use app_lines::{no_request_app, unknown_app};
pub use dry_run_fault::DryRunFault;
pub use explained_app::{AppReasons, app_reasons};
pub use files::{OpenedFiles, open_files};
pub use laws::{
    explains_reply, notes_sound, opens_the_same, refuses_alike, reply_unique, sends_replies,
    sends_what_is_found,
};
pub use on_counters::{assigned_counters, reply_on_counters};
pub use why::why_on_counters;
pub use why_files::{OpenedWhy, meant_app, open_meant, open_why};
