//! All workers of a server, its rulesets and its counters, as one list of events.
//!
//! See docs/SPECIFICATION.md, "The world".
#![tactic(auto)]

// How it keeps its promise: docs/PROOF.md, section 5, "One event at a time" to "Safe worlds".

mod event;
mod laws;
mod run;
mod seat;
mod world;

pub use event::{Effect, Event, WorldFault};
pub use laws::{
    batches_compose, ends_in_time, finishes_its_run, one_course, rulesets_preserved, takes_its_step,
};
pub use run::play;
pub use world::World;
