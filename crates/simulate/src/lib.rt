//! Simulation: what a ruleset chooses for a client in each bucket, and how many get which release.
//! Both are reported as tables of text, as JSON and as a picture.
//!
//! See docs/PROGRAM.md, "simulate".
#![tactic(auto)]

// How it works. App after app, in the ruleset's order, the program is run once for each of the
// 10000 buckets, in order. The client keeps the cohort that a server gave it (`b:NNNN`). All runs
// are on the same counters, which are 0 before the first. So the choices are those of one legal
// history, run after run.
//
// A simulation is kept with its ruleset, so the releases of an app are available with the choices
// of its buckets. The members of the JSON are defined. Rows compare the tables and the picture,
// whose counts are those of `count_buckets` and `count_moves`.

mod bucket_square;
mod choices;
mod client;
mod counts;
mod course;
mod labels;
mod legends;
mod lost;
mod move_objects;
mod moves;
mod objects;
mod picturing;
mod runs;
mod share_objects;
mod shares;
mod simulated;

pub use choices::Choices;
pub use client::Client;
pub use counts::{count_buckets, count_moves};
pub use course::{Onlooker, simulate};
pub use lost::is_lossy;
pub use moves::push_moves;
pub use objects::{moves_json, shares_json};
pub use picturing::draw;
pub use shares::push_shares;
pub use simulated::Simulated;
