//! Replays: scripts of events, played in a world from the files of a script and its manifests.
//!
//! See docs/PROGRAM.md, "replay".
#![tactic(auto)]

// How a script is played from its files. All lines of the script are read first. Then the manifests
// are loaded: the first one, whose ruleset has number 1, and then those of the swap lines, in
// order. All are loaded into one directory, so arrays with the same name have the same counters.
// Lines that name one manifest share its ruleset, unless an array was declared between them
// (`shared.rt`).
// The first refused script or manifest ends the replay, and nothing is played. So each line has its
// event before any of them is played.
//
// Then the lines are played in a world of 64 workers, each by a call of `play`: with its event, or
// with as many Steps as it counts. Each continues in the world that the line before it left, so all
// of them are one run of the world. After a refused Step the others are also refused and change
// nothing, so the reply to a line depends on nothing after the first refusal.
//
// Files are read through a trait, so that files in memory can replace those of a device; for files
// in memory the contract says which replies or which refusal they give.

mod files;
mod line_events;
mod loaded;
mod played;
mod replay_fault;
mod reply;
mod shared;

pub use files::replay_files;
pub use replay_fault::ReplayFault;
pub use reply::Reply;
