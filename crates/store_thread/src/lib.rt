//! The thread that stores a server's counters in their file, and the bell that wakes it.
//!
//! See docs/SPECIFICATION.md, "Counters".
#![tactic(auto)]

// The thread waits for its bell, or for a second. Then it adopts what is new of an operator's
// requests, commits what the workers want (`counter_store`), and once a minute what else has
// changed. If a commit fails, it waits for a while and tries again; the log says when that begins
// and ends.

mod bell;
mod news;
mod storing;

pub use bell::{StoreBell, shared_of};
pub use storing::{Storing, storing_of};
