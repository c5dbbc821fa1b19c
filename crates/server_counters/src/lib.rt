//! The counters and halted apps with which a server opens, and which it leaves, and their file.
//!
//! See docs/SPECIFICATION.md, "Counters".
#![tactic(auto)]

// One server at a time has a file of counters (`counters_file`). Before a server is made, its file
// is locked and read. If another server has the file, it is only read, and the server that is ready
// waits for it. Before anything is served, the file is written once, and says from then on that it
// is served; so a folder that can't be written is found in time. After the server's end it is
// written a last time, and says that its server was stopped.

mod counters;
mod opening;
mod own_file;
mod storing;
mod waiting;

pub use counters::Counters;
pub use opening::{OpeningCounters, open_file};
pub use own_file::{FoundFile, OwnCounters, OwnFile};
pub use storing::{store_of, write_last};
pub use waiting::opened_within;
