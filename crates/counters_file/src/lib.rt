//! A file of counters: with which halted apps, arrays and values a server opens. It is text that an
//! operator reads, copies and edits.
//!
//! See docs/SPECIFICATION.md, "Counters".
#![tactic(auto)]

// The first line names the format, the second says whether the server that wrote it was stopped.
// Then come the halted apps, the one that was halted last first, the arrays, in the order of their
// declarations, and the counters that aren't 0. By the last line, `end`, a file that was cut short
// is damaged:
//
//     rollout counters 1
//     stopped
//     halted com.example.app
//     array early 64 1 1000
//     early 0 283
//     end
//
// What is read is what was written (`reads_back`). A file is replaced as a whole, so that a crash
// leaves the old one or the new one. Only one server at a time has it (`DeviceFile::lock`).

mod contents;
mod counters_fault;
mod counting;
mod device_file;
mod fields;
mod halted;
mod kept_file;
mod laws;
mod memory_file;
mod reading;
mod saved_counters;
mod store;

pub use contents::{Contents, Parts, ReadFault};
pub use counters_fault::CountersFault;
pub use device_file::{DeviceFile, owner_of};
pub use kept_file::KeptFile;
pub use laws::reads_back;
pub use memory_file::MemoryFile;
pub use reading::read_contents;
pub use saved_counters::file_text;
pub use store::{commit, read_counters, read_of_another};
