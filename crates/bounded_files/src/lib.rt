//! Files of bounded length, of any kind or only regular ones.
//!
//! See docs/SPECIFICATION.md, "Manifests".
#![tactic(auto)]

// A file is read to one byte past its limit, which shows whether it is longer, and takes no more
// memory. A path that must lead to a regular file is checked before it is opened, so that no call
// waits for the writer of a FIFO (`regular_file.rt`). Files are read through a trait, so that files
// in memory can replace those of a device; for files in memory the contracts say which bytes were
// read. A written file replaces the old one as a whole, if the folder allows it
// (`atomic_write.rt`).
//
// For a file that may be longer than needed, only the first bytes are kept, its length, and whether
// it is text to its end (`kept_bytes.rt`). It is read in pieces. Between pieces only the few bytes
// of an incomplete character are kept (`utf8_text.rt`).

mod atomic_write;
mod device;
mod disk;
mod file_fault;
mod kept_bytes;
mod regular_file;
mod resource_fault;
mod utf8_text;
mod written;

pub use atomic_write::{IfDenied, remove_file, replace_file};
pub use device::Device;
pub use disk::{Disk, MOST_BYTES, read_regular_within, read_within};
pub use file_fault::FileFault;
pub use kept_bytes::{KeptBytes, keep_read};
pub use regular_file::{Links, read_file};
pub use resource_fault::ResourceFault;
pub use written::{may_write_over, write_file};
