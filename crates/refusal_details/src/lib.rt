//! The second line of a refusal: why the command's file or port is refused.
//!
//! See docs/PROGRAM.md, "Refusals".
#![tactic(auto)]

// A fault has no path, port or reason of the system. So once a command is refused, what its words
// name is looked at again. Nothing is created, changed or removed. If the cause is gone by then,
// no second line is printed. Each function returns whether it printed one.

mod files;
mod manifests;
mod ports;
mod programs;

pub use files::{print_read_fault, print_write_fault};
pub use manifests::{
    manifest_at, print_cause, print_check_hint, print_load_hint, print_unread_manifest,
};
pub use ports::{print_bind_fault, print_connect_fault};
pub use programs::print_program_fault;
