//! A server with its operator's port, from a manifest's path to its end.
//!
//! A server begins with halted apps and counters: none, or those that an earlier one left. A ready
//! server has its ruleset, loaded over their arrays, and its ports. A staffed server has all that
//! it serves with. The operator has the publisher and the directory, and each worker has a watcher.
//! All have passes, which are ghost tokens, to cells that they share without a lock. So whatever
//! can fail does so before a server prints that it serves, which it does once its threads also
//! exist (`workers`).
//!
//! See docs/SPECIFICATION.md, "The server".
#![tactic(auto)]

mod ended;
mod kept_workers;
mod last_values;
mod manifests;
mod new_staff;
mod server;
mod serving_fault;
mod staffed;
mod stored;
mod storing;
mod worker_list;

pub use manifests::Manifests;
pub use new_staff::staff;
pub use server::{Server, prepare};
pub use serving_fault::ServingFault;
pub use staffed::StaffedServer;
