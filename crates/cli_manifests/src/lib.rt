//! The commands on manifests that need no server: `check` and `simulate`.
//!
//! See docs/PROGRAM.md, "check"; docs/PROGRAM.md, "simulate".
#![tactic(auto)]

// How they work. `check` reads each manifest and loads it over no arrays. It prints what the
// manifest declares and its warnings, or where and why it is refused, and returns whether all pass.
// `simulate` evaluates the ruleset of a manifest for the clients in all buckets, and prints how
// many get which release, for all apps or one.

mod check;
mod check_json;
mod check_lines;
mod check_objects;
mod checks;
mod client_line;
mod manifest_tool_fault;
mod progress_lines;
mod simulating;
mod simulation_options;
mod simulation_output;

pub use check_lines::push_digest;
pub use checks::{CheckOutput, check_files};
pub use manifest_tool_fault::ManifestToolFault;
pub use simulating::simulate_files;
pub use simulation_options::SimulationOptions;
pub use simulation_output::SimulationOutput;
