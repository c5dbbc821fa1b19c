//! The check of a manifest, for the person who writes it: what an accepted one declares, and where
//! and why a refused one is wrong.
//!
//! See docs/PROGRAM.md, "check"; docs/PROGRAM.md, "Refusals".
#![tactic(auto)]

// How a manifest is checked. It is gathered over no arrays, like a server's first manifest: it is
// read once, its arrays are declared, and as much of each app's file is kept as judging takes. The
// fault is the load's own. With a fault of its bytes comes what they were parsed as, so they are
// never parsed again. This is either the error of the TOML reader, or the document, in which all
// other schema errors and duplicate names are found. All other faults have the number of an array
// or an app that was gathered. If the fault is in an app's file, the kept bytes show the line of
// the rule, or the instruction of the program, at which it is. The manifest may be somebody else's,
// so nothing is shown of a file that is outside its folder or reached through a symbolic link.
// After an app without a program the further apps are judged as well, and each without a program is
// reported. So are the arrays after one that can't be declared.
//
// The report is kept in parts (`CheckedManifest`, `Refused`), together with its lines.

mod accepted;
mod advice;
mod array_warnings;
mod checking;
mod duplicates;
mod file;
mod inside;
mod later_faults;
mod laws;
mod others;
mod reason;
mod refusal_report;
mod refused;
mod schema_errors;
mod shown;
mod undeclared;
mod warned;
mod warned_app;

pub use accepted::CheckedManifest;
pub use checking::{check, too_long};
pub use laws::{first_duplicate, first_schema_error};
pub use refused::{FaultReport, Refused};
