//! Counters with their values, as texts: `early[0]=283` on a command line, or `early[0] 283` in
//! replies.
#![tactic(auto)]

mod assignment;
mod cell_lines;

pub use assignment::CellAssignment;
pub use cell_lines::read_assignments;
