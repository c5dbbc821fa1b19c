//! What a changed rule changes: rows of machines and states that get another release by it.
//!
//! docs/RULES.md describes rules.
#![tactic(auto)]

// A dimension is cut into segments. Both rules are run with the segments of some dimensions known
// (`plan_run.rt`). A run makes a choice, or it needs the segment of one more dimension. Then the
// search continues for each segment of that dimension (`splitting.rt`). So each machine in each
// state is in a class, and gets what the class says.
//
// Classes are merged into rows (`differing_rows.rt`), of which nothing is proved. The rows are then
// checked against the classes (`checking.rt`). All that is promised of rows follows from this.

mod checking;
mod classes;
mod condition;
mod contents;
mod diff;
mod differing_rows;
mod laws;
mod plan_run;
mod possible;
mod row;
mod splitting;
mod truth;

pub use contents::{ContentNumbers, contents_of};
pub use diff::{Diff, MOST_STEPS, compare};
pub use laws::runs_are_in_states;
pub use row::{DiffRow, SegmentSet};
