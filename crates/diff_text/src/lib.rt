//! Prints what a change of a rule changes: each row's condition in the words of rules, a table, and
//! objects of JSON.
//!
//! docs/RULES.md describes rules.
#![tactic(auto)]

// The condition of a row is made without a contract (`conjuncts.rt`). Then it is read back: the
// parser of rules reads the printed text (`read_back.rt`). Its steps are evaluated over tables that
// say for each segment of a dimension whether a part of the condition holds (`parts.rt`), and the
// tables are compared with the row (`matching.rt`). A row whose condition doesn't read back isn't
// shown, and then no row of its app is. So what is printed is what the parser reads.
//
// No rule tests how many takes a cell grants. For that a row has words, whose numbers are compared
// with the row in the same way (`grants.rt`).

mod condition;
mod conjuncts;
mod grants;
mod intervals;
mod kind;
mod left_ranges;
mod line_tests;
mod matching;
mod objects;
mod parts;
mod read_back;
mod row_lines;
mod showing;
mod shown;
mod sources;
mod steps;
mod test_texts;
mod truth_table;

pub use kind::RowKind;
pub use objects::row_objects;
pub use row_lines::push_rows;
pub use showing::app_rows;
pub use shown::{AppRows, ShownRelease, ShownRow};
