//! Counters that outlive a run: 8192 cells, the operations on them, and the arrays of cells that a
//! server declares by name.
//!
//! See docs/SPECIFICATION.md, "Counters".
#![tactic(auto)]

mod array;
mod cells_fault;
mod directory;
mod event;
mod laws;
mod plain;
mod shape;
mod steps;
mod widths;

pub use array::{ArrayName, ArrayNo, CellArray, CellWidth};
pub use cells_fault::CellsFault;
pub use directory::Directory;
pub use event::{CellEvent, CellNo, CellOp};
pub use laws::{arrays_lie_apart, arrays_preserved, declares_one_way};
pub use plain::{PlainCells, PlainPass};
pub use shape::Shape;
pub use steps::{CellSteps, growth};
pub use widths::events_fit;
