//! Shared counters of which a file keeps the quotas: a reply may be sent once the ceiling of each
//! of its places is above it.
//!
//! See docs/SPECIFICATION.md, "Counters".
#![tactic(auto)]

// A place of a quota is taken by an addition of 1, whose reply is the place's ticket. A pass notes
// a number above each ticket. Before a reply is sent, the cover looks at the ceilings of the store.
// If one is too low it wants it to be raised, and looks again until it is. But a ticket past the
// cell's limit isn't a place, and needs no ceiling: the limit is looked at only if the ceiling is
// too low. The receipt is a reader of ceilings and limits, which knows that the tickets are so.
//
// In contracts a pass is the shared pass within it. What it has noted is hidden: each ticket since
// the last mark is below the number of its cell.
//
// What workers want goes through plain atomic numbers, of which nothing is known. Nothing has to
// be: any number may be stored, and the store raises a ceiling only as far as its file allows.

mod kept;
mod kept_cells;
mod kept_pass;
mod store_cover;
mod ticket_notes;
mod wanted;

pub use kept::Kept;
pub use kept_cells::KeptCells;
pub use kept_pass::KeptPass;
pub use store_cover::StoreCover;
