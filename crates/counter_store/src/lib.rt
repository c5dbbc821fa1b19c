//! The store of a server's counters: it commits numbers above the places that the workers will
//! send, before they send them.
//!
//! See docs/SPECIFICATION.md, "Counters".
#![tactic(auto)]

// For each cell of a quota the file has a number, with which the next server opens it. The workers
// want numbers that are above their tickets (`kept_cells`). A commit writes the file with higher
// numbers, some places ahead of use. Only after that it raises the ceilings, by which replies go
// out. So at each moment a place that was sent is below its cell's number in the file, whichever
// commit a crash cuts off.
//
// The ledger (`ledger.rt`) keeps this as an invariant: each place below a ceiling that was ever
// raised is below the cell's number, and no limit is below the cell's quota. The ceiling of a cell
// that has no quota, or whose number has reached the quota, is 2^64 - 1, since no place is left to
// store.

mod counter_store;
mod laws;
mod ledger;
mod next_number;
mod places;

pub use counter_store::CounterStore;
pub use laws::places_are_stored;
