//! Counters that threads share without waiting for one another: 8192 atomic words, each changed by
//! single atomic steps, and one history of all that was done to them.
//!
//! See docs/SPECIFICATION.md, "Counters".
#![tactic(auto)]

// The method. The threads share a table of 8192 words (`atomic_table`), one for each cell, and
// nothing else: no lock, no queue. An operation on a cell is one atomic step on its word: it takes
// no lock, and this crate never retries it. The value of a 32-bit cell is the upper half of its
// word, and the lower half is 0. So a sum wraps there when the word does, and both widths have the
// same steps and the same proofs (`word.rt`, `specs/Words.antt`).
//
// A thread acts through a pass, which is a ghost token: at run time it has no bytes. In proofs it
// is a seat at the table that knows one account: the number of the pass, and the list of its
// events. A step changes the word and adds its event to the account of its own pass, at once; no
// other seat's account changes. This is all that a step's caller learns (`rule.rt`).
//
// The rule of the table (`specs/Rule.antt`, `HasHistory`) is true at every moment, whatever the
// threads did so far. There is a history, a list of events each with the number of its pass. It is
// legal: one thread could have made these events in this order on cells that were all 0, each with
// the reply that it got. That is a linearization, without real-time order. The words have the
// values after it. And each account at a seat is the history's list of its pass. A step keeps the
// rule by appending its event to the history. The word that it found has the value there, so its
// reply is right, and the word that it leaves has the next value. The order of the history is thus
// the order of the steps on the table. No thread reads this order, and it needn't be known: it
// exists.
//
// The passes are made by splitting the first seat, which knows an empty account for each pass
// (`opening.rt`), so over all seats there is one account of each pass. To close the cells, one seat
// takes over the accounts of all others (`closing.rt`). It then knows as many accounts as there are
// passes. So no other seat knows any, no pass is missing and none is a duplicate. The history of
// the rule has exactly the events of these passes, each once and in their order. Its last values
// are those in the words. A `Closed` still has, in proofs only, the cells and the passes that were
// closed; only `close` makes a `Closed`.
//
// The law of quotas follows (`specs/Quotas.antt`). To take one of a limited number of places, a
// thread adds 1 to a cell, and has a place if the reply is below the quota. Let Load and Add(1) be
// the only operations on a 64-bit cell, with fewer than 2^64 Adds in all. Then its value along the
// history is the number of Adds so far, and each Add has another reply, from 0 up. So exactly
// min(quota, Adds) replies are below the quota. Which Adds these are depends on the order, their
// number doesn't.
//
// What isn't said: that a Load returns what another thread stored a moment ago, and which of two
// threads comes first. A Load returns a value of the history, whose order only respects each pass's
// own.

mod closing;
mod laws;
mod looking;
mod opening;
mod pass;
mod rule;
mod shared;
mod shared_fault;
mod word;

pub use closing::Closed;
pub use laws::{loads_can_go, passes_gain_lists};
pub use pass::SharedPass;
pub use shared::SharedCells;
pub use shared_fault::SharedFault;
