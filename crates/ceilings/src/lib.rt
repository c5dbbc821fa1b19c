//! Ceilings of counters: numbers that one thread raises, and that the others look at without
//! waiting.
//!
//! See docs/SPECIFICATION.md, "Counters".
#![tactic(auto)]

// A ceiling is an atomic word for each counter, in a table that threads share (`atomic_table`). Its
// writer, which is one thread, raises it. A reader looks at it through a ghost token. In proofs a
// reader knows a list of raises, which is a prefix of all that the writer made; at run time a look
// is one load.
//
// The rule of the table (`specs/Rule.antt`, `HasLog`) is true at every moment: each ceiling is at
// most the greatest number to which it was raised, and what each token knows is a prefix of one
// list of raises. So a ceiling that a look finds shows that the counter's ceiling was raised at
// least so far, by the list that the reader knows from then on.
//
// What a raise means is up to the writer. That a reader knows only what the writer has raised is
// the law `Ceilings::seen`.

mod ceilings;
mod laws;
mod rule;

pub use ceilings::{Ceilings, Reader, Writer};
pub use laws::ceilings_monotone;
pub use rule::Raised;
