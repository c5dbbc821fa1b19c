//! The semantics of the machine (RFC 9669): the memory of a run, its state, one step, and a whole
//! run. The definitions are in `specs/`; the crates above cite them. The laws about all runs have
//! no code. The machine's numbers are also here for code: its regions, its helpers, and the size
//! and effect of each access.
//!
//! See docs/SPECIFICATION.md, "The machine".
#![tactic(auto)]

mod accesses;
mod count;
pub mod helpers;
mod regions;
mod run;
mod words;

pub use accesses::{atomic_count, byte_count, cell_op, fetched, load_count};
pub use count::counts_instructions;
pub use regions::{
    CELL_START, CONTEXT_SIZE, CONTEXT_START, MAP_START, STACK_SIZE, STACK_START, STACK_TOP,
    add_long_offset, add_offset, cell_address, region_numbers,
};
pub use run::one_end;
pub use words::words_stay;
