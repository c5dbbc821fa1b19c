//! Laws about definitions that the code equals. Most compare one with results worked out by hand,
//! on both sides of each of its bounds; the last two modules are about all cases. No program calls
//! the functions. A different definition would make one of the laws false.
#![tactic(auto)]

// The machine (`bpf_semantics`): formulas, whole programs, and programs that trap.
pub mod arithmetic;
pub mod conditions;
pub mod context;
pub mod counter_traps;
pub mod counters;
pub mod memory;
pub mod products;
pub mod programs;
pub mod traps;

// The verifier's abstract values (`abs_value`).
pub mod bits;
pub mod edges;
pub mod lookups;
pub mod numbers;
pub mod values;

// All cases: which bytes a store sets, and that an entry names only lookups before it.
pub mod looking_back;
pub mod stores;
