//! The rules of the verifier: what one instruction reads, writes and accesses, which rule it
//! breaks, and how it changes the abstract state.
//!
//! See docs/SPECIFICATION.md, "The verifier"; docs/SPECIFICATION.md, "Helpers".
#![tactic(auto)]

// The method. The verifier visits each slot of a program with the abstract state before it, an
// `AbsState`. This crate handles one slot, and knows nothing of programs.
//
// First the rules are checked, from V1 up; each is a test of the instruction, the abstract state
// and the shape. Their definitions use three facts about an instruction. The first is the registers
// that it reads: operands, addresses, a helper's arguments, R0 at EXIT and for
// compare-and-exchange. The second is the register that it writes, which for an atomic operation is
// the one that gets the old value. The third is the memory that it accesses, from the address in a
// register. A class of instructions can break only some of the rules. So the code checks only
// these, class by class, and is proved to give the result of the whole list.
//
// Then the instruction is applied to the abstract state, in place. An instruction whose only
// successor is the next one changes a register, the stack, or nothing (`step_in`). A conditional
// jump has two edges, and each narrows the compared values (`jump_in`, `go_on_in`). One state
// serves both edges, and `Compared` restores the two values in between. Only a comparison of a
// lookup's result with 0 changes more on an edge: each copy of the result. Then the edge that jumps
// uses a copy of the state.
//
// `laws.rt` says why this is sound. Take a state of the machine that the abstract state represents,
// at an instruction that breaks no rule. Then a step doesn't trap, and follows an edge that isn't
// dropped to a state that the edge's abstract state represents, whatever a counter replies. Its
// operation on a counter is allowed by the shape, and a choice is 0 or one of the releases. So a
// crate above that joins edges only has to show that a join keeps what it represents.

mod access;
mod arithmetic;
mod arrays;
mod atomics;
mod calls;
mod compared;
mod jumps;
mod laws;
mod loads;
mod memory;
mod refusal;
mod rules;
mod stores;
mod transfer;

pub use compared::Compared;
pub use jumps::is_lookup_check;
pub use laws::{edges_monotone, states_are_represented, steps_are_safe};
pub use memory::stack_place;
pub use refusal::{Refusal, VerifierRule};
pub use rules::first_rule;
pub use transfer::{go_on_in, jump_in, step_in};
