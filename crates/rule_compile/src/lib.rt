//! From rules to programs. Code is generated from its end, so the target of each jump exists when
//! the jump is written. A label is a place by its distance from the end, so prepended code moves no
//! label. R6 is the address of the context and R7 the choice so far. The choice is set before its
//! condition is evaluated, and stays if the condition holds; `mov r0, r7 / exit` is one place at
//! the end. A condition's code jumps to a label if the condition has a given truth value, and
//! otherwise falls through to the code after it. So each test has one jump, and no jump leads to a
//! jump.
//!
//! See docs/SPECIFICATION.md, "Rules".
#![tactic(auto)]

// The proof is by continuations. Assume that from the rest of the code a run does what some
// behaviour says. Then from a piece in front of it, the run does what that part of the rule says,
// and then what the rest does. So the proof is one induction over the rule, with a lemma for each
// instruction.
//
// The proof that the code is accepted uses a table of what is known at each place. Between two
// pieces that is always the same: R6 is the start of the context, R7 a number up to the releases,
// R10 the top of the stack, and nothing else is known. Within a piece, each instruction keeps the
// verifier's rules and leads to the table's next entry, even if more is known. Then
// `table_is_enough` says that the verifier accepts. So a rule is refused only for its length.

mod blocks;
mod bytes;
mod code;
mod compile_fault;
mod conditions;
mod goals;
mod instructions;
mod rule;
mod statements;
mod test;
mod texts;
mod versions;

pub use compile_fault::CompileFault;
pub use rule::compile;
