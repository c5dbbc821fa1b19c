//! The verifier decides which programs may run. `verify` accepts a program, or refuses it with a
//! slot and a rule. An accepted program never does what the machine leaves undefined.
//!
//! See docs/SPECIFICATION.md, "The verifier"; docs/PROGRAM.md, "Refusals".
#![tactic(auto)]

// The method. All jumps go forward, so one sweep upwards over the slots visits each instruction
// after everything that leads to it. Each program point has an *entry*: the abstract state of
// registers and stack before its instruction. The first slot has the entry of the start of a run. A
// slot that no edge reaches has no entry and isn't judged. The instruction is checked against the
// rules, and then its entry yields one for each of its edges; an edge that no run takes is dropped.
// `bpf_checks` has the rules and the edges of one instruction, and `abs_value` the abstract values.
//
// What is kept. The current entry is changed in place from instruction to instruction. At a jump,
// the entry of that edge waits for its target. If an entry waits there already, the new one is
// joined into it; otherwise it is copied into a pool. At the target, the waiting entry is joined
// with the one that falls through, and is freed. So straight-line code copies no entry, and the
// memory is bounded by the number of targets ahead; `verify_counted` reports how many entries were
// kept at once.
//
// Why this is sound. The entry of a slot is defined as the join over its incoming edges, in the
// order of their slots. The sweep is proved to judge by exactly this entry: the edge that falls
// through is the last in that order. An entry represents every state that a run may have at its
// slot. The first entry represents every opening state, and each step follows an edge from a
// represented state to a represented state. So no slot that a run reaches breaks a rule, and the
// rules exclude every trap.

mod entries;
mod laws;
mod pool;
mod sweep;
mod table;
mod verified;
mod walk;

pub use bpf_checks::{Refusal, VerifierRule};
pub use cells::Shape;
pub use laws::{ends_monotone, one_verdict};
pub use table::table_is_enough;
pub use verified::{Verified, verify, verify_counted};
pub use walk::{Walk, end_is_accepted};
