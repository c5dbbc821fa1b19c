//! From bytes to a program that may run. The bytes of a program or of a rule's text give a program
//! that is accepted under a shape, or are refused with one fault.
//!
//! See docs/PROGRAM.md, "Refusals".
#![tactic(auto)]

// All bytes go this way: files that a manifest names, files that a command is given, and those of
// tests and benchmarks. `accept` runs the flow check and then the verifier. `rule_program` runs the
// parser of rules and then their compiler, whose programs pass both by proof.

mod program;
mod program_fault;
mod rule;

pub use program::accept;
pub use program_fault::{ProgramFault, RuleTextFault};
pub use rule::{RuleProgram, rule_program};
