//! The assembly text of BPF instructions: `assemble` reads it into bytes, and `listing` writes it
//! from bytes. Both use one mnemonic and one signature for each instruction. `mnemonic` has the
//! mnemonics, `argument` the arguments that the listing writes, and `signature` the kinds of
//! operands that the assembler reads.
//!
//! See docs/PROGRAM.md, "Assembly text"; docs/SPECIFICATION.md, "The assembly text".
#![tactic(auto)]

mod argument;
mod assembler;
mod insn_line;
mod item;
mod label;
mod laws;
mod line;
mod lister;
mod mnemonic;
mod operand;
mod range;
mod scan;
mod signature;
mod statement;
mod text_fault;
mod three;
mod token;
mod vocabulary;

pub use assembler::assemble;
pub use insn_line::line_of;
pub use laws::{kinds_agree, one_assembly, one_listing, reads_as_stated, remarks_are_skipped};
pub use lister::{listing, push_bare_line};
pub use text_fault::{AsmFault, AsmFaultKind, ListFault};
pub use vocabulary::REGISTERS;
