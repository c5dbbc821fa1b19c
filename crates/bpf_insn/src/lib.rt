//! BPF instructions and their encoding (RFC 9669): the conformance groups base32, base64, divmul32,
//! divmul64, atomic32 and atomic64. `decode_at` reads the instruction that bytes spell, and
//! `encode` writes it.
//!
//! See docs/SPECIFICATION.md, "The encoding"; docs/PROGRAM.md, "Refusals".
#![tactic(auto)]

mod arithmetic;
mod build;
mod conditions;
mod decoder;
mod division;
mod encoder;
mod fields;
mod form;
mod insn;
mod insn_fault;
mod layout;
mod lookup;
mod number;
mod opcode;
mod operand;
mod parts;
mod reg;
mod row;
mod slots;
mod words;

pub use arithmetic::results_fit;
pub use decoder::decode_at;
pub use encoder::encode;
pub use fields::InsnFault;
pub use insn::{Insn, Width};
pub use operand::{
    AluOp, AtomicOp, AtomicSize, Bits, ByteOrder, Condition, Distance, EndSize, Extension,
    LoadKind, Operand, Size, WideValue,
};
pub use reg::Reg;
pub use slots::MOST_SLOTS;
pub use words::{low_byte, low_half, low_word};
