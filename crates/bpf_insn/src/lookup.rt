//! Parts of an instruction, looked up by the numbers that encode them in imm, offset or src.
//! Different parts have different numbers.

ghost use Rattle.std.specs.Prelude.{◌≡◌, pos, IfSome, Some};
ghost use Rattle.bpf_insn.specs.declared.operand.AluOp.{AluOp};
ghost use Rattle.bpf_insn.specs.declared.operand.EndSize.{EndSize};
ghost use Rattle.bpf_insn.specs.declared.operand.AtomicOp.{AtomicOp};
ghost use Rattle.bpf_insn.specs.declared.operand.Extension.{Extension};
ghost use Rattle.bpf_insn.specs.declared.form.WideSource.{WideSource};
ghost use Rattle.bpf_insn.specs.Table.{end_bits, atomic_code, source_code, IsAluOp, IsExtension};

use crate::fields::Fields;
use crate::form::{AluCode, WideSource};
use crate::operand::{AluOp, AtomicOp, Bits, EndSize, Extension};

/// The operation of a code; for DIV and MOD the offset decides.
pub fn alu_op_in(code: AluCode, fields: Fields) -> Option<AluOp>
    ensures some { IfSome result (λ op. IsAluOp code fields.offset op) }
    ensures only { (op : AluOp) → IsAluOp code fields.offset op → result ≡ Some op }
{
    match (code, fields.offset) {
        (AluCode::Add, 0) => Some(AluOp::Add),
        (AluCode::Sub, 0) => Some(AluOp::Sub),
        (AluCode::Mul, 0) => Some(AluOp::Mul),
        (AluCode::Div, 0) => Some(AluOp::Div),
        (AluCode::Div, 1) => Some(AluOp::Sdiv),
        (AluCode::Or, 0) => Some(AluOp::Or),
        (AluCode::And, 0) => Some(AluOp::And),
        (AluCode::Lsh, 0) => Some(AluOp::Lsh),
        (AluCode::Rsh, 0) => Some(AluOp::Rsh),
        (AluCode::Mod, 0) => Some(AluOp::Mod),
        (AluCode::Mod, 1) => Some(AluOp::Smod),
        (AluCode::Xor, 0) => Some(AluOp::Xor),
        (AluCode::Arsh, 0) => Some(AluOp::Arsh),
        _ => None,
    }
}

/// The number of low bits that END keeps, from imm.
pub fn end_size_in(fields: Fields) -> Option<EndSize>
    ensures some { IfSome result (λ size. pos (end_bits size) ≡ fields.imm) }
    ensures only { (size : EndSize) → pos (end_bits size) ≡ fields.imm → result ≡ Some size }
{
    match fields.imm {
        16 => Some(EndSize::Half),
        32 => Some(EndSize::Word),
        64 => Some(EndSize::Double),
        _ => None,
    }
}

/// The operation of an atomic instruction, from imm.
pub fn atomic_op_in(fields: Fields) -> Option<AtomicOp>
    ensures some { IfSome result (λ op. pos (atomic_code op) ≡ fields.imm) }
    ensures only { (op : AtomicOp) → pos (atomic_code op) ≡ fields.imm → result ≡ Some op }
{
    match fields.imm {
        0x00 => Some(AtomicOp::Add),
        0x40 => Some(AtomicOp::Or),
        0x50 => Some(AtomicOp::And),
        0xa0 => Some(AtomicOp::Xor),
        0x01 => Some(AtomicOp::FetchAdd),
        0x41 => Some(AtomicOp::FetchOr),
        0x51 => Some(AtomicOp::FetchAnd),
        0xa1 => Some(AtomicOp::FetchXor),
        0xe1 => Some(AtomicOp::Exchange),
        0xf1 => Some(AtomicOp::CompareExchange),
        _ => None,
    }
}

/// The part that a MOVSX of the class extends, from offset.
pub fn extension_in(bits: Bits, fields: Fields) -> Option<Extension>
    ensures some { IfSome result (λ e. IsExtension bits fields.offset e) }
    ensures only { (e : Extension) → IsExtension bits fields.offset e → result ≡ Some e }
{
    match (bits, fields.offset) {
        (Bits::Bits64, 8) => Some(Extension::Byte64),
        (Bits::Bits64, 16) => Some(Extension::Half64),
        (Bits::Bits64, 32) => Some(Extension::Word64),
        (Bits::Bits32, 8) => Some(Extension::Byte32),
        (Bits::Bits32, 16) => Some(Extension::Half32),
        _ => None,
    }
}

/// The kind of a wide load, from src.
pub fn wide_source_in(fields: Fields) -> Option<WideSource>
    ensures some { IfSome result (λ source. source_code source ≡ fields.src) }
    ensures only { (source : WideSource) → source_code source ≡ fields.src → result ≡ Some source }
{
    match fields.src {
        0 => Some(WideSource::Number),
        5 => Some(WideSource::Map),
        6 => Some(WideSource::Cell),
        _ => None,
    }
}
