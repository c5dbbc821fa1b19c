//! Results of operations. For two single numbers, the result is what the machine computes.

ghost use Rattle.std.specs.Prelude.{◌≡◌};
ghost use Rattle.abs_value.specs.Results as results;

use crate::bounds::{bounds_of, count_of, sign_bit};
use crate::known_bits::KnownBits;
use crate::number::Number;
use bpf_insn::{AluOp, Bits, ByteOrder, EndSize, Extension};

/// The known bits of a result, for operands of the class.
fn known_bits_of(bits: Bits, op: AluOp, a: Number, b: Number) -> KnownBits
    ensures { result ≡ results.known_bits bits op a b }
{
    match op {
        AluOp::And => a.bits.and(b.bits),
        AluOp::Or => a.bits.or(b.bits),
        AluOp::Xor => a.bits.xor(b.bits),
        AluOp::Lsh if b.is_single() => a.bits.left(count_of(bits, b.range)).cut(bits),
        AluOp::Rsh if b.is_single() => a.bits.right(count_of(bits, b.range)),
        AluOp::Arsh if b.is_single() && a.range.hi < sign_bit(bits) => {
            a.bits.right(count_of(bits, b.range))
        }
        _ => KnownBits::any_of(bits),
    }
}

/// The result of an operation, for operands of the class.
fn result_of(bits: Bits, op: AluOp, a: Number, b: Number) -> Number
    ensures { result ≡ results.result bits op a b }
{
    Number::tidied(
        bounds_of(bits, op, a.range, b.range),
        known_bits_of(bits, op, a, b),
    )
}

impl Number {
    /// The result of an operation; with 32 bits, only the low halves of the operands count.
    pub fn alu(self, bits: Bits, op: AluOp, other: Number) -> Number
        ensures { result ≡ results.alu_number bits op self other }
    {
        if self.is_single() && other.is_single() {
            Number::single(op.apply(bits, self.range.lo, other.range.lo))
        } else {
            result_of(bits, op, self.cut(bits), other.cut(bits))
        }
    }

    /// The result of MOV.
    pub(crate) fn copied(self, bits: Bits) -> Number
        ensures { result ≡ results.copied_number bits self }
    {
        Number::tidied(self.range.cut(bits), self.bits.cut(bits))
    }

    /// The result of MOVSX.
    pub fn extended(self, extension: Extension) -> Number
        ensures { result ≡ results.extended_number extension self }
    {
        if self.is_single() {
            return Number::single(extension.extend(self.range.lo));
        }
        match extension {
            Extension::Byte64 | Extension::Half64 | Extension::Word64 => Number::full(Bits::Bits64),
            Extension::Byte32 | Extension::Half32 => Number::full(Bits::Bits32),
        }
    }

    /// The result of END.
    pub fn reordered(self, order: ByteOrder, size: EndSize) -> Number
        ensures { result ≡ results.reordered_number order size self }
    {
        if self.is_single() {
            return Number::single(order.reorder(size, self.range.lo));
        }
        match size {
            EndSize::Half => Number::up_to(u16::MAX as u64),
            EndSize::Word => Number::up_to(u32::MAX as u64),
            EndSize::Double => Number::up_to(u64::MAX),
        }
    }
}
