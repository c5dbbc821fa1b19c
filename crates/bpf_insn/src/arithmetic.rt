//! The results of arithmetic instructions (RFC 9669, "Arithmetic Instructions" and "Byte Swap
//! Instructions"): one function for each definition. A 32-bit result is computed on `u32` and
//! zero-extended.

ghost use Rattle.std.specs.Prelude.{◌≡◌};
ghost use Rattle.std.specs.Int.{w32, w64};
ghost use Rattle.bpf_insn.specs.Arithmetic as formula;
ghost use Rattle.bpf_insn.specs.Arithmetic.{FitsWidth};

use crate::division::{
    quotient, quotient32, remainder, remainder32, signed_quotient, signed_quotient32,
    signed_remainder, signed_remainder32,
};
use crate::operand::{AluOp, Bits, ByteOrder, EndSize, Extension};
use crate::words::{extend_byte, extend_half, extend_word, low_byte, low_half, low_word};

impl AluOp {
    #[inline]
    fn apply_long(self, x: u64, y: u64) -> u64
        ensures { result ≡ formula.arithmetic w64 self x y }
    {
        match self {
            AluOp::Add => x.wrapping_add(y),
            AluOp::Sub => x.wrapping_sub(y),
            AluOp::Mul => x.wrapping_mul(y),
            AluOp::Div => quotient(x, y),
            AluOp::Sdiv => signed_quotient(x, y),
            AluOp::Or => x | y,
            AluOp::And => x & y,
            AluOp::Lsh => x.wrapping_shl((y % 64) as u32),
            AluOp::Rsh => x.wrapping_shr((y % 64) as u32),
            AluOp::Mod => remainder(x, y),
            AluOp::Smod => signed_remainder(x, y),
            AluOp::Xor => x ^ y,
            AluOp::Arsh => x
                .cast_signed()
                .wrapping_shr((y % 64) as u32)
                .cast_unsigned(),
        }
    }

    #[inline]
    fn apply_short(self, a: u32, b: u32) -> u32
        ensures { result ≡ formula.arithmetic w32 self a b }
    {
        match self {
            AluOp::Add => a.wrapping_add(b),
            AluOp::Sub => a.wrapping_sub(b),
            AluOp::Mul => a.wrapping_mul(b),
            AluOp::Div => quotient32(a, b),
            AluOp::Sdiv => signed_quotient32(a, b),
            AluOp::Or => a | b,
            AluOp::And => a & b,
            AluOp::Lsh => a.wrapping_shl(b),
            AluOp::Rsh => a.wrapping_shr(b),
            AluOp::Mod => remainder32(a, b),
            AluOp::Smod => signed_remainder32(a, b),
            AluOp::Xor => a ^ b,
            AluOp::Arsh => a.cast_signed().wrapping_shr(b).cast_unsigned(),
        }
    }

    /// The operation on two registers, or on their low halves.
    #[inline]
    pub fn apply(self, bits: Bits, x: u64, y: u64) -> u64
        ensures { result ≡ formula.alu_result bits self x y }
    {
        match bits {
            Bits::Bits64 => self.apply_long(x, y),
            Bits::Bits32 => self.apply_short(low_word(x), low_word(y)) as u64,
        }
    }
}

impl Bits {
    /// NEG of a register, or of its low half.
    #[inline]
    pub fn negate(self, x: u64) -> u64
        ensures { result ≡ formula.negated self x }
    {
        AluOp::Sub.apply(self, 0, x)
    }
}

impl Extension {
    /// MOVSX of a register.
    #[inline]
    pub fn extend(self, x: u64) -> u64
        ensures { result ≡ formula.extended self x }
    {
        match self {
            Extension::Byte64 => extend_byte(low_byte(x)),
            Extension::Half64 => extend_half(low_half(x)),
            Extension::Word64 => extend_word(low_word(x)),
            Extension::Byte32 => (low_byte(x).cast_signed() as i32).cast_unsigned() as u64,
            Extension::Half32 => (low_half(x).cast_signed() as i32).cast_unsigned() as u64,
        }
    }
}

impl ByteOrder {
    /// END of a register.
    #[inline]
    pub fn reorder(self, size: EndSize, x: u64) -> u64
        ensures { result ≡ formula.reordered self size x }
    {
        match self {
            ByteOrder::Little => size.low_bytes(x),
            ByteOrder::Big => size.swapped_bytes(x),
            ByteOrder::Swap => size.swapped_bytes(x),
        }
    }
}

impl EndSize {
    #[inline]
    fn low_bytes(self, x: u64) -> u64
        ensures { result ≡ formula.reordered ByteOrder.Little self x }
    {
        match self {
            EndSize::Half => low_half(x) as u64,
            EndSize::Word => low_word(x) as u64,
            EndSize::Double => x,
        }
    }

    #[inline]
    fn swapped_bytes(self, x: u64) -> u64
        ensures { result ≡ formula.reordered ByteOrder.Swap self x }
    {
        match self {
            EndSize::Half => low_half(x).swap_bytes() as u64,
            EndSize::Word => low_word(x).swap_bytes() as u64,
            EndSize::Double => x.swap_bytes(),
        }
    }
}

/// Law: an operation on two numbers of a width gives a number of that width.
pub fn results_fit()
    ensures { FitsWidth }
{}
