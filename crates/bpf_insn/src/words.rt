//! Words: the low bits of a number, plain or sign-extended, and an imm as an operand.

ghost use Rattle.std.specs.Prelude.{◌≡◌, ◌%◌, ◌^◌};
ghost use Rattle.std.specs.Int.{w8, w16, w32, w64};
ghost use Rattle.bpf_insn.specs.Words as words;
ghost use Rattle.bpf_insn.specs.Words.{sign_extended};

use crate::operand::Bits;

/// The low 8 bits.
#[inline]
pub fn low_byte(x: u64) -> u8
    ensures { result ≡ x % 2 ^ 8 }
{
    (x % 0x100) as u8
}

/// The low 16 bits.
#[inline]
pub fn low_half(x: u64) -> u16
    ensures { result ≡ x % 2 ^ 16 }
{
    (x % 0x1_0000) as u16
}

/// The low 32 bits.
#[inline]
pub fn low_word(x: u64) -> u32
    ensures { result ≡ x % 2 ^ 32 }
{
    (x % 0x1_0000_0000) as u32
}

/// 8 bits, sign-extended to 64.
#[inline]
pub fn extend_byte(x: u8) -> u64
    ensures { result ≡ sign_extended w8 w64 x }
{
    (x.cast_signed() as i64).cast_unsigned()
}

/// 16 bits, sign-extended to 64.
#[inline]
pub fn extend_half(x: u16) -> u64
    ensures { result ≡ sign_extended w16 w64 x }
{
    (x.cast_signed() as i64).cast_unsigned()
}

/// 32 bits, sign-extended to 64.
#[inline]
pub fn extend_word(x: u32) -> u64
    ensures { result ≡ sign_extended w32 w64 x }
{
    (x.cast_signed() as i64).cast_unsigned()
}

impl Bits {
    /// The register, or its low half, by the class.
    #[inline]
    pub fn word(self, x: u64) -> u64
        ensures { result ≡ words.word self x }
    {
        match self {
            Bits::Bits64 => x,
            Bits::Bits32 => low_word(x) as u64,
        }
    }

    /// An imm as an operand of the class: sign-extended to 64 bits, or as 32 bits.
    #[inline]
    pub fn immediate(self, imm: i32) -> u64
        ensures { result ≡ words.immediate self imm }
    {
        match self {
            Bits::Bits64 => (imm as i64).cast_unsigned(),
            Bits::Bits32 => imm.cast_unsigned() as u64,
        }
    }
}
