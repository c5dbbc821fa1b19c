//! When a conditional jump is taken (RFC 9669, "Jump Instructions").

ghost use Rattle.std.specs.Prelude.{◌≡◌};
ghost use Rattle.std.specs.Int.{w32, w64};
ghost use Rattle.bpf_insn.specs.Conditions as formula;

use crate::operand::{Bits, Condition};
use crate::words::low_word;

impl Condition {
    /// Whether the condition holds for two registers, or for their low halves.
    #[inline]
    pub fn holds(self, bits: Bits, x: u64, y: u64) -> bool
        ensures { result ≡ formula.holds bits self x y }
    {
        match bits {
            Bits::Bits64 => self.compares_long(x, y),
            Bits::Bits32 => self.compares_short(low_word(x), low_word(y)),
        }
    }

    #[inline]
    fn compares_long(self, x: u64, y: u64) -> bool
        ensures { result ≡ formula.compares w64 self x y }
    {
        match self {
            Condition::Eq => x == y,
            Condition::Gt => x > y,
            Condition::Ge => x >= y,
            Condition::Set => x & y != 0,
            Condition::Ne => x != y,
            Condition::Sgt => x.cast_signed() > y.cast_signed(),
            Condition::Sge => x.cast_signed() >= y.cast_signed(),
            Condition::Lt => x < y,
            Condition::Le => x <= y,
            Condition::Slt => x.cast_signed() < y.cast_signed(),
            Condition::Sle => x.cast_signed() <= y.cast_signed(),
        }
    }

    #[inline]
    fn compares_short(self, a: u32, b: u32) -> bool
        ensures { result ≡ formula.compares w32 self a b }
    {
        match self {
            Condition::Eq => a == b,
            Condition::Gt => a > b,
            Condition::Ge => a >= b,
            Condition::Set => a & b != 0,
            Condition::Ne => a != b,
            Condition::Sgt => a.cast_signed() > b.cast_signed(),
            Condition::Sge => a.cast_signed() >= b.cast_signed(),
            Condition::Lt => a < b,
            Condition::Le => a <= b,
            Condition::Slt => a.cast_signed() < b.cast_signed(),
            Condition::Sle => a.cast_signed() <= b.cast_signed(),
        }
    }
}
