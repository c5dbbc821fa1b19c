//! Intervals of numbers, by their least and greatest number.

ghost use Rattle.std.specs.Prelude.{◌≡◌};
ghost use Rattle.abs_value.specs.Intervals as intervals;

use bpf_insn::Bits;

/// The numbers of 64 bits from `lo` to `hi`, both included.
#[derive(Clone, Copy)]
pub struct Interval {
    pub lo: u64,
    pub hi: u64,
}

impl Interval {
    /// The interval that contains only `n`.
    pub fn just(n: u64) -> Interval
        ensures { result ≡ intervals.just n }
    {
        Interval { lo: n, hi: n }
    }

    /// Whether it contains only one number.
    pub fn is_just(self) -> bool
        ensures { result ≡ intervals.is_just self }
    {
        self.lo == self.hi
    }

    /// The numbers from 0 to `hi`.
    pub fn from_zero(hi: u64) -> Interval
        ensures { result ≡ intervals.from_zero hi }
    {
        Interval { lo: 0, hi }
    }

    /// All numbers of the class.
    pub(crate) fn all_of(bits: Bits) -> Interval
        ensures { result ≡ intervals.all_of bits }
    {
        Interval::from_zero(greatest(bits))
    }

    /// The interval of its numbers, truncated to the class.
    pub(crate) fn cut(self, bits: Bits) -> Interval
        ensures { result ≡ intervals.cut_interval bits self }
    {
        match bits {
            Bits::Bits64 => self,
            Bits::Bits32 if self.is_just() => Interval::just(self.lo % 0x1_0000_0000),
            Bits::Bits32 if self.hi <= u32::MAX as u64 => self,
            Bits::Bits32 => Interval::all_of(Bits::Bits32),
        }
    }

    /// The least interval that contains both.
    pub(crate) fn hull(self, other: Interval) -> Interval
        ensures { result ≡ intervals.hull self other }
    {
        Interval {
            lo: self.lo.min(other.lo),
            hi: self.hi.max(other.hi),
        }
    }
}

/// The greatest number of a class.
pub fn greatest(bits: Bits) -> u64
    ensures { result ≡ intervals.greatest bits }
{
    match bits {
        Bits::Bits64 => u64::MAX,
        Bits::Bits32 => u32::MAX as u64,
    }
}
