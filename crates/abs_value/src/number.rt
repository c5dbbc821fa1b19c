//! Abstract numbers: an interval, and known bits. Other crates call the methods of a number, and
//! don't read its fields.

ghost use Rattle.std.specs.Prelude.{◌≡◌, true, ◌&&◌, ◌==◌};
ghost use Rattle.abs_value.specs.Intervals.{interval};
ghost use Rattle.abs_value.specs.Known.{known};
ghost use Rattle.abs_value.specs.Numbers as numbers;

use crate::bounds::ones_of;
use crate::interval::Interval;
use crate::known_bits::KnownBits;
use bpf_insn::Bits;

/// The numbers of an interval that have these bits.
#[derive(Clone, Copy)]
pub struct Number {
    pub range: Interval,
    pub bits: KnownBits,
}

impl Number {
    /// A single number, with all bits known.
    pub fn single(n: u64) -> Number
        ensures { result ≡ numbers.single n }
    {
        Number {
            range: Interval::just(n),
            bits: KnownBits::exactly(n),
        }
    }

    /// The numbers from 0 to `hi`.
    pub fn up_to(hi: u64) -> Number
        ensures { result ≡ numbers.up_to hi }
    {
        Number {
            range: Interval::from_zero(hi),
            bits: KnownBits::some_of(ones_of(hi)),
        }
    }

    /// Any number of the class.
    pub(crate) fn full(bits: Bits) -> Number
        ensures { result ≡ numbers.full bits }
    {
        Number {
            range: Interval::all_of(bits),
            bits: KnownBits::any_of(bits),
        }
    }

    /// The least number that it includes.
    #[inline]
    pub fn least(self) -> u64
        ensures { result ≡ numbers.least self }
    {
        self.range.lo
    }

    /// Whether it includes only one number.
    #[inline]
    pub fn is_single(self) -> bool
        ensures { result ≡ numbers.is_single self }
    {
        self.range.is_just()
    }

    /// Whether it includes only `n`.
    #[inline]
    pub fn is_only(self, n: u64) -> bool
        ensures { result ≡ numbers.is_only self n }
    {
        self.range.lo == n && self.range.hi == n
    }

    /// Whether no number that it includes exceeds `n`.
    #[inline]
    pub fn is_at_most(self, n: u64) -> bool
        ensures { result ≡ numbers.is_at_most self n }
    {
        self.range.hi <= n
    }

    /// Its numbers, truncated to the class: for a single number, its low half.
    pub(crate) fn cut(self, bits: Bits) -> Number
        ensures { result ≡ numbers.cut bits self }
    {
        Number {
            range: self.range.cut(bits),
            bits: self.bits.cut(bits),
        }
    }

    /// Tightens the interval and the bits by each other, once. First the ends move in to the bits,
    /// and then the bits that all numbers of the interval share become known.
    #[tactic(auto, unfolding(crate::specs::Numbers::tidy))]
    pub(crate) fn tidy(range: Interval, bits: KnownBits) -> Number
        ensures { result ≡ numbers.tidy range bits }
    {
        let range = Interval {
            lo: range.lo.max(bits.has),
            hi: range.hi.min(bits.may_have),
        };
        Number {
            range,
            bits: bits.combined(KnownBits::shared(range)),
        }
    }

    /// Whether it is found empty: the ends are out of order, or a bit is known to be both 1 and 0.
    pub(crate) fn is_empty(self) -> bool
        ensures { result ≡ numbers.is_empty self }
    {
        self.range.hi < self.range.lo || !self.bits.is_consistent()
    }

    /// A result, tidied. If `tidy` finds it empty, it stays as it was computed: no run gets there,
    /// and only a jump drops an edge.
    #[tactic(auto, unfolding(crate::specs::Numbers::tidied))]
    pub(crate) fn tidied(range: Interval, bits: KnownBits) -> Number
        ensures { result ≡ numbers.tidied range bits }
    {
        let tidy = Number::tidy(range, bits);
        if tidy.is_empty() {
            Number { range, bits }
        } else {
            tidy
        }
    }

    /// Whether both have the same range and the same bits.
    pub fn is_same(self, other: Number) -> bool
        ensures { result ≡ numbers.is_same self other }
    {
        self.range.lo == other.range.lo
            && self.range.hi == other.range.hi
            && self.bits.has == other.bits.has
            && self.bits.may_have == other.bits.may_have
    }

    /// Whether `self` is known to be the join of both, because both are the same, and tidy.
    pub(crate) fn stays(self, other: Number) -> bool
        ensures { result ≡ true → numbers.join_numbers self other ≡ self }
    {
        if self.is_same(other) {
            let Number { range, bits } = self;
            is_settled(range.lo, range.hi, bits.has, bits.may_have)
        } else {
            false
        }
    }

    /// The join.
    pub(crate) fn join(self, other: Number) -> Number
        ensures { result ≡ numbers.join_numbers self other }
    {
        Number::tidied(self.range.hull(other.range), self.bits.common(other.bits))
    }
}

/// Whether the ends are the least and the most that the bits allow, as for a single number and a
/// load.
fn is_exact(lo: u64, hi: u64, has: u64, may_have: u64) -> bool
    ensures { result ≡ ((has == lo) && (may_have == hi)) }
{
    has == lo && may_have == hi
}

/// Whether `tidy` is known to leave a number unchanged. That is so if the bits allow both ends, and
/// no bit above the highest one in which the ends differ is unknown.
fn is_settled(lo: u64, hi: u64, has: u64, may_have: u64) -> bool
    ensures { result ≡ true → numbers.tidied (interval lo hi) (known has may_have)
        ≡ numbers.number (interval lo hi) (known has may_have) }
{
    if is_exact(lo, hi, has, may_have) {
        return true;
    }
    if has > lo {
        return false;
    }
    if hi > may_have {
        return false;
    }
    let unknown = has ^ may_have;
    let differing = lo ^ hi;
    unknown & !differing <= differing
}
