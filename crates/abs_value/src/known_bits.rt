//! The known bits of a number (a tnum): the bits that are 1, and the bits that may be 1. With these
//! two masks, AND, OR and shifts are the machine's operations applied to each.

ghost use Rattle.std.specs.Prelude.{◌≡◌, ◌<◌};
ghost use Rattle.abs_value.specs.Known as known;

use crate::bounds::ones_of;
use crate::interval::{Interval, greatest};
use bpf_insn::Bits;

/// The bits that are 1 in each number, and those that may be 1. A bit of `may_have` that isn't in
/// `has` is unknown.
#[derive(Clone, Copy)]
pub struct KnownBits {
    pub has: u64,
    pub may_have: u64,
}

impl KnownBits {
    /// All bits are known to be those of `n`.
    pub(crate) fn exactly(n: u64) -> KnownBits
        ensures { result ≡ known.exactly n }
    {
        KnownBits {
            has: n,
            may_have: n,
        }
    }

    /// No bits except some of `bits`.
    pub(crate) fn some_of(bits: u64) -> KnownBits
        ensures { result ≡ known.some_of bits }
    {
        KnownBits {
            has: 0,
            may_have: bits,
        }
    }

    /// Any bits of the class.
    pub(crate) fn any_of(bits: Bits) -> KnownBits
        ensures { result ≡ known.any_of bits }
    {
        KnownBits::some_of(greatest(bits))
    }

    /// Whether no bit is known to be both 1 and 0.
    pub(crate) fn is_consistent(self) -> bool
        ensures { result ≡ known.is_consistent self }
    {
        self.has & self.may_have == self.has
    }

    /// The bits that `self` or `other` knows.
    pub(crate) fn combined(self, other: KnownBits) -> KnownBits
        ensures { result ≡ known.combined self other }
    {
        KnownBits {
            has: self.has | other.has,
            may_have: self.may_have & other.may_have,
        }
    }

    /// The bits that both know to be the same.
    pub(crate) fn common(self, other: KnownBits) -> KnownBits
        ensures { result ≡ known.common self other }
    {
        KnownBits {
            has: self.has & other.has,
            may_have: self.may_have | other.may_have,
        }
    }

    /// The known bits of AND.
    pub(crate) fn and(self, other: KnownBits) -> KnownBits
        ensures { result ≡ known.and_bits self other }
    {
        KnownBits {
            has: self.has & other.has,
            may_have: self.may_have & other.may_have,
        }
    }

    /// The known bits of OR.
    pub(crate) fn or(self, other: KnownBits) -> KnownBits
        ensures { result ≡ known.or_bits self other }
    {
        KnownBits {
            has: self.has | other.has,
            may_have: self.may_have | other.may_have,
        }
    }

    /// The mask of unknown bits.
    fn unknown(self) -> u64
        ensures { result ≡ known.unknown self }
    {
        self.has ^ self.may_have
    }

    /// The known bits of XOR: a bit is known if both operands know it.
    pub(crate) fn xor(self, other: KnownBits) -> KnownBits
        ensures { result ≡ known.xor_bits self other }
    {
        let unknown = self.unknown() | other.unknown();
        let may_have = (self.has ^ other.has) | unknown;
        KnownBits {
            has: may_have ^ unknown,
            may_have,
        }
    }

    /// The known bits of LSH: the bits that are shifted in are 0.
    pub(crate) fn left(self, count: u32) -> KnownBits
        requires { count < 64 }
        ensures { result ≡ known.left_bits self count }
    {
        KnownBits {
            has: self.has << count,
            may_have: self.may_have << count,
        }
    }

    /// The known bits of RSH: the bits that are shifted in are 0.
    pub(crate) fn right(self, count: u32) -> KnownBits
        requires { count < 64 }
        ensures { result ≡ known.right_bits self count }
    {
        KnownBits {
            has: self.has >> count,
            may_have: self.may_have >> count,
        }
    }

    /// The bits, truncated to the class: with 32 bits, the upper half is 0.
    pub(crate) fn cut(self, bits: Bits) -> KnownBits
        ensures { result ≡ known.cut_bits bits self }
    {
        match bits {
            Bits::Bits64 => self,
            Bits::Bits32 => KnownBits {
                has: self.has % 0x1_0000_0000,
                may_have: self.may_have % 0x1_0000_0000,
            },
        }
    }

    /// The bits that all numbers of an interval share: those above the highest bit in which its
    /// ends differ.
    pub(crate) fn shared(range: Interval) -> KnownBits
        ensures { result ≡ known.shared range }
    {
        let differing = ones_of(range.lo ^ range.hi);
        KnownBits {
            has: range.lo & !differing,
            may_have: range.lo | differing,
        }
    }
}
