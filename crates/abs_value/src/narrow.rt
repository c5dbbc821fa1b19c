//! Narrowing: what remains of the two numbers that a conditional jump compares, on the edge that
//! jumps and on the fall-through edge. No run takes an edge on which a number is found empty.

ghost use Rattle.std.specs.Prelude.{◌≡◌, option_map};
ghost use Rattle.abs_value.specs.Narrowing as narrowing;

use crate::bounds::sign_bit;
use crate::interval::{Interval, greatest};
use crate::known_bits::KnownBits;
use crate::number::Number;
use crate::relation::Relation;
use bpf_insn::{Bits, Condition};

/// Narrows both if the first is below the second.
fn below(a: Interval, b: Interval) -> Option<(Interval, Interval)>
    ensures { result ≡ narrowing.below a b }
{
    if a.lo >= b.hi {
        return None;
    }
    let first = Interval {
        lo: a.lo,
        hi: a.hi.min(b.hi - 1),
    };
    let second = Interval {
        lo: (a.lo + 1).max(b.lo),
        hi: b.hi,
    };
    Some((first, second))
}

/// Narrows both if the first is at most the second.
fn at_most(a: Interval, b: Interval) -> Option<(Interval, Interval)>
    ensures { result ≡ narrowing.at_most a b }
{
    if a.lo > b.hi {
        return None;
    }
    let first = Interval {
        lo: a.lo,
        hi: a.hi.min(b.hi),
    };
    let second = Interval {
        lo: a.lo.max(b.lo),
        hi: b.hi,
    };
    Some((first, second))
}

/// The intersection.
fn overlap(a: Interval, b: Interval) -> Interval
    ensures { result ≡ narrowing.overlap a b }
{
    Interval {
        lo: a.lo.max(b.lo),
        hi: a.hi.min(b.hi),
    }
}

/// The interval without `n`, if `n` is one of its ends; a single number stays.
fn without(n: u64, a: Interval) -> Interval
    ensures { result ≡ narrowing.without n a }
{
    if a.lo >= a.hi {
        return a;
    }
    Interval {
        lo: if a.lo == n { a.lo + 1 } else { a.lo },
        hi: if a.hi == n { a.hi - 1 } else { a.hi },
    }
}

fn apart_from(b: Interval, a: Interval) -> Interval
    ensures { result ≡ narrowing.apart_from b a }
{
    if b.is_just() { without(b.lo, a) } else { a }
}

fn swapped(pair: Option<(Interval, Interval)>) -> Option<(Interval, Interval)>
    ensures { result ≡ option_map narrowing.swapped pair }
{
    pair.map(|(first, second)| (second, first))
}

/// Both, unless one is found empty.
fn kept(a: Number, b: Number) -> Option<(Number, Number)>
    ensures { result ≡ narrowing.kept a b }
{
    if a.is_empty() || b.is_empty() {
        None
    } else {
        Some((a, b))
    }
}

/// Both with narrowed intervals, and the bits that were known.
fn kept_in(a: Number, b: Number, moved: Option<(Interval, Interval)>) -> Option<(Number, Number)>
    ensures { result ≡ narrowing.kept_in a b moved }
{
    match moved {
        Some((first, second)) => kept(Number::tidy(first, a.bits), Number::tidy(second, b.bits)),
        None => None,
    }
}

/// Narrows both if they are equal: each gets what either knows.
fn equal(a: Number, b: Number) -> Option<(Number, Number)>
    ensures { result ≡ narrowing.kept (narrowing.equal a b) (narrowing.equal a b) }
{
    let both = Number::tidy(overlap(a.range, b.range), a.bits.combined(b.bits));
    kept(both, both)
}

/// The first with other bits, and the second unchanged.
fn kept_with(bits: KnownBits, a: Number, b: Number) -> Option<(Number, Number)>
    ensures { result ≡ narrowing.kept_with bits a b }
{
    let first = Number::tidy(a.range, bits);
    if first.is_empty() {
        None
    } else {
        Some((first, b))
    }
}

/// Whether `n` has at most one bit that is set.
fn is_one_bit(n: u64) -> bool
    ensures { result ≡ narrowing.is_one_bit n }
{
    n & n.saturating_sub(1) == 0
}

/// Narrows the bits of a number that has at least one bit of `n`: if `n` is one bit, it is set.
fn with_one_of(n: u64, bits: KnownBits) -> KnownBits
    ensures { result ≡ narrowing.with_one_of n bits }
{
    if is_one_bit(n) {
        KnownBits {
            has: bits.has | n,
            may_have: bits.may_have,
        }
    } else {
        bits
    }
}

/// Narrows the bits of a number that has no bit of `n`.
fn without_bits(n: u64, bits: KnownBits) -> KnownBits
    ensures { result ≡ narrowing.without_bits n bits }
{
    KnownBits {
        has: bits.has,
        may_have: bits.may_have & !n,
    }
}

/// Narrows the first if it has a bit of `n`.
fn meeting(n: u64, a: Number, b: Number) -> Option<(Number, Number)>
    ensures { result ≡ narrowing.meeting n a b }
{
    if a.bits.may_have & n == 0 {
        None
    } else {
        kept_with(with_one_of(n, a.bits), a, b)
    }
}

fn left_by(relation: Relation, a: Number, b: Number) -> Option<(Number, Number)>
    ensures { result ≡ narrowing.left_by relation a b }
{
    let (x, y) = (a.range, b.range);
    match relation {
        Relation::Equal => equal(a, b),
        Relation::Unequal => kept_in(a, b, Some((apart_from(y, x), apart_from(x, y)))),
        Relation::Less => kept_in(a, b, below(x, y)),
        Relation::AtMost => kept_in(a, b, at_most(x, y)),
        Relation::More => kept_in(a, b, swapped(below(y, x))),
        Relation::AtLeast => kept_in(a, b, swapped(at_most(y, x))),
        Relation::Meets if b.is_single() => meeting(y.lo, a, b),
        Relation::Misses if b.is_single() => kept_with(without_bits(y.lo, a.bits), a, b),
        Relation::Meets | Relation::Misses => Some((a, b)),
    }
}

fn is_signed(condition: Condition) -> bool
    ensures { result ≡ narrowing.is_signed condition }
{
    matches!(
        condition,
        Condition::Slt | Condition::Sle | Condition::Sgt | Condition::Sge
    )
}

fn on_one_side(bits: Bits, a: Interval, b: Interval) -> bool
    ensures { result ≡ narrowing.on_one_side bits a b }
{
    let sign = sign_bit(bits);
    (a.hi < sign && b.hi < sign) || (sign <= a.lo && sign <= b.lo)
}

fn is_comparable(bits: Bits, condition: Condition, a: Interval, b: Interval) -> bool
    ensures { result ≡ narrowing.is_comparable bits condition a b }
{
    let greatest = greatest(bits);
    a.hi <= greatest && b.hi <= greatest && (!is_signed(condition) || on_one_side(bits, a, b))
}

impl Number {
    /// What remains of the two numbers on the edge that jumps, or on the fall-through edge; `None`
    /// if no run takes it. The caller must first test whether both are the same register.
    pub(crate) fn narrowed(
        self,
        bits: Bits,
        condition: Condition,
        jumps: bool,
        other: Number,
    ) -> Option<(Number, Number)>
        ensures { result ≡ narrowing.narrowed bits condition jumps self other }
    {
        if self.is_single() && other.is_single() {
            if condition.holds(bits, self.range.lo, other.range.lo) == jumps {
                Some((self, other))
            } else {
                None
            }
        } else if is_comparable(bits, condition, self.range, other.range) {
            left_by(Relation::learnt(condition, jumps), self, other)
        } else {
            Some((self, other))
        }
    }
}
