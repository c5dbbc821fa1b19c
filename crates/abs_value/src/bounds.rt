//! Interval arithmetic: one formula for each operation, over the numbers of a class (32 or 64
//! bits).

ghost use Rattle.std.specs.Prelude.{◌≡◌, ◌<◌, ◌-◌};
ghost use Rattle.abs_value.specs.Bounds as bounds;

use crate::interval::{Interval, greatest};
use bpf_insn::{AluOp, Bits};

/// The interval from `lo` to `hi` if both are numbers of the class, otherwise the whole class.
fn fitting(bits: Bits, lo: u128, hi: u128) -> Interval
    ensures { result ≡ bounds.fitting bits lo hi }
{
    let greatest = greatest(bits) as u128;
    if lo <= greatest && hi <= greatest {
        Interval {
            lo: lo as u64,
            hi: hi as u64,
        }
    } else {
        Interval::all_of(bits)
    }
}

fn sum(bits: Bits, a: Interval, b: Interval) -> Interval
    ensures { result ≡ bounds.sum bits a b }
{
    fitting(
        bits,
        a.lo as u128 + b.lo as u128,
        a.hi as u128 + b.hi as u128,
    )
}

fn difference(bits: Bits, a: Interval, b: Interval) -> Interval
    ensures { result ≡ bounds.difference bits a b }
{
    if b.hi <= a.lo {
        Interval {
            lo: a.lo - b.hi,
            hi: a.hi.saturating_sub(b.lo),
        }
    } else {
        Interval::all_of(bits)
    }
}

fn product(bits: Bits, a: Interval, b: Interval) -> Interval
    ensures { result ≡ bounds.product bits a b }
{
    fitting(
        bits,
        a.lo as u128 * b.lo as u128,
        a.hi as u128 * b.hi as u128,
    )
}

/// Whether neither end is 0. If the ends are in order, the interval then excludes 0.
fn is_above_zero(b: Interval) -> bool
    ensures { result ≡ bounds.is_above_zero b }
{
    b.lo >= 1 && b.hi >= 1
}

fn quotient(a: Interval, b: Interval) -> Interval
    ensures { result ≡ bounds.quotient a b }
{
    if is_above_zero(b) {
        Interval {
            lo: a.lo / b.hi,
            hi: a.hi / b.lo,
        }
    } else {
        Interval::from_zero(a.hi)
    }
}

fn remainder(a: Interval, b: Interval) -> Interval
    ensures { result ≡ bounds.remainder a b }
{
    if is_above_zero(b) {
        Interval::from_zero(a.hi.min(b.hi - 1))
    } else {
        Interval::from_zero(a.hi)
    }
}

fn conjunction(a: Interval, b: Interval) -> Interval
    ensures { result ≡ bounds.conjunction a b }
{
    Interval::from_zero(a.hi.min(b.hi))
}

/// All ones up to the highest bit of `n` that is set.
pub(crate) fn ones_of(n: u64) -> u64
    ensures { result ≡ bounds.power_above n - 1 }
{
    let zeros = n.leading_zeros();
    if zeros < 64 { u64::MAX >> zeros } else { 0 }
}

fn disjunction(a: Interval, b: Interval) -> Interval
    ensures { result ≡ bounds.disjunction a b }
{
    Interval::from_zero(ones_of(a.hi.max(b.hi)))
}

fn shifted_left(bits: Bits, a: Interval, count: u32) -> Interval
    requires { count < 64 }
    ensures { result ≡ bounds.shifted_left bits a count }
{
    fitting(bits, (a.lo as u128) << count, (a.hi as u128) << count)
}

fn shifted_right(a: Interval, count: u32) -> Interval
    requires { count < 64 }
    ensures { result ≡ bounds.shifted_right a count }
{
    Interval {
        lo: a.lo >> count,
        hi: a.hi >> count,
    }
}

/// The least number whose sign bit is set.
pub fn sign_bit(bits: Bits) -> u64
    ensures { result ≡ bounds.sign_bit bits }
{
    match bits {
        Bits::Bits64 => 1 << 63,
        Bits::Bits32 => 1 << 31,
    }
}

fn shifted_signed(bits: Bits, a: Interval, count: u32) -> Interval
    requires { count < 64 }
    ensures { result ≡ bounds.shifted_signed bits a count }
{
    if a.hi < sign_bit(bits) {
        shifted_right(a, count)
    } else {
        Interval::all_of(bits)
    }
}

/// The shift count of a single number, masked by the width.
pub(crate) fn count_of(bits: Bits, b: Interval) -> u32
    ensures count { result ≡ bounds.count_of bits b }
    ensures masked { result < 64 }
{
    match bits {
        Bits::Bits64 => (b.lo % 64) as u32,
        Bits::Bits32 => (b.lo % 32) as u32,
    }
}

/// The interval of an operation's results, for operands of the class.
pub(crate) fn bounds_of(bits: Bits, op: AluOp, a: Interval, b: Interval) -> Interval
    ensures { result ≡ bounds.bounds bits op a b }
{
    match op {
        AluOp::Add => sum(bits, a, b),
        AluOp::Sub => difference(bits, a, b),
        AluOp::Mul => product(bits, a, b),
        AluOp::Div => quotient(a, b),
        AluOp::Mod => remainder(a, b),
        AluOp::And => conjunction(a, b),
        AluOp::Or | AluOp::Xor => disjunction(a, b),
        AluOp::Lsh if b.is_just() => shifted_left(bits, a, count_of(bits, b)),
        AluOp::Rsh if b.is_just() => shifted_right(a, count_of(bits, b)),
        AluOp::Arsh if b.is_just() => shifted_signed(bits, a, count_of(bits, b)),
        AluOp::Sdiv | AluOp::Smod => Interval::all_of(bits),
        AluOp::Lsh | AluOp::Rsh | AluOp::Arsh => Interval::all_of(bits),
    }
}
