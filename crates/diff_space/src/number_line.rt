//! A line of numbers in cells. Each cell begins at a start, and has the numbers up to the next one.

ghost use Rattle.std.specs.Prelude.{◌≡◌, ◌+◌, ◌<◌, ◌^◌, ◌==◌, All, length};
ghost use Rattle.std.specs.List.{list_any};
ghost use Rattle.diff_space.specs.Numbers as specs;

use rule_lang::Comparison;
use std::alloc::AllocError;

/// The base of a version's number, whose digits are the version's four numbers.
const WORD: u128 = 0x1_0000_0000;

/// The most cells of a line.
pub(crate) const MOST_CELLS: usize = 65535;

/// A version as one number, below 2^128. Such numbers compare as the versions do.
pub(crate) fn version_number(version: [u32; 4]) -> u128
    ensures number { result ≡ specs.version_number version }
    ensures digits { All (λ n. n < 2 ^ 32) version }
{
    let upper = version[0] as u128 * WORD + version[1] as u128;
    (upper * WORD + version[2] as u128) * WORD + version[3] as u128
}

fn has_start(starts: &[u128], number: u128) -> bool
    ensures { result ≡ list_any (λ start. start == number) starts.now }
{
    let mut left = starts;
    while let [start, others @ ..] = left {
        if *start == number {
            return true;
        }
        left = others;
    }
    false
}

// Whether no cell has numbers on both sides of a cut before the number.
fn has_cut(starts: &[u128], last: u128, number: u128) -> bool
    ensures { result ≡ specs.has_cut starts.now last number }
{
    let first = match starts {
        [first, ..] => *first,
        [] => 0,
    };
    number <= first || last < number || has_start(starts, number)
}

// Whether no cell has numbers on both sides of a cut after the number.
fn has_cut_after(starts: &[u128], last: u128, number: u128) -> bool
    ensures { result ≡ specs.has_cut starts.now last (number + 1) }
{
    last <= number || has_cut(starts, last, number + 1)
}

/// Whether all numbers of a cell, up to the last one, compare alike with this number.
pub fn decides(starts: &[u128], last: u128, comparison: Comparison, number: u128) -> bool
    ensures { result ≡ specs.decides starts.now last comparison number }
{
    match comparison {
        Comparison::Lt | Comparison::Ge => has_cut(starts, last, number),
        Comparison::Le | Comparison::Gt => has_cut_after(starts, last, number),
        Comparison::Eq | Comparison::Ne => {
            has_cut(starts, last, number) && has_cut_after(starts, last, number)
        }
    }
}

/// Whether there is a start, each is above the one before, and the last one isn't above `last`.
pub(crate) fn are_rising(starts: &[u128], last: u128) -> bool
    ensures { result ≡ specs.are_rising last starts.now }
{
    let [first, others @ ..] = starts else {
        return false;
    };
    let mut before = *first;
    let mut left = others;
    while let [start, rest @ ..] = left {
        if *start <= before {
            return false;
        }
        before = *start;
        left = rest;
    }
    before <= last
}

fn count_below(starts: &[u128], number: u128) -> usize {
    let mut count: usize = 0;
    for start in starts {
        if *start < number {
            count = count.saturating_add(1);
        }
    }
    count
}

/// Adds a start in its order, unless it is there, or lies outside of the line's numbers. A line has
/// at most 65535 cells; a further start isn't added.
pub(crate) fn add_start(starts: &mut Vec<u128>, last: u128, start: u128) -> Result<(), AllocError> {
    let place = count_below(starts, start);
    if has_start(starts, start) || place == 0 || start > last || starts.len() >= MOST_CELLS {
        return Ok(());
    }
    if place <= starts.len() {
        starts.insert(place, start)?;
    }
    Ok(())
}

/// Adds the cuts that a comparison with a number needs.
pub(crate) fn add_cuts(
    starts: &mut Vec<u128>,
    last: u128,
    comparison: Comparison,
    number: u128,
) -> Result<(), AllocError> {
    let after = number.saturating_add(1);
    match comparison {
        Comparison::Lt | Comparison::Ge => add_start(starts, last, number),
        Comparison::Le | Comparison::Gt => add_start(starts, last, after),
        Comparison::Eq | Comparison::Ne => {
            add_start(starts, last, number)?;
            add_start(starts, last, after)
        }
    }
}

/// The cell of a number, on a line of at most 65535 cells: the last one that begins at the number
/// or below.
pub(crate) fn cell_at(starts: &[u128], number: u128) -> u16
    ensures { length starts.now < 2 ^ 16 → result ≡ specs.cell_at starts.now number }
{
    let mut count: u16 = 0;
    let mut left = starts;
    while let [start, others @ ..] = left {
        if *start <= number {
            count = count.saturating_add(1);
        }
        left = others;
    }
    count.saturating_sub(1)
}
