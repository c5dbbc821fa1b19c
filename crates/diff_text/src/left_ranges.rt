//! How many takes a cell grants, as ranges of numbers. They are compared with the set that they
//! were made from.

ghost use Rattle.std.specs.Prelude.{◌≡◌, All, IfOk, IfSome, map, true};
ghost use Rattle.std.specs.List.{list_all};
ghost use Rattle.diff_space.specs.Lines.{IsLine};
ghost use Rattle.diff_space.specs.Scopes.{Scope};
ghost use Rattle.diff_text.specs.Grants as specs;
ghost use Rattle.diff_text.specs.Tables as tables;

use crate::intervals::{NumberRange, intervals_of};
use crate::matching::agrees_at;
use diff_rules::SegmentSet;
use diff_space::{Dimension, decides};
use rule_lang::Comparison;
use std::alloc::{AllocError, Global};

fn has_number(range: NumberRange, number: u128) -> bool
    ensures { result ≡ specs.has_number range number }
{
    range.low <= number && number <= range.high
}

fn have_number(ranges: &[NumberRange], number: u128) -> bool
    ensures { result ≡ specs.have_number ranges.now number }
{
    let mut left = ranges;
    while let [range, others @ ..] = left {
        if has_number(*range, number) {
            return true;
        }
        left = others;
    }
    false
}

// Whether it has numbers of the dimension, and no segment has numbers in it and others.
fn is_cut(dimension: &Dimension, range: NumberRange) -> bool
    ensures { result ≡ tables.is_cut dimension.now range }
{
    range.low <= range.high
        && range.high <= dimension.last
        && decides(&dimension.starts, dimension.last, Comparison::Ge, range.low)
        && decides(
            &dimension.starts,
            dimension.last,
            Comparison::Le,
            range.high,
        )
}

fn are_cut(dimension: &Dimension, ranges: &[NumberRange]) -> bool
    ensures { result ≡ list_all (tables.is_cut dimension.now) ranges.now }
{
    let mut left = ranges;
    while let [range, others @ ..] = left {
        if !is_cut(dimension, *range) {
            return false;
        }
        left = others;
    }
    true
}

// Whether the ranges have the numbers at which exactly these segments begin.
fn ranges_agree(segments: &[u16], ranges: &[NumberRange], starts: &[u128]) -> bool
    ensures { result ≡ tables.agrees segments.now 0
        (map (specs.have_number ranges.now) starts.now) }
{
    let mut segment: usize = 0;
    let mut left = starts;
    while let [start, others @ ..] = left {
        if !agrees_at(segments, segment, have_number(ranges, *start)) {
            return false;
        }
        segment += 1;
        left = others;
    }
    true
}

// Whether the ranges have exactly the numbers of these segments.
fn are_ranges(dimension: &Dimension, set: &SegmentSet, ranges: &[NumberRange]) -> bool
    ensures { (x : Scope) → IsLine x dimension.now → result ≡ true
        → specs.AreRangesOf x dimension.now set.now ranges.now }
{
    if !are_cut(dimension, ranges) {
        return false;
    }
    ranges_agree(&set.segments, ranges, &dimension.starts)
}

/// The ranges of a set's numbers.
pub(crate) fn ranges_of(
    alloc: Global,
    dimension: &Dimension,
    set: &SegmentSet,
) -> Result<Option<Vec<NumberRange>>, AllocError>
    ensures { (x : Scope) → IsLine x dimension.now → IfOk result (λ o. IfSome o (λ ranges.
        specs.AreRangesOf x dimension.now set.now ranges.items)) }
{
    let ranges = intervals_of(alloc, dimension, &set.segments)?;
    if are_ranges(dimension, set, &ranges) {
        return Ok(Some(ranges));
    }
    Ok(None)
}
