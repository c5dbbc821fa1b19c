//! Whether tables are those of a row's sets.

ghost use Rattle.std.specs.Prelude.{◌≡◌, option_copied, slice_get};
ghost use Rattle.diff_rules.specs.Rows as rows;
ghost use Rattle.diff_text.specs.Conditions as conditions;
ghost use Rattle.diff_text.specs.Tables as specs;

use crate::truth_table::Table;
use diff_rules::SegmentSet;
use diff_space::{Coordinate, Dimension};

/// Whether one of the segments is this one.
pub(crate) fn has_segment(segments: &[u16], segment: usize) -> bool
    ensures { result ≡ rows.has_segment segments.now segment }
{
    let mut left = segments;
    while let [first, others @ ..] = left {
        if *first as usize == segment {
            return true;
        }
        left = others;
    }
    false
}

fn is_takes(of: &Coordinate) -> bool
    ensures { result ≡ conditions.is_takes of.now }
{
    match of {
        Coordinate::Takes { .. } => true,
        _ => false,
    }
}

/// Whether a set is of cells that grant takes.
pub(crate) fn is_grant(dimensions: &[Dimension], set: &SegmentSet) -> bool
    ensures { result ≡ conditions.is_grant (slice_get dimensions.now set.now.dimension) }
{
    match dimensions.get(set.dimension) {
        Some(dimension) => is_takes(&dimension.of),
        None => false,
    }
}

/// Whether the segment is one of these exactly if a part holds at it.
pub(crate) fn agrees_at(segments: &[u16], segment: usize, holds: bool) -> bool
    ensures { result ≡ specs.agrees_at segments.now segment holds }
{
    if holds {
        has_segment(segments, segment)
    } else {
        !has_segment(segments, segment)
    }
}

/// Whether these truths of a dimension's segments hold at exactly these segments.
pub(crate) fn agrees(segments: &[u16], holds: &[bool]) -> bool
    ensures { result ≡ specs.agrees segments.now 0 holds.now }
{
    let mut segment: usize = 0;
    let mut left = holds;
    while let [first, others @ ..] = left {
        if !agrees_at(segments, segment, *first) {
            return false;
        }
        segment += 1;
        left = others;
    }
    true
}

fn is_table_of(set: &SegmentSet, table: &Table) -> bool
    ensures { result ≡ specs.is_table_of set.now table.now }
{
    set.dimension == table.dimension && agrees(&set.segments, &table.holds)
}

/// Whether there is one table for each set, but for those of cells that grant takes.
pub(crate) fn are_tables_of(dimensions: &[Dimension], sets: &[SegmentSet], tables: &[Table]) -> bool
    ensures { result ≡ specs.are_tables_of dimensions.now sets.now tables.now }
{
    let mut left = sets;
    let mut right = tables;
    while let [set, others @ ..] = left {
        if !is_grant(dimensions, set) {
            let [table, rest @ ..] = right else {
                return false;
            };
            if !is_table_of(set, table) {
                return false;
            }
            right = rest;
        }
        left = others;
    }
    right.is_empty()
}
