//! Checks rows against classes. All that is promised of rows follows from this check. A partial
//! place has a segment for some of the dimensions.

ghost use Rattle.std.specs.Prelude.{◌≡◌};
ghost use Rattle.std.specs.List.{list_all};
ghost use Rattle.diff_rules.specs.Checks as specs;
ghost use Rattle.diff_rules.specs.Rows.{is_row};

use crate::classes::PlaceClass;
use crate::row::{DiffRow, SegmentSet, has_segment, is_row};
use crate::truth::partial_at;
use diff_space::Dimension;

// Whether the partial place has a segment of the set's dimension, and the set has that segment.
fn is_in_set(partial: &[Option<u16>], set: &SegmentSet) -> bool
    ensures { result ≡ specs.in_set partial.now set.now }
{
    match partial_at(partial, set.dimension) {
        Some(segment) => has_segment(&set.segments, segment),
        None => false,
    }
}

// Whether the partial place has a segment of the set's dimension, and the set lacks that segment.
fn is_out_of_set(partial: &[Option<u16>], set: &SegmentSet) -> bool
    ensures { result ≡ specs.out_of_set partial.now set.now }
{
    match partial_at(partial, set.dimension) {
        Some(segment) => !has_segment(&set.segments, segment),
        None => false,
    }
}

// Whether all machines with these segments are in the row.
fn has_all(row: &DiffRow, partial: &[Option<u16>]) -> bool
    ensures { result ≡ specs.has_all row.now partial.now }
{
    row.sets.iter().all(|set| is_in_set(partial, set))
}

// Whether no machine with these segments is in the row.
fn has_none(partial: &[Option<u16>], row: &DiffRow) -> bool
    ensures { result ≡ specs.has_none partial.now row.now }
{
    let mut left = row.sets.as_slice();
    while let [set, others @ ..] = left {
        if is_out_of_set(partial, set) {
            return true;
        }
        left = others;
    }
    false
}

fn is_row_of(row: &DiffRow, class: &PlaceClass) -> bool
    ensures { result ≡ specs.is_row_of row.now class.now }
{
    row.current == class.current && row.next == class.next && has_all(row, &class.partial)
}

fn have_none(rows: &[DiffRow], partial: &[Option<u16>]) -> bool
    ensures { result ≡ specs.have_none rows.now partial.now }
{
    rows.iter().all(|row| has_none(partial, row))
}

// Whether the class is in exactly one row, which says what it gets.
fn is_in_one(rows: &[DiffRow], class: &PlaceClass) -> bool
    ensures { result ≡ specs.is_in_one rows.now class.now }
{
    let mut left = rows;
    while let [row, others @ ..] = left {
        if is_row_of(row, class) {
            return have_none(others, &class.partial);
        }
        if !has_none(&class.partial, row) {
            return false;
        }
        left = others;
    }
    false
}

fn is_right(rows: &[DiffRow], class: &PlaceClass) -> bool
    ensures { result ≡ specs.is_right rows.now class.now }
{
    if class.current == class.next {
        have_none(rows, &class.partial)
    } else {
        is_in_one(rows, class)
    }
}

/// Whether each class that gets another content is in exactly one row, which says so, and each
/// other class is in no row.
pub(crate) fn are_right(rows: &[DiffRow], classes: &[PlaceClass]) -> bool
    ensures { result ≡ specs.are_right rows.now classes.now }
{
    classes.iter().all(|class| is_right(rows, class))
}

/// Whether each row has sets of these dimensions.
pub(crate) fn are_rows(dimensions: &[Dimension], rows: &[DiffRow]) -> bool
    ensures { result ≡ list_all (is_row dimensions.now) rows.now }
{
    rows.iter().all(|row| is_row(dimensions, row))
}
