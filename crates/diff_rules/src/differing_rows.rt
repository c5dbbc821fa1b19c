//! Merges classes into rows. Dimension by dimension, from the last to the first, those that differ
//! only there are merged. No contract describes the result; it is checked afterwards.

ghost use Rattle.std.specs.Prelude.{◌<◌, IfSome, length};

use crate::classes::PlaceClass;
use crate::row::{DiffRow, SegmentSet, has_segment};
use diff_space::Dimension;
use std::alloc::{AllocError, Global};
use std::collections::BTreeMap;

fn row_of(alloc: Global, class: &PlaceClass) -> Result<DiffRow, AllocError> {
    let mut sets = Vec::new(alloc);
    for dimension in 0..class.partial.len() {
        if let Some(segment) = class.partial[dimension] {
            let mut segments = Vec::new(alloc);
            segments.push(segment)?;
            sets.push(SegmentSet {
                dimension,
                segments,
            })?;
        }
    }
    Ok(DiffRow {
        current: class.current,
        next: class.next,
        sets,
    })
}

// The position of the set of a dimension.
fn find_set(sets: &[SegmentSet], dimension: usize) -> Option<usize>
    ensures { IfSome result (λ place. place < length sets.now) }
{
    for place in 0..sets.len() {
        let set = &sets[place];
        if set.dimension == dimension {
            return Some(place);
        }
    }
    None
}

const PRIME: u64 = 1099511628211;

fn mixed(hash: u64, number: u64) -> u64 {
    (hash ^ number).wrapping_mul(PRIME)
}

fn hash_of_set(hash: u64, set: &SegmentSet) -> u64 {
    let mut hash = mixed(hash, set.dimension as u64);
    for segment in &set.segments {
        hash = mixed(hash, *segment as u64);
    }
    hash
}

// A hash of a row without its set of one dimension.
fn hash_without(row: &DiffRow, dimension: usize) -> u64 {
    let mut hash = mixed(row.current as u64, row.next as u64);
    for set in &row.sets {
        if set.dimension != dimension {
            hash = hash_of_set(hash, set);
        }
    }
    hash
}

fn is_same_set(set: &SegmentSet, other: &SegmentSet) -> bool {
    set.dimension == other.dimension && set.segments.as_slice() == other.segments.as_slice()
}

// Whether the sets differ in at most the segments of one dimension.
fn differ_only_in(sets: &[SegmentSet], others: &[SegmentSet], dimension: usize) -> bool {
    for k in 0..sets.len() {
        if k >= others.len() {
            return false;
        }
        let set = &sets[k];
        let other = &others[k];
        let both_here = set.dimension == dimension && other.dimension == dimension;
        if !both_here && !is_same_set(set, other) {
            return false;
        }
    }
    sets.len() == others.len()
}

fn is_joined(row: &DiffRow, other: &DiffRow, dimension: usize) -> bool {
    row.current == other.current
        && row.next == other.next
        && differ_only_in(&row.sets, &other.sets, dimension)
}

fn add_segments(set: &mut SegmentSet, other: &SegmentSet) -> Result<(), AllocError> {
    for segment in &other.segments {
        if !has_segment(&set.segments, *segment) {
            set.segments.push(*segment)?;
        }
    }
    Ok(())
}

fn has_count(set: &SegmentSet, segments: usize) -> bool {
    set.segments.len() == segments
}

fn sort_segments(set: &mut SegmentSet) {
    set.segments.as_mut_slice().sort_unstable();
}

// Adds the segments of another row's set of the dimension.
fn add_set(row: &mut DiffRow, other: &DiffRow, dimension: usize) -> Result<(), AllocError> {
    let Some(from) = find_set(&other.sets, dimension) else {
        return Ok(());
    };
    let Some(place) = find_set(&row.sets, dimension) else {
        return Ok(());
    };
    add_segments(&mut row.sets[place], &other.sets[from])
}

fn add_row(
    merged: &mut Vec<DiffRow>,
    places: &mut BTreeMap<u64, usize>,
    row: DiffRow,
    dimension: usize,
) -> Result<(), AllocError> {
    let hash = hash_without(&row, dimension);
    if let Some(place) = places.get(&hash).copied() {
        if place < merged.len() && is_joined(&merged[place], &row, dimension) {
            return add_set(&mut merged[place], &row, dimension);
        }
    }
    let _before = places.insert(hash, merged.len())?;
    merged.push(row)?;
    Ok(())
}

// Leaves out a set that has all segments of the dimension, and otherwise orders its segments.
fn leave_out(row: &mut DiffRow, dimension: usize, segments: usize) {
    if let Some(place) = find_set(&row.sets, dimension) {
        if has_count(&row.sets[place], segments) {
            let _set = row.sets.remove(place);
        } else {
            sort_segments(&mut row.sets[place]);
        }
    }
}

fn merged_at(
    alloc: Global,
    rows: Vec<DiffRow>,
    dimension: usize,
    segments: usize,
) -> Result<Vec<DiffRow>, AllocError> {
    let mut merged = Vec::new(alloc);
    let mut places = BTreeMap::new(alloc);
    for row in rows {
        add_row(&mut merged, &mut places, row, dimension)?;
    }
    for row in merged.iter_mut() {
        leave_out(row, dimension, segments);
    }
    Ok(merged)
}

fn rows_that_differ(alloc: Global, classes: &[PlaceClass]) -> Result<Vec<DiffRow>, AllocError> {
    let mut rows = Vec::new(alloc);
    for class in classes {
        if class.current != class.next {
            rows.push(row_of(alloc, class)?)?;
        }
    }
    Ok(rows)
}

/// Rows that cover the classes that get another content.
pub(crate) fn rows_of(
    alloc: Global,
    dimensions: &[Dimension],
    classes: &[PlaceClass],
) -> Result<Vec<DiffRow>, AllocError> {
    let mut rows = rows_that_differ(alloc, classes)?;
    let mut k = dimensions.len();
    while k > 0 {
        k -= 1;
        rows = merged_at(alloc, rows, k, dimensions[k].cells())?;
    }
    Ok(rows)
}
