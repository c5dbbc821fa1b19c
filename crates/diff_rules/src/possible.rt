//! Which segments of a dimension some machine may have besides those of a partial place: the tuples
//! of the dimension's group have them.

ghost use Rattle.std.specs.Prelude.{◌≡◌, ◌<◌, IfOk, IfSome, List, ℕ, length, option_map, replicate};
ghost use Rattle.std.specs.Prelude.{slice_index, slice_index_or, slice_set, true, false};
ghost use Rattle.diff_rules.specs.Classes.{Agrees};
ghost use Rattle.diff_rules.specs.Search as specs;
ghost use Rattle.diff_space.specs.Groups.{HasTuple, all_cells, cells_at};

use crate::truth::partial_at;
use diff_space::{Group, Tuple};
use std::alloc::{AllocError, Global};

fn fits_segment(own: Option<u16>, segment: u16) -> bool
    ensures { result ≡ specs.fits_segment own segment }
{
    match own {
        Some(own) => own == segment,
        None => true,
    }
}

fn fits(dimensions: &[usize], segments: &[u16], partial: &[Option<u16>]) -> bool
    ensures { result ≡ specs.fits dimensions.now segments.now partial.now }
{
    let mut places = dimensions;
    let mut left = segments;
    while let [dimension, more @ ..] = places {
        let [segment, others @ ..] = left else {
            return true;
        };
        if !fits_segment(partial_at(partial, *dimension), *segment) {
            return false;
        }
        places = more;
        left = others;
    }
    true
}

// The segment of a dimension in a tuple.
fn segment_in(dimensions: &[usize], segments: &[u16], dimension: usize) -> Option<u16>
    ensures { result ≡ specs.segment_in dimensions.now segments.now dimension }
{
    let mut places = dimensions;
    let mut left = segments;
    while let [place, more @ ..] = places {
        let [segment, others @ ..] = left else {
            return None;
        };
        if *place == dimension {
            return Some(*segment);
        }
        places = more;
        left = others;
    }
    None
}

fn mark_segment(marks: &mut [bool], segment: u16)
    ensures { marks.new ≡ slice_set marks.old segment true }
{
    let place = segment as usize;
    if place < marks.len() {
        marks[place] = true;
    }
}

// Marks the dimension's segment of a tuple that has the segments of the partial place.
fn mark_tuple(
    marks: &mut [bool],
    dimensions: &[usize],
    segments: &[u16],
    partial: &[Option<u16>],
    dimension: usize,
)
    ensures { marks.new ≡ specs.marked_by dimensions.now partial.now dimension marks.old
        segments.now }
{
    if !fits(dimensions, segments, partial) {
        return;
    }
    if let Some(segment) = segment_in(dimensions, segments, dimension) {
        mark_segment(marks, segment);
    }
}

fn mark_tuples(
    marks: &mut [bool],
    dimensions: &[usize],
    tuples: &[Tuple],
    partial: &[Option<u16>],
    dimension: usize,
)
    ensures { marks.new ≡ specs.marked_by_all dimensions.now partial.now dimension marks.old
        (all_cells tuples.now) }
{
    let mut left = tuples;
    while let [tuple, others @ ..] = left {
        mark_tuple(marks, dimensions, &tuple.cells, partial, dimension);
        left = others;
    }
}

// The segments of a dimension in those tuples of its group that have the segments of the partial
// place.
fn marks_of(
    alloc: Global,
    group: &Group,
    partial: &[Option<u16>],
    dimension: usize,
    segments: usize,
) -> Result<Vec<bool>, AllocError>
    ensures { IfOk result (λ marks. marks.items ≡ specs.marked_by_all group.now.dimensions
        partial.now dimension (replicate segments false) (all_cells group.now.tuples)) }
{
    let mut marks = vec![in alloc; false; segments]?;
    mark_tuples(
        marks.as_mut_slice(),
        &group.dimensions,
        &group.tuples,
        partial,
        dimension,
    );
    Ok(marks)
}

// The place of the group that has a dimension.
fn group_with(groups: &[Group], dimension: usize) -> Option<usize>
    ensures { IfSome result (λ place. place < length groups.now) }
{
    for place in 0..groups.len() {
        let group = &groups[place];
        if group.dimensions.contains(&dimension) {
            return Some(place);
        }
    }
    None
}

// Whether each segment of a dimension is possible, if the group has it.
fn possible_in(
    alloc: Global,
    group: &Group,
    partial: &[Option<u16>],
    dimension: usize,
    segments: usize,
) -> Result<Option<Vec<bool>>, AllocError>
    ensures { (place : List ℕ) → Agrees place partial.now
        → HasTuple group.now (cells_at place group.now.dimensions)
        → slice_index place dimension < segments
        → IfOk result (λ o. specs.is_possible (option_map (λ marks. marks.items) o)
        (slice_index place dimension) ≡ true) }
{
    if !group.dimensions.contains(&dimension) {
        return Ok(None);
    }
    let marks = marks_of(alloc, group, partial, dimension, segments)?;
    Ok(Some(marks))
}

/// Whether each segment of a dimension is possible for some machine with a partial place; none if
/// no group has the dimension, and so all are.
pub(crate) fn possible_segments(
    alloc: Global,
    groups: &[Group],
    partial: &[Option<u16>],
    dimension: usize,
    segments: usize,
) -> Result<Option<Vec<bool>>, AllocError>
    ensures { (place : List ℕ) → Agrees place partial.now → specs.HasTuples groups.now place
        → slice_index place dimension < segments
        → IfOk result (λ o. specs.is_possible (option_map (λ marks. marks.items) o)
        (slice_index place dimension) ≡ true) }
{
    let Some(at) = group_with(groups, dimension) else {
        return Ok(None);
    };
    possible_in(alloc, &groups[at], partial, dimension, segments)
}

fn is_marked(marks: &[bool], place: usize) -> bool
    ensures { result ≡ slice_index_or marks.now place false }
{
    if place < marks.len() {
        marks[place]
    } else {
        false
    }
}

/// Whether a segment is one of the possible ones.
pub(crate) fn is_possible(possible: &Option<Vec<bool>>, segment: u16) -> bool
    ensures { result ≡ specs.is_possible (option_map (λ marks. marks.items) possible.now)
        segment }
{
    match possible {
        Some(marks) => is_marked(marks.as_slice(), segment as usize),
        None => true,
    }
}
