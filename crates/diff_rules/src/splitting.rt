//! Splits a place by the segments of one more dimension.

ghost use Rattle.std.specs.Prelude.{◌≡◌, ◌++◌, ◌∷◌, [], IfOk, OnOk, List, ℕ, true, Some};
ghost use Rattle.std.specs.Prelude.{◌<◌, ◌≤◌, option_map, slice_index, slice_set};
ghost use Rattle.diff_rules.specs.Classes.{Agrees};
ghost use Rattle.diff_rules.specs.Search as specs;

use crate::possible::{is_possible, possible_segments};
use diff_space::{Group, Space, Work};
use std::alloc::{AllocError, Global};
use std::marker::Model;

/// A segment for some of the dimensions: a partial place whose classes are still to be made.
#[derive(Drop)]
pub(crate) struct PendingPlace {
    pub partial: Vec<Option<u16>>,
}

impl Model for PendingPlace {
    ghost use Rattle.diff_rules.specs.Truths as specs;

    ghost Value = { specs.PartialPlace };

    ghost view = { λ p. p.partial.items };
}

// The partial place with the segment of one more dimension.
fn with_segment(
    alloc: Global,
    partial: &[Option<u16>],
    dimension: usize,
    segment: u16,
) -> Result<PendingPlace, AllocError>
    ensures { IfOk result (λ p. p ≡ slice_set partial.now dimension (Some segment)) }
{
    let mut more = Vec::from_slice(alloc, partial)?;
    if dimension < more.len() {
        more[dimension] = Some(segment);
        return Ok(PendingPlace { partial: more });
    }
    Ok(PendingPlace { partial: more })
}

// Adds the place with one more segment, if that is possible.
fn add_segment(
    alloc: Global,
    possible: &Option<Vec<bool>>,
    left: &mut Vec<PendingPlace>,
    partial: &[Option<u16>],
    dimension: usize,
    segment: u16,
) -> Result<(), AllocError>
    ensures kept { OnOk result ((place : List ℕ) → specs.IsPending left.old.items place
        → specs.IsPending left.new.items place) }
    ensures here { OnOk result ((place : List ℕ) → Agrees place partial.now
        → specs.is_possible (option_map (λ marks. marks.items) possible.now)
        (slice_index place dimension) ≡ true
        → slice_index place dimension ≡ segment → specs.IsPending left.new.items place) }
{
    if !is_possible(possible, segment) {
        return Ok(());
    }
    let more = with_segment(alloc, partial, dimension, segment)?;
    left.push(more)?;
    Ok(())
}

/// The most segments of a dimension.
const MOST_SEGMENTS: usize = 65535;

// Adds the place with each possible segment of a dimension; the first segment is added last.
fn split(
    alloc: Global,
    possible: &Option<Vec<bool>>,
    left: &mut Vec<PendingPlace>,
    partial: &[Option<u16>],
    dimension: usize,
    segments: usize,
) -> Result<(), AllocError>
    requires { segments ≤ 65535 }
    ensures kept { OnOk result ((place : List ℕ) → specs.IsPending left.old.items place
        → specs.IsPending left.new.items place) }
    ensures all { OnOk result ((place : List ℕ) → Agrees place partial.now
        → specs.is_possible (option_map (λ marks. marks.items) possible.now)
        (slice_index place dimension) ≡ true
        → slice_index place dimension < segments → specs.IsPending left.new.items place) }
{
    let mut segment = segments;
    while segment > 0 {
        segment -= 1;
        add_segment(alloc, possible, left, partial, dimension, segment as u16)?;
    }
    Ok(())
}

// How much is looked at to split a place: the tuples of the dimension's group, and a copy of the
// place for each segment.
fn split_work(space: &Space, dimension: usize, segments: usize) -> usize {
    let copies = space.dimensions.len().saturating_add(30);
    let mut work = copies.saturating_mul(segments);
    for group in &space.groups {
        if group.dimensions.contains(&dimension) {
            work = work.saturating_add(group.tuples.len().saturating_mul(4));
        }
    }
    work
}

// Adds the place with each possible segment of a dimension.
fn split_within(
    alloc: Global,
    groups: &[Group],
    left: &mut Vec<PendingPlace>,
    partial: &[Option<u16>],
    dimension: usize,
    segments: usize,
) -> Result<(), AllocError>
    requires { segments ≤ 65535 }
    ensures kept { OnOk result ((place : List ℕ) → specs.IsPending left.old.items place
        → specs.IsPending left.new.items place) }
    ensures all { OnOk result ((place : List ℕ) → Agrees place partial.now
        → specs.HasTuples groups.now place → slice_index place dimension < segments
        → specs.IsPending left.new.items place) }
{
    let possible = possible_segments(alloc, groups, partial, dimension, segments)?;
    split(alloc, &possible, left, partial, dimension, segments)
}

/// Adds the place with each segment of a dimension that some machine may have besides, if there is
/// this dimension, and enough work is left.
pub(crate) fn split_at(
    alloc: Global,
    space: &Space,
    left: &mut Vec<PendingPlace>,
    pending: &PendingPlace,
    dimension: usize,
    work: &mut Work,
) -> Result<bool, AllocError>
    ensures { (classes : _) → IfOk result (λ done. done ≡ true → specs.LosesNoMachine space.now
        classes (left.old.items ++ pending.now ∷ []) classes left.new.items) }
{
    match space.dimensions.get(dimension) {
        None => Ok(false),
        Some(of) => {
            let segments = of.cells();
            if segments > MOST_SEGMENTS || !work.spend(split_work(space, dimension, segments)) {
                return Ok(false);
            }
            split_within(
                alloc,
                &space.groups,
                left,
                &pending.partial,
                dimension,
                segments,
            )?;
            Ok(true)
        }
    }
}
