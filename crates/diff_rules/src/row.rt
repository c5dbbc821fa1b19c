//! Rows: machines in states, by sets of segments, and what they get from both rules.

ghost use Rattle.std.specs.Prelude.{◌≡◌, ◌-◌, ◌<◌, length};
ghost use Rattle.std.specs.List.{list_all};
ghost use Rattle.diff_rules.specs.Rows as rows;
ghost use Rattle.diff_space.specs.Numbers.{are_rising, is_rising_from};

use diff_space::Dimension;
use std::marker::Model;

/// Some segments of a dimension in their order, but not all.
#[derive(Drop)]
pub struct SegmentSet {
    pub dimension: usize,
    pub segments: Vec<u16>,
}

impl Model for SegmentSet {
    ghost use Rattle.diff_rules.specs.Rows as specs;

    ghost Value = { specs.SegmentSet };

    ghost view = { λ s. record { dimension = s.dimension; segments = s.segments.items } };
}

/// The machines in states whose segment is in each of these sets. They get `current` from the old
/// rule, and `next` from the new one.
#[derive(Drop)]
pub struct DiffRow {
    pub current: u8,
    pub next: u8,
    pub sets: Vec<SegmentSet>,
}

impl Model for DiffRow {
    ghost use Rattle.diff_rules.specs.Rows as specs;

    ghost Value = { specs.DiffRow };

    ghost view = { λ r. record { current = r.current; next = r.next; sets = r.sets.items } };
}

/// Whether one of the segments is this one. In rising segments it is found soon.
pub(crate) fn has_segment(segments: &[u16], segment: u16) -> bool
    ensures { result ≡ rows.has_segment segments.now segment }
{
    segments.binary_search(&segment).is_ok() || segments.contains(&segment)
}

fn rise_from(last: usize, first: u16, others: &[u16]) -> bool
    ensures { result ≡ is_rising_from last first others.now }
{
    let mut before = first;
    let mut left = others;
    while let [segment, rest @ ..] = left {
        if *segment <= before {
            return false;
        }
        before = *segment;
        left = rest;
    }
    before as usize <= last
}

// Whether there is a segment, and the segments rise up to at most `last`.
fn rise(last: usize, segments: &[u16]) -> bool
    ensures { result ≡ are_rising last segments.now }
{
    match segments {
        [first, others @ ..] => rise_from(last, *first, others),
        [] => false,
    }
}

fn is_set(dimensions: &[Dimension], set: &SegmentSet) -> bool
    ensures { result ≡ rows.is_set dimensions.now set.now }
{
    match dimensions.get(set.dimension) {
        None => false,
        Some(dimension) => {
            let count = dimension.cells();
            rise(count.saturating_sub(1), &set.segments) && set.segments.len() < count
        }
    }
}

fn are_sets(dimensions: &[Dimension], sets: &[SegmentSet]) -> bool
    ensures { result ≡ list_all (rows.is_set dimensions.now) sets.now }
{
    sets.iter().all(|set| is_set(dimensions, set))
}

/// Whether the row's contents differ, and each set has some segments of a dimension, but not all.
pub(crate) fn is_row(dimensions: &[Dimension], row: &DiffRow) -> bool
    ensures { result ≡ rows.is_row dimensions.now row.now }
{
    row.current != row.next && are_sets(dimensions, &row.sets)
}
