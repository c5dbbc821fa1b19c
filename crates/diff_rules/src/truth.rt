//! Whether a test of a plan holds, by segments of some dimensions.

ghost use Rattle.std.specs.Prelude.{◌≡◌, reverse, slice_get};
ghost use Rattle.diff_rules.specs.Truths as specs;
ghost use Rattle.diff_space.specs.Machines as machines;
ghost use Rattle.diff_space.specs.Coordinates as coordinates;

use diff_space::{Dimension, PlanTest};
use rule_eval::allows;
use rule_lang::Comparison;

/// Whether a condition holds or fails; or the dimension whose segment it needs; or that segments
/// don't decide it.
#[derive(Clone, Copy)]
pub(crate) enum Truth {
    Holds,
    Fails,
    Needs(usize),
    Unclear,
}

impl Truth {
    /// What a truth value says.
    pub fn of(holds: bool) -> Truth
        ensures { result ≡ specs.decided holds }
    {
        if holds { Truth::Holds } else { Truth::Fails }
    }

    /// The result of `not`.
    pub fn negated(self) -> Truth
        ensures { result ≡ specs.negated self }
    {
        match self {
            Truth::Holds => Truth::Fails,
            Truth::Fails => Truth::Holds,
            Truth::Needs(at) => Truth::Needs(at),
            Truth::Unclear => Truth::Unclear,
        }
    }
}

/// The segment of a dimension, if there is one.
pub(crate) fn partial_at(partial: &[Option<u16>], at: usize) -> Option<u16>
    ensures { result ≡ specs.partial_at partial.now at }
{
    if at < partial.len() {
        partial[at]
    } else {
        None
    }
}

// How many takes of a cell the run has made.
fn takes_of(cell: u32, taken: &[u32]) -> usize
    ensures { result ≡ machines.takes_of cell taken.now }
{
    taken.iter().filter(|one| **one == cell).count()
}

// The order of takes doesn't matter.
fn takes_before(cell: u32, taken: &[u32]) -> usize
    ensures { result ≡ machines.takes_of cell (reverse taken.now) }
{
    takes_of(cell, taken)
}

// The greatest number of a segment.
fn last_in(dimension: &Dimension, segment: u16) -> u128
    ensures { result ≡ coordinates.last_in dimension.now segment }
{
    match dimension.end(segment) {
        Some(end) => end.saturating_sub(1),
        None => dimension.last,
    }
}

// One more take is granted if the cell grants more takes than were made before.
fn take_truth(dimension: &Dimension, segment: u16, before: u128) -> Truth
    ensures { result ≡ specs.take_truth dimension.now segment before }
{
    if before < dimension.begin(segment) {
        return Truth::Holds;
    }
    if last_in(dimension, segment) <= before {
        Truth::Fails
    } else {
        Truth::Unclear
    }
}

fn compare_truth(dimension: &Dimension, segment: u16, comparison: Comparison, number: u128) -> Truth
    ensures { result ≡ specs.compare_truth dimension.now segment comparison number }
{
    let begin = dimension.begin(segment);
    Truth::of(allows(comparison, begin.cmp(&number)))
}

fn compared(
    dimensions: &[Dimension],
    partial: &[Option<u16>],
    at: usize,
    comparison: Comparison,
    number: u128,
) -> Truth
    ensures { result ≡ specs.truth_at (slice_get dimensions.now at)
        (specs.partial_at partial.now at) at
        (λ d segment. specs.compare_truth d segment comparison number) }
{
    match dimensions.get(at) {
        None => Truth::Unclear,
        Some(dimension) => match partial_at(partial, at) {
            None => Truth::Needs(at),
            Some(segment) => compare_truth(dimension, segment, comparison, number),
        },
    }
}

fn taken_once_more(
    dimensions: &[Dimension],
    partial: &[Option<u16>],
    at: usize,
    before: usize,
) -> Truth
    ensures { result ≡ specs.truth_at (slice_get dimensions.now at)
        (specs.partial_at partial.now at) at
        (λ d segment. specs.take_truth d segment before) }
{
    match dimensions.get(at) {
        None => Truth::Unclear,
        Some(dimension) => match partial_at(partial, at) {
            None => Truth::Needs(at),
            Some(segment) => take_truth(dimension, segment, before as u128),
        },
    }
}

/// Whether a test holds, by these segments and the cells to which this run has added.
pub(crate) fn truth_of(
    dimensions: &[Dimension],
    partial: &[Option<u16>],
    taken: &[u32],
    test: PlanTest,
) -> Truth
    ensures { result ≡ specs.truth_of dimensions.now partial.now (reverse taken.now) test }
{
    match test {
        PlanTest::Constant(holds) => Truth::of(holds),
        PlanTest::Compares {
            dimension,
            comparison,
            number,
        } => compared(dimensions, partial, dimension, comparison, number),
        PlanTest::Takes { dimension, cell } => {
            taken_once_more(dimensions, partial, dimension, takes_before(cell, taken))
        }
    }
}
