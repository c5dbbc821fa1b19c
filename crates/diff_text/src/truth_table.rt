//! Truth tables: for each segment of a dimension, whether a part of a condition holds.

ghost use Rattle.std.specs.Prelude.{◌≡◌, IfOk, IfSome, map, not};
ghost use Rattle.std.specs.Ordering.{nat_cmp};
ghost use Rattle.rule_lang.specs.Meaning as meaning;
ghost use Rattle.diff_text.specs.Tables as specs;

use diff_space::{Dimension, NumberComparison, number_comparison_at};
use rule_eval::allows;
use rule_lang::Test;
use std::alloc::{AllocError, Global};
use std::marker::Model;

/// The place of a dimension, and a truth for each of its segments.
#[derive(Drop)]
pub(crate) struct Table {
    pub dimension: usize,
    pub holds: Vec<bool>,
}

impl Model for Table {
    ghost use Rattle.diff_text.specs.Tables as specs;

    ghost Value = { specs.Table };

    ghost view = { λ t. record { dimension = t.dimension; holds = t.holds.items } };
}

fn holds_at(compared: NumberComparison, number: u128) -> bool
    ensures { result ≡ meaning.allows compared.comparison (nat_cmp number compared.number) }
{
    allows(compared.comparison, number.cmp(&compared.number))
}

// The truths of a comparison, by the numbers at which the segments begin.
fn truths(
    alloc: Global,
    compared: NumberComparison,
    starts: &[u128],
) -> Result<Vec<bool>, AllocError>
    ensures { IfOk result (λ v. v.items ≡ specs.truths compared starts.now) }
{
    let mut holds = Vec::with_capacity(alloc, starts.len())?;
    let mut left = starts;
    while let [end, others @ ..] = left {
        holds.push(holds_at(compared, *end))?;
        left = others;
    }
    Ok(holds)
}

fn table_at(
    alloc: Global,
    dimensions: &[Dimension],
    place: usize,
    test: &Test,
) -> Result<Option<Table>, AllocError>
    ensures { IfOk result (λ o. IfSome o (specs.IsTestTable dimensions.now test.now)) }
{
    let Some(dimension) = dimensions.get(place) else {
        return Ok(None);
    };
    let Some(compared) = number_comparison_at(dimensions, place, test) else {
        return Ok(None);
    };
    let holds = truths(alloc, compared, &dimension.starts)?;
    Ok(Some(Table {
        dimension: place,
        holds,
    }))
}

/// The truths of a test; none if it isn't about a dimension whose segments decide it.
pub(crate) fn table_of(
    alloc: Global,
    dimensions: &[Dimension],
    test: &Test,
) -> Result<Option<Table>, AllocError>
    ensures { IfOk result (λ o. IfSome o (specs.IsTestTable dimensions.now test.now)) }
{
    for place in 0..dimensions.len() {
        if let Some(table) = table_at(alloc, dimensions, place, test)? {
            return Ok(Some(table));
        }
    }
    Ok(None)
}

/// Whether a part doesn't hold, segment by segment.
pub(crate) fn negated_truths(alloc: Global, holds: &[bool]) -> Result<Vec<bool>, AllocError>
    ensures { IfOk result (λ v. v.items ≡ map not holds.now) }
{
    let mut negated = Vec::with_capacity(alloc, holds.len())?;
    let mut left = holds;
    while let [first, others @ ..] = left {
        negated.push(!*first)?;
        left = others;
    }
    Ok(negated)
}

fn join_by(is_and: bool, first: bool, second: bool) -> bool
    ensures { result ≡ specs.join_by is_and first second }
{
    if is_and {
        first && second
    } else {
        first || second
    }
}

/// Whether two parts hold together, or one of them does, segment by segment.
pub(crate) fn joined_truths(
    alloc: Global,
    is_and: bool,
    first: &[bool],
    second: &[bool],
) -> Result<Vec<bool>, AllocError>
    ensures { IfOk result (λ v.
        v.items ≡ specs.pairwise (specs.join_by is_and) first.now second.now) }
{
    let mut joined = Vec::with_capacity(alloc, first.len())?;
    let mut left = first;
    let mut right = second;
    while let [one, more @ ..] = left {
        let [other, rest @ ..] = right else {
            return Ok(joined);
        };
        joined.push(join_by(is_and, *one, *other))?;
        left = more;
        right = rest;
    }
    Ok(joined)
}
