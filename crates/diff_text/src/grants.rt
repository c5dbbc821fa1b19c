//! What a cell with a quota grants, in words. Rules have none for it.

ghost use Rattle.std.specs.Prelude.{◌≡◌, All, IfOk, IfSome, OnOk, List, map, string_bytes};
ghost use Rattle.std.specs.Prelude.{option_copied};
ghost use Rattle.printing.specs.Pushed.{Puts};
ghost use Rattle.diff_space.specs.Lines.{IsLine};
ghost use Rattle.diff_space.specs.Scopes.{Scope};
ghost use Rattle.diff_text.specs.Conditions.{grant_sets};
ghost use Rattle.diff_text.specs.Grants as specs;

use crate::intervals::NumberRange;
use crate::left_ranges::ranges_of;
use crate::matching::is_grant;
use cells::CellArray;
use diff_rules::SegmentSet;
use diff_space::{Coordinate, Dimension};
use rule_lang::array_named;
use std::alloc::{AllocError, Global};
use std::fmt::Write;

// ---- words

fn push_left(text: &mut String, most: u128, range: NumberRange) -> Result<(), AllocError>
    ensures { OnOk result (Puts text.old text.new (specs.left_text most range)) }
{
    let low = range.low;
    let high = range.high;
    if high == 0 {
        text.push_str(" used up")
    } else if low == 1 && high == most {
        text.push_str(" open")
    } else if low == high {
        write!(text, " with {low} left")
    } else if high == most {
        write!(text, " with {low} or more left")
    } else {
        write!(text, " with {low} to {high} left")
    }
}

fn is_same(quota: Option<u64>, other: Option<u64>) -> bool
    ensures { result ≡ specs.same_number quota other }
{
    match (quota, other) {
        (None, None) => true,
        (Some(quota), Some(other)) => quota == other,
        _ => false,
    }
}

fn differs(named: Option<&CellArray>, array: &CellArray) -> bool
    ensures { result ≡ specs.differs (option_copied named.entry) array.now }
{
    match named {
        Some(own) => !(own.length == array.length && is_same(own.quota, array.quota)),
        None => false,
    }
}

fn side_text(old: &[CellArray], new: &[CellArray], array: &CellArray) -> &'static str
    ensures { result.now ≡ specs.side_text old.now new.now array.now }
{
    if differs(array_named(old, array.name.as_str()), array) {
        " of NEW"
    } else if differs(array_named(new, array.name.as_str()), array) {
        " of OLD"
    } else {
        ""
    }
}

/// The arrays of both manifests, and one cell of an array.
#[derive(Clone, Copy)]
struct Cell<'a> {
    old: &'a [CellArray],
    new: &'a [CellArray],
    array: &'a CellArray,
    index: u16,
    most: u128,
}

fn push_grant(text: &mut String, cell: Cell<'_>, range: NumberRange) -> Result<(), AllocError>
    ensures { OnOk result (Puts text.old text.new (specs.grant_text cell.entry.old.now
        cell.entry.new.now cell.entry.array.now cell.entry.index cell.entry.most range)) }
{
    let name = cell.array.name.as_str();
    let index = cell.index;
    write!(text, "{name}[{index}]")?;
    text.push_str(side_text(cell.old, cell.new, cell.array))?;
    push_left(text, cell.most, range)
}

fn push_others(text: &mut String, cell: Cell<'_>, ranges: &[NumberRange]) -> Result<(), AllocError>
    ensures { OnOk result (Puts text.old text.new (specs.or_texts cell.entry.old.now
        cell.entry.new.now cell.entry.array.now cell.entry.index cell.entry.most ranges.now)) }
{
    let mut left = ranges;
    while let [range, others @ ..] = left {
        text.push_str(" or ")?;
        push_grant(text, cell, *range)?;
        left = others;
    }
    Ok(())
}

fn push_grants(text: &mut String, cell: Cell<'_>, ranges: &[NumberRange]) -> Result<(), AllocError>
    ensures { OnOk result (Puts text.old text.new (specs.grants_text cell.entry.old.now
        cell.entry.new.now cell.entry.array.now cell.entry.index cell.entry.most ranges.now)) }
{
    match ranges {
        [] => Ok(()),
        [only] => push_grant(text, cell, *only),
        [first, others @ ..] => {
            text.push_str("(")?;
            push_grant(text, cell, *first)?;
            push_others(text, cell, others)?;
            text.push_str(")")
        }
    }
}

// ---- sets

fn grants_text<'x>(
    alloc: Global,
    old: &'x [CellArray],
    new: &'x [CellArray],
    dimension: &'x Dimension,
    ranges: &[NumberRange],
) -> Result<Option<String>, AllocError>
    ensures { IfOk result (λ o. IfSome o (λ text.
        specs.IsTextOf old.now new.now dimension.now ranges.now (string_bytes text))) }
{
    let Coordinate::Takes { array, index } = &dimension.of else {
        return Ok(None);
    };
    let cell = Cell {
        old,
        new,
        array,
        index: *index,
        most: dimension.last,
    };
    let mut text = String::new(alloc);
    push_grants(&mut text, cell, ranges)?;
    Ok(Some(text))
}

fn grant_of(
    alloc: Global,
    dimensions: &[Dimension],
    old: &[CellArray],
    new: &[CellArray],
    set: &SegmentSet,
) -> Result<Option<String>, AllocError>
    ensures { (x : Scope) → All (IsLine x) dimensions.now → IfOk result (λ o. IfSome o (λ text.
        specs.IsGrantText old.now new.now x dimensions.now set.now (string_bytes text))) }
{
    let Some(dimension) = dimensions.get(set.dimension) else {
        return Ok(None);
    };
    let Some(ranges) = ranges_of(alloc, dimension, set)? else {
        return Ok(None);
    };
    grants_text(alloc, old, new, dimension, &ranges)
}

/// The words of each set of cells that grant takes; none if the words would be wrong.
pub(crate) fn grants_of(
    alloc: Global,
    dimensions: &[Dimension],
    old: &[CellArray],
    new: &[CellArray],
    sets: &[SegmentSet],
) -> Result<Option<Vec<String>>, AllocError>
    ensures { (x : Scope) → All (IsLine x) dimensions.now → IfOk result (λ o. IfSome o (λ texts.
        specs.AreGrantTexts old.now new.now x dimensions.now
        (grant_sets dimensions.now sets.now) (map string_bytes texts.items))) }
{
    let mut texts = Vec::new(alloc);
    let mut left = sets;
    while let [set, others @ ..] = left {
        if is_grant(dimensions, set) {
            let Some(text) = grant_of(alloc, dimensions, old, new, set)? else {
                return Ok(None);
            };
            texts.push(text)?;
        }
        left = others;
    }
    Ok(Some(texts))
}
