//! The rows of an app as they are shown: each with its kind, its releases and its condition.

ghost use Rattle.std.specs.Prelude.{◌≡◌, ◌++◌, All, IfOk, IfSome, OnOk, IsPermutation};
ghost use Rattle.std.specs.List.{AllZip};
ghost use Rattle.diff_space.specs.Lines.{IsLine};
ghost use Rattle.diff_space.specs.Scopes.{Scope};
ghost use Rattle.diff_text.specs.Kinds as kinds;
ghost use Rattle.diff_text.specs.Shown as specs;

use crate::condition::tests_of;
use crate::grants::grants_of;
use crate::shown::{AppRows, ShownRelease, ShownRow};
use crate::sources::{RowSources, has_releases, kind_of, shown_current, shown_next, sources_of};
use cells::CellArray;
use diff_rules::{ContentNumbers, Diff, DiffRow};
use diff_space::Dimension;
use releases::Release;
use std::alloc::{AllocError, Global};

// A row as it is shown. The days that its condition names are added to `days`.
fn shown_row(
    alloc: Global,
    days: &mut Vec<u32>,
    from: &RowSources<'_>,
    dimensions: &[Dimension],
    row: &DiffRow,
) -> Result<Option<ShownRow>, AllocError>
    ensures { (x : Scope) → All (IsLine x) dimensions.now → IfOk result (λ o. IfSome o
        (specs.IsShownAs x dimensions.now from.now row.now)) }
{
    if !has_releases(from, row) {
        return Ok(None);
    }
    let Some(tests) = tests_of(alloc, days, dimensions, &row.sets)? else {
        return Ok(None);
    };
    let Some(grants) = grants_of(
        alloc,
        dimensions,
        from.old_arrays,
        from.new_arrays,
        &row.sets,
    )?
    else {
        return Ok(None);
    };
    let kind = kind_of(from, row);
    let current = shown_current(alloc, from, row)?;
    let next = shown_next(alloc, from, row)?;
    Ok(Some(ShownRow {
        kind,
        current,
        next,
        tests,
        grants,
    }))
}

// The rows in their order.
fn shown_rows(
    alloc: Global,
    days: &mut Vec<u32>,
    from: &RowSources<'_>,
    dimensions: &[Dimension],
    rows: &[DiffRow],
) -> Result<Option<Vec<ShownRow>>, AllocError>
    ensures { (x : Scope) → All (IsLine x) dimensions.now → IfOk result (λ o. IfSome o (λ shown.
        AllZip (specs.IsShownAs x dimensions.now from.now) rows.now shown.items)) }
{
    let mut shown = Vec::with_capacity(alloc, rows.len())?;
    let mut left = rows;
    while let [row, others @ ..] = left {
        let Some(one) = shown_row(alloc, days, from, dimensions, row)? else {
            return Ok(None);
        };
        shown.push(one)?;
        left = others;
    }
    Ok(Some(shown))
}

fn number_of(release: &Option<ShownRelease>) -> usize {
    match release {
        Some(release) => release.number,
        None => 0,
    }
}

fn key_of(row: &ShownRow) -> (u8, usize, usize) {
    (
        row.kind as u8,
        number_of(&row.current),
        number_of(&row.next),
    )
}

// The lost rows first, then older, changed, newer and gained ones, each by its releases.
fn sort(rows: &mut Vec<ShownRow>) -> Result<(), AllocError>
    ensures { OnOk result (IsPermutation rows.old.items rows.new.items) }
{
    rows.sort_by_key(|row| key_of(row))
}

fn rows_of(
    alloc: Global,
    from: &RowSources<'_>,
    dimensions: &[Dimension],
    rows: &[DiffRow],
) -> Result<Option<AppRows>, AllocError>
    ensures { (x : Scope) → All (IsLine x) dimensions.now → IfOk result (λ o. IfSome o
        (λ shown. specs.AreShown x dimensions.now from.now rows.now shown.rows.items)) }
{
    let mut days = Vec::new(alloc);
    let Some(shown) = shown_rows(alloc, &mut days, from, dimensions, rows)? else {
        return Ok(None);
    };
    let mut sorted = shown;
    sort(&mut sorted)?;
    days.as_mut_slice().sort_unstable();
    Ok(Some(AppRows { rows: sorted, days }))
}

/// The rows of an app, by the releases and the arrays of both manifests, and the numbers of the
/// releases' contents. The lost rows come first, then older, changed, newer and gained ones, each
/// by its releases and its cells. None if a condition doesn't read back as its row.
// open: whether an allocation fails, its one error; for which rows it returns none; the order of
// the rows; which days are named.
pub fn app_rows(
    alloc: Global,
    diff: &Diff,
    contents: &ContentNumbers,
    old: &[Release],
    new: &[Release],
    old_arrays: &[CellArray],
    new_arrays: &[CellArray],
) -> Result<Option<AppRows>, AllocError>
    ensures shown { (x : Scope) → All (IsLine x) diff.now.space.dimensions → IfOk result
        (λ o. IfSome o (λ shown. specs.AreShown x diff.now.space.dimensions (record {
          all = old.now ++ new.now;
          old_contents = contents.now.old.items;
          new_contents = contents.now.new.items;
          old_arrays = old_arrays.now;
          new_arrays = new_arrays.now;
        }) diff.now.rows.items shown.rows.items)) }
    ensures lost { (x : Scope) → All (IsLine x) diff.now.space.dimensions → IfOk result
        (λ o. IfSome o (λ shown. specs.some_shown_lost shown.rows.items
        ≡ kinds.some_lost (old.now ++ new.now) diff.now.rows.items)) }
{
    let from = sources_of(contents, old, new, old_arrays, new_arrays);
    let shown = rows_of(alloc, &from, &diff.space.dimensions, &diff.rows)?;
    Ok(shown)
}
