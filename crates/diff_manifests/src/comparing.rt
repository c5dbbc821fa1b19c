//! The comparison of an app in two manifests.

ghost use Rattle.std.specs.Prelude.{◌≡◌, true, IfOk, IfSome, option_copied};
ghost use Rattle.load.specs.JudgedApps.{IsJudgedApp};
ghost use Rattle.diff_manifests.specs.Apps.{HasContents, releases_in};
ghost use Rattle.diff_manifests.specs.Outcomes as specs;
ghost use Rattle.diff_manifests.specs.Sides.{IsSideBy};
ghost use Rattle.diff_space.specs.Scopes.{scope_of, side_of};

use crate::apps::{arrays_or_none, releases_or_none};
use crate::outcome::{AppOutcome, WhyNot};
use crate::same::{is_same_program, is_same_rule};
use crate::sides::side_in;
use cells::Shape;
use diff_rules::{ContentNumbers, compare, contents_of};
use diff_space::{Bounds, RuleSide, Work};
use diff_text::{AppRows, app_rows};
use load::JudgedApp;
use std::alloc::{AllocError, Global};

// The rows of two sides, as they are shown; none if the search gave up.
fn rows_of(
    alloc: Global,
    bounds: &Bounds<'_>,
    sides: (&RuleSide<'_>, &RuleSide<'_>),
    old: Option<&JudgedApp>,
    new: Option<&JudgedApp>,
    contents: &ContentNumbers,
    work: &mut Work,
) -> Result<Option<AppRows>, AllocError>
    requires contents { HasContents (option_copied old) (option_copied new)
        contents.now }
    requires old { IsSideBy (releases_in (option_copied old) (option_copied new))
        (option_copied old) (side_of sides.0.now) }
    requires new { IsSideBy (releases_in (option_copied old) (option_copied new))
        (option_copied new) (side_of sides.1.now) }
    ensures { IfOk result (λ rows. IfSome rows (specs.ShowsRows (scope_of bounds.now)
        (option_copied old.entry) (option_copied new.entry))) }
{
    let Some(diff) = compare(alloc, bounds, sides.0, sides.1, work)? else {
        return Ok(None);
    };
    let shown = app_rows(
        alloc,
        &diff,
        contents,
        releases_or_none(old),
        releases_or_none(new),
        arrays_or_none(old),
        arrays_or_none(new),
    );
    diff.discard();
    Ok(shown?)
}

// The rows, if no program decides, and the rules aren't too large.
fn rows_if_any<'x>(
    alloc: Global,
    bounds: &Bounds<'_>,
    old: Option<&'x JudgedApp>,
    new: Option<&'x JudgedApp>,
    contents: &'x ContentNumbers,
    work: &mut Work,
) -> Result<Option<AppRows>, AllocError>
    requires { HasContents (option_copied old) (option_copied new) contents.now }
    ensures { IfOk result (λ rows. IfSome rows (specs.ShowsRows (scope_of bounds.now)
        (option_copied old.entry) (option_copied new.entry))) }
{
    let plain = Shape::plain(alloc, 0);
    let Some(old_side) = side_in(&plain, old, &contents.old) else {
        return Ok(None);
    };
    let Some(new_side) = side_in(&plain, new, &contents.new) else {
        return Ok(None);
    };
    rows_of(
        alloc,
        bounds,
        (&old_side, &new_side),
        old,
        new,
        contents,
        work,
    )
}

// Whether both manifests have the app with the same rule.
fn have_same_rule(
    old: Option<&JudgedApp>,
    new: Option<&JudgedApp>,
    contents: &ContentNumbers,
) -> bool
    requires old { IfSome (option_copied old) IsJudgedApp }
    requires new { IfSome (option_copied new) IsJudgedApp }
    requires contents { HasContents (option_copied old) (option_copied new)
        contents.now }
    ensures { result ≡ true → specs.IsSame (option_copied old.entry) (option_copied new.entry) }
{
    match (old, new) {
        (Some(old), Some(new)) => is_same_rule(old, new, contents),
        _ => false,
    }
}

fn have_same_program(
    old: Option<&JudgedApp>,
    new: Option<&JudgedApp>,
    contents: &ContentNumbers,
) -> bool
    requires { HasContents (option_copied old) (option_copied new) contents.now }
    ensures { result ≡ true → specs.IsSame (option_copied old.entry) (option_copied new.entry) }
{
    match (old, new) {
        (Some(old), Some(new)) => is_same_program(old, new, contents),
        _ => false,
    }
}

/// The outcome for an app, within the work that is left. Equal rules are found without a search,
/// however large they are.
pub(crate) fn compare_app(
    alloc: Global,
    bounds: &Bounds<'_>,
    old: Option<&JudgedApp>,
    new: Option<&JudgedApp>,
    work: &mut Work,
) -> Result<AppOutcome, AllocError>
    requires old { IfSome (option_copied old) IsJudgedApp }
    requires new { IfSome (option_copied new) IsJudgedApp }
    ensures { IfOk result (specs.IsOutcome (scope_of bounds.now) (option_copied old.entry)
        (option_copied new.entry)) }
{
    let contents = contents_of(alloc, releases_or_none(old), releases_or_none(new))?;
    if have_same_rule(old, new, &contents) {
        return Ok(AppOutcome::Same);
    }
    match rows_if_any(alloc, bounds, old, new, &contents, work)? {
        Some(rows) => Ok(AppOutcome::Rows(rows)),
        None => {
            if have_same_program(old, new, &contents) {
                Ok(AppOutcome::Same)
            } else {
                Ok(AppOutcome::NotCompared(WhyNot::of(old, new)))
            }
        }
    }
}
