//! The rows of two rules of an app.

ghost use Rattle.std.specs.Prelude.{IfOk, IfSome};
ghost use Rattle.diff_rules.specs.Rows.{IsDiff};
ghost use Rattle.diff_space.specs.Machines.{Side};
ghost use Rattle.diff_space.specs.Scopes.{Scope, scope_of, side_of};
ghost use Rattle.diff_space.specs.Spaces.{IsSpaceOf};

use crate::checking::{are_right, are_rows};
use crate::classes::{PlaceClass, classes_of};
use crate::differing_rows::rows_of;
use crate::row::DiffRow;
use diff_space::{Bounds, RuleSide, Space, Work, space_of};
use std::alloc::{AllocError, Global};

/// The most steps of the search for an app.
pub const MOST_STEPS: usize = 100000;

/// The space of two rules, and the rows of machines in states that get another content.
#[derive(Drop)]
pub struct Diff {
    pub space: Space,
    pub rows: Vec<DiffRow>,
}

impl Diff {
    /// Drops it. A crate that calls this proves no drop of a plan, a group or a dimension itself.
    pub fn discard(self) {}
}

/// The most sets of rows before they are merged.
const MOST_SETS: usize = 400000;

// How many sets the rows of these classes begin with.
fn sets_of(classes: &[PlaceClass]) -> usize {
    let mut sets: usize = 0;
    for class in classes {
        if class.current != class.next {
            for segment in &class.partial {
                if segment.is_some() {
                    sets = sets.saturating_add(1);
                }
            }
        }
    }
    sets
}

// How much is looked at to merge the classes of a space: each set in each dimension.
fn merge_work(space: &Space, classes: &[PlaceClass]) -> usize {
    let sets = sets_of(classes);
    if sets > MOST_SETS {
        return usize::MAX;
    }
    sets.saturating_mul(space.dimensions.len())
}

// How much is looked at to check a class: the sets of each row, and some of their segments.
fn check_work(rows: &[DiffRow]) -> usize {
    let mut work: usize = 1;
    for row in rows {
        for set in &row.sets {
            work = work.saturating_add(4 + set.segments.len() / 16);
        }
    }
    work
}

fn checked_rows(
    alloc: Global,
    space: &Space,
    work: &mut Work,
) -> Result<Option<Vec<DiffRow>>, AllocError>
    ensures { (x : Scope) (old new : Side) → IsSpaceOf x old new space.now
        → IfOk result (λ o. IfSome o (λ rows. IsDiff x old new space.now rows.items)) }
{
    let Some(classes) = classes_of(alloc, space, MOST_STEPS, work)? else {
        return Ok(None);
    };
    if !work.spend(merge_work(space, classes.as_slice())) {
        return Ok(None);
    }
    let rows = rows_of(alloc, &space.dimensions, &classes)?;
    if !work.spend(check_work(rows.as_slice()).saturating_mul(classes.len())) {
        return Ok(None);
    }
    if !are_right(&rows, &classes) {
        return Ok(None);
    }
    if !are_rows(&space.dimensions, &rows) {
        return Ok(None);
    }
    Ok(Some(rows))
}

/// The rows of two rules of an app; `None` if the rules aren't compared, for example if that takes
/// more work than is left.
// open: whether an allocation fails, its one error; which rules aren't compared; in how many
// buckets a row has machines; how much work it takes.
pub fn compare(
    alloc: Global,
    bounds: &Bounds<'_>,
    old: &RuleSide<'_>,
    new: &RuleSide<'_>,
    work: &mut Work,
) -> Result<Option<Diff>, AllocError>
    ensures { IfOk result (λ o. IfSome o (λ d. IsDiff (scope_of bounds.now) (side_of old.now)
        (side_of new.now) d.space d.rows.items)) }
{
    let Some(space) = space_of(alloc, bounds, old, new, work)? else {
        return Ok(None);
    };
    match checked_rows(alloc, &space, work)? {
        Some(rows) => Ok(Some(Diff { space, rows })),
        None => Ok(None),
    }
}
