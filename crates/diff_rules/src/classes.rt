//! A class: segments that decide what both rules give. Each machine in each state is in a class.

ghost use Rattle.std.specs.Prelude.{◌≡◌, ◌≤◌, ◌++◌, ◌∷◌, [], IfOk, IfSome, OnOk, List, ℕ, true};
ghost use Rattle.diff_rules.specs.Classes.{Agrees, Covers};
ghost use Rattle.diff_rules.specs.Search as specs;
ghost use Rattle.diff_space.specs.Machines.{Side};
ghost use Rattle.diff_space.specs.Scopes.{Scope};
ghost use Rattle.diff_space.specs.Spaces.{IsSpaceOf};

use crate::plan_run::{PairRun, run_pair};
use crate::splitting::{PendingPlace, split_at};
use diff_space::{Plan, PlanStatement, Space, Work};
use std::alloc::{AllocError, Global};
use std::marker::Model;

/// A segment for some of the dimensions, and what both rules give to each machine in each state
/// that has these segments.
#[derive(Drop)]
pub struct PlaceClass {
    pub partial: Vec<Option<u16>>,
    pub current: u8,
    pub next: u8,
}

impl Model for PlaceClass {
    ghost use Rattle.diff_rules.specs.Classes as specs;

    ghost Value = { specs.PlaceClass };

    ghost view = { λ c. record { partial = c.partial.items; current = c.current; next = c.next } };
}

fn add_class(
    classes: &mut Vec<PlaceClass>,
    pending: PendingPlace,
    current: u8,
    next: u8,
) -> Result<(), AllocError>
    ensures { OnOk result (classes.new.items ≡ classes.old.items ++ record {
      partial = pending;
      current = current;
      next = next;
    } ∷ []) }
{
    let PendingPlace { partial } = pending;
    classes.push(PlaceClass {
        partial,
        current,
        next,
    })?;
    Ok(())
}

// Turns the place into a class, or adds the place with each segment of the dimension that a run
// needs. Returns `false` if segments don't decide a test.
fn advance(
    alloc: Global,
    space: &Space,
    classes: &mut Vec<PlaceClass>,
    left: &mut Vec<PendingPlace>,
    pending: PendingPlace,
    work: &mut Work,
) -> Result<bool, AllocError>
    ensures { IfOk result (λ done. done ≡ true → specs.LosesNoMachine space.now classes.old.items
        (left.old.items ++ pending ∷ []) classes.new.items left.new.items) }
{
    match run_pair(alloc, space, &pending.partial)? {
        PairRun::Both(now, next) => {
            add_class(classes, pending, now, next)?;
            Ok(true)
        }
        PairRun::Needs(dimension) => split_at(alloc, space, left, &pending, dimension, work),
        PairRun::Unclear => Ok(false),
    }
}

// The partial place from which the search starts, without any segment.
fn first_pending(alloc: Global, space: &Space) -> Result<PendingPlace, AllocError>
    ensures { (place : List ℕ) → IfOk result (λ p. Agrees place p) }
{
    let partial = vec![in alloc; None; space.dimensions.len()]?;
    Ok(PendingPlace { partial })
}

// The cost of a step in this space, in work and memory, counted in steps that look at no tuple.
fn step_cost(space: &Space) -> usize
    ensures { 1 ≤ result }
{
    let mut cost = space.dimensions.len() / 50;
    for group in &space.groups {
        let segments = group.tuples.len().saturating_mul(group.dimensions.len());
        cost = cost.saturating_add(segments / 8192);
    }
    cost.saturating_add(1)
}

// How much is looked at in a run of both rules.
fn run_work(space: &Space) -> usize {
    steps_in(&space.old)
        .saturating_add(steps_in(&space.new))
        .saturating_mul(8)
}

fn steps_in(plan: &Plan) -> usize {
    let mut count: usize = 30;
    for statement in plan.statements() {
        count = count.saturating_add(match statement {
            PlanStatement::Count { .. } => 1,
            PlanStatement::When { condition, .. } => condition.steps().len(),
        });
    }
    count
}

fn find_all(
    alloc: Global,
    space: &Space,
    most: usize,
    first: PendingPlace,
    work: &mut Work,
) -> Result<Option<Vec<PlaceClass>>, AllocError>
    ensures { IfOk result (λ o. IfSome o (λ classes. specs.LosesNoMachine space.now [] (first ∷ [])
        classes.items [])) }
{
    let mut classes = Vec::new(alloc);
    let mut left = Vec::new(alloc);
    left.push(first)?;
    let each = run_work(space);
    let mut count = 0;
    while let Some(pending) = left.pop() {
        if count >= most || !work.spend(each) {
            return Ok(None);
        }
        count += 1;
        if !advance(alloc, space, &mut classes, &mut left, pending, work)? {
            return Ok(None);
        }
    }
    Ok(Some(classes))
}

/// The classes of a space, in the order of their segments; `None` if the search takes more than
/// `most` steps or the work that is left, or if segments don't decide a test. With many tuples a
/// step counts several times.
pub(crate) fn classes_of(
    alloc: Global,
    space: &Space,
    most: usize,
    work: &mut Work,
) -> Result<Option<Vec<PlaceClass>>, AllocError>
    ensures { (x : Scope) (old new : Side) → IsSpaceOf x old new space.now
        → IfOk result (λ o. IfSome o (λ classes. Covers x old new space.now classes.items)) }
{
    let first = first_pending(alloc, space)?;
    let Some(classes) = find_all(alloc, space, most / step_cost(space), first, work)? else {
        return Ok(None);
    };
    Ok(Some(classes))
}
