//! The space of two rules of an app: dimensions, groups, and a plan of each rule.

ghost use Rattle.std.specs.Prelude.{◌≡◌, All, IfOk, IfSome, OnOk, true};
ghost use Rattle.diff_space.specs.Lines.{IsLine};
ghost use Rattle.diff_space.specs.Groups.{IsGroup};
ghost use Rattle.diff_space.specs.Scopes.{IsWithin, Scope, scope_of, side_of};
ghost use Rattle.diff_space.specs.Spaces.{IsSpaceOf};

use crate::bounds::{Bounds, RuleSide};
use crate::dimension::{Dimension, is_line};
use crate::family::GroupKind;
use crate::group::Group;
use crate::grouping::{group_of, group_work};
use crate::naming::{add_rule, add_takes};
use crate::plan::{Plan, plan_of};
use crate::work::Work;
use rule_lang::Statement;
use std::alloc::{AllocError, Global};
use std::marker::Model;

/// The dimensions of two rules, their groups, and a plan of each rule.
#[derive(Drop)]
pub struct Space {
    pub dimensions: Vec<Dimension>,
    pub groups: Vec<Group>,
    pub old: Plan,
    pub new: Plan,
}

impl Model for Space {
    ghost use Rattle.diff_space.specs.Spaces as specs;

    ghost Value = { specs.Space };

    ghost view = { λ s. record {
      dimensions = s.dimensions.items;
      groups = s.groups.items;
      old = s.old;
      new = s.new;
    } };
}

fn dimensions_of(
    alloc: Global,
    bounds: &Bounds<'_>,
    old: &RuleSide<'_>,
    new: &RuleSide<'_>,
) -> Result<Vec<Dimension>, AllocError> {
    let mut dimensions = Vec::new(alloc);
    add_rule(alloc, bounds, &mut dimensions, old)?;
    add_rule(alloc, bounds, &mut dimensions, new)?;
    add_takes(&mut dimensions, old, new)?;
    Ok(dimensions)
}

fn are_lines(bounds: &Bounds<'_>, dimensions: &[Dimension]) -> bool
    ensures { result ≡ true → All (IsLine (scope_of bounds.now)) dimensions.now }
{
    let mut left = dimensions;
    while let [dimension, others @ ..] = left {
        if !is_line(bounds, dimension) {
            return false;
        }
        left = others;
    }
    true
}

// Adds the group of a kind, if there is one.
fn add_group(
    alloc: Global,
    dimensions: &[Dimension],
    groups: &mut Vec<Group>,
    kind: GroupKind,
) -> Result<(), AllocError>
    ensures { (x : Scope) → All (IsLine x) dimensions.now
        → All (IsGroup (IsWithin x) dimensions.now) groups.old.items
        → OnOk result (All (IsGroup (IsWithin x) dimensions.now) groups.new.items) }
{
    match group_of(alloc, dimensions, kind)? {
        Some(group) => {
            groups.push(group)?;
            Ok(())
        }
        None => Ok(()),
    }
}

fn groups_of(alloc: Global, dimensions: &[Dimension]) -> Result<Vec<Group>, AllocError>
    ensures { (x : Scope) → All (IsLine x) dimensions.now
        → IfOk result (λ v. All (IsGroup (IsWithin x) dimensions.now) v.items) }
{
    let mut groups = Vec::new(alloc);
    add_group(alloc, dimensions, &mut groups, GroupKind::Version)?;
    add_group(alloc, dimensions, &mut groups, GroupKind::Bucket)?;
    Ok(groups)
}

fn tests_in(rule: &RuleSide<'_>) -> usize {
    let mut count: usize = 0;
    for statement in rule.statements {
        if let Statement::When { condition, .. } = statement {
            count = count.saturating_add(condition.steps().len());
        }
    }
    count
}

// Whether there is enough left to find the dimension of each test twice.
fn may_name(old: &RuleSide<'_>, new: &RuleSide<'_>, work: &mut Work) -> bool {
    let tests = tests_in(old).saturating_add(tests_in(new));
    work.spend(tests.saturating_mul(tests))
}

// Whether there is enough left to make the groups.
fn may_group(dimensions: &[Dimension], work: &mut Work) -> bool {
    work.spend(group_work(dimensions, GroupKind::Version))
        && work.spend(group_work(dimensions, GroupKind::Bucket))
}

/// The space of two rules; none if the dimensions don't decide each test, for example if that takes
/// over 65535 cells, or if it takes more work than is left.
// open: whether an allocation fails, its one error; for which rules it returns none; which
// buckets a tuple has; how much work it takes.
pub fn space_of(
    alloc: Global,
    bounds: &Bounds<'_>,
    old: &RuleSide<'_>,
    new: &RuleSide<'_>,
    work: &mut Work,
) -> Result<Option<Space>, AllocError>
    ensures { IfOk result (λ o. IfSome o (λ space.
        IsSpaceOf (scope_of bounds.now) (side_of old.now) (side_of new.now) space)) }
{
    if !may_name(old, new, work) {
        return Ok(None);
    }
    let dimensions = dimensions_of(alloc, bounds, old, new)?;
    if !are_lines(bounds, &dimensions) {
        return Ok(None);
    }
    let Some(old) = plan_of(alloc, bounds, &dimensions, old)? else {
        return Ok(None);
    };
    let Some(new) = plan_of(alloc, bounds, &dimensions, new)? else {
        return Ok(None);
    };
    if !may_group(dimensions.as_slice(), work) {
        return Ok(None);
    }
    let groups = groups_of(alloc, &dimensions)?;
    Ok(Some(Space {
        dimensions,
        groups,
        old,
        new,
    }))
}
