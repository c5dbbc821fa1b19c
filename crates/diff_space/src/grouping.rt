//! Makes the group of a family: a tuple for each combination that a machine can have.

ghost use Rattle.std.specs.Prelude.{◌≡◌, ℕ, ◌≤◌, Bool, true, All, IfOk, IfSome, OnOk};
ghost use Rattle.std.specs.Prelude.{length, slice_get};
ghost use Rattle.diff_space.specs.Families as specs;
ghost use Rattle.diff_space.specs.Families.{AreFew, HasCombination, IsMadeOf, combination};
ghost use Rattle.diff_space.specs.Groups.{IsGroup};
ghost use Rattle.diff_space.specs.Families.{GrowsTo};
ghost use Rattle.diff_space.specs.Lines.{IsLine};
ghost use Rattle.diff_space.specs.Scopes.{IsWithin, Scope};

use crate::combination::{Combination, cells_of, is_possible};
use crate::dimension::Dimension;
use crate::family::{Family, GroupKind, family_of, is_member, line_at, members_of, texts_at};
use crate::group::Group;
use crate::number_line::MOST_CELLS;
use attrs::Bucket;
use std::alloc::{AllocError, Global};

fn bucket_of(family: Family, combination: Combination) -> Option<u16> {
    match family.kind {
        GroupKind::Version => None,
        GroupKind::Bucket => Some(combination.number),
    }
}

// Adds the tuple of a combination, if a machine can have it.
fn add_combination(
    alloc: Global,
    dimensions: &[Dimension],
    family: Family,
    group: &mut Group,
    combination: Combination,
) -> Result<(), AllocError>
    ensures grows { OnOk result (GrowsTo group.old group.new) }
    ensures has { AreFew dimensions.now
        → OnOk result (HasCombination family dimensions.now group.new combination) }
{
    if !is_possible(dimensions, family, combination) {
        return Ok(());
    }
    let cells = cells_of(alloc, dimensions, group.members(), combination)?;
    group.add(alloc, cells, bucket_of(family, combination))?;
    Ok(())
}

// Adds the tuples of a number with a text, known or not.
fn add_text(
    alloc: Global,
    dimensions: &[Dimension],
    family: Family,
    group: &mut Group,
    number: u16,
    text: usize,
) -> Result<(), AllocError>
    ensures grows { OnOk result (GrowsTo group.old group.new) }
    ensures has { AreFew dimensions.now → OnOk result ((is_known : Bool)
        → HasCombination family dimensions.now group.new (combination number is_known text)) }
{
    let unknown = Combination {
        number,
        is_known: false,
        text,
    };
    let with_known = Combination {
        number,
        is_known: true,
        text,
    };
    add_combination(alloc, dimensions, family, group, unknown)?;
    add_combination(alloc, dimensions, family, group, with_known)?;
    Ok(())
}

// Adds the tuples of a number with each text.
fn add_number(
    alloc: Global,
    dimensions: &[Dimension],
    family: Family,
    group: &mut Group,
    number: u16,
) -> Result<(), AllocError>
    ensures grows { OnOk result (GrowsTo group.old group.new) }
    ensures has { AreFew dimensions.now → OnOk result ((text : ℕ)
        → text ≤ length (specs.texts_at dimensions.now family.text) → (is_known : Bool)
        → HasCombination family dimensions.now group.new (combination number is_known text)) }
{
    let texts = texts_at(dimensions, family.text);
    for text in 0..texts.len() + 1 {
        add_text(alloc, dimensions, family, group, number, text)?;
    }
    Ok(())
}

fn count_of(dimensions: &[Dimension], family: Family) -> u16
    ensures { AreFew dimensions.now → result ≡ specs.count_of family dimensions.now }
{
    match family.kind {
        GroupKind::Version => match line_at(dimensions, family.line) {
            Some(line) => line.cells().min(MOST_CELLS) as u16,
            None => 1,
        },
        GroupKind::Bucket => Bucket::COUNT,
    }
}

fn make_group(
    alloc: Global,
    dimensions: &[Dimension],
    family: Family,
    members: Vec<usize>,
) -> Result<Group, AllocError>
    requires { All (λ place. specs.is_member_at family place
        (slice_get dimensions.now place) ≡ true) members.items }
    ensures { AreFew dimensions.now → IfOk result (IsMadeOf family dimensions.now) }
{
    let mut group = Group::new(alloc, members);
    for number in 0..count_of(dimensions, family) {
        add_number(alloc, dimensions, family, &mut group, number)?;
    }
    Ok(group)
}

/// The group of a kind, if one of its dimensions exists; for the version, if two do.
pub(crate) fn group_of(
    alloc: Global,
    dimensions: &[Dimension],
    kind: GroupKind,
) -> Result<Option<Group>, AllocError>
    ensures { (x : Scope) → All (IsLine x) dimensions.now
        → IfOk result (λ o. IfSome o (IsGroup (IsWithin x) dimensions.now)) }
{
    let family = family_of(dimensions, kind);
    let members = members_of(alloc, dimensions, family)?;
    let least = match kind {
        GroupKind::Version => 2,
        GroupKind::Bucket => 1,
    };
    if members.len() < least {
        return Ok(None);
    }
    Ok(Some(make_group(alloc, dimensions, family, members)?))
}

/// The most dimensions of buckets: each bucket has a cell in each of them.
const MOST_MEMBERS: usize = 400;

/// How many cells and texts are looked at to make the group of a kind.
pub(crate) fn group_work(dimensions: &[Dimension], kind: GroupKind) -> usize {
    let family = family_of(dimensions, kind);
    let mut members: usize = 0;
    let mut cells: usize = 0;
    for place in 0..dimensions.len() {
        let dimension = &dimensions[place];
        if is_member(family, place, &dimension.of) {
            members = members.saturating_add(1);
            cells = cells.saturating_add(dimension.cells());
        }
    }
    if members == 0 {
        return 0;
    }
    if members > MOST_MEMBERS {
        return usize::MAX;
    }
    let texts = texts_at(dimensions, family.text).len().saturating_add(1);
    let each = texts.saturating_mul(50);
    let each = each
        .saturating_add(cells)
        .saturating_add(members.saturating_mul(20));
    each.saturating_mul(count_of(dimensions, family) as usize)
}
