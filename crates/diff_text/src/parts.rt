//! Parts of a condition, as tables that all hold.

ghost use Rattle.std.specs.Prelude.{◌≡◌, ◌∷◌, [], All, IfOk, IfSome, map, not, true, false};
ghost use Rattle.rule_lang.specs.Trees.{Leaf, Tree};
ghost use Rattle.diff_text.specs.Tables as specs;

use crate::truth_table::{Table, joined_truths, negated_truths, table_of};
use diff_space::Dimension;
use rule_lang::Test;
use std::alloc::{AllocError, Global};
use std::marker::Model;

/// A part of a condition: tables that all hold.
#[derive(Drop)]
pub(crate) struct Conjunction {
    pub tables: Vec<Table>,
}

impl Model for Conjunction {
    ghost use Rattle.std.specs.Prelude.{List};
    ghost use Rattle.diff_text.specs.Tables as specs;

    ghost Value = { List specs.Table };

    ghost view = { λ p. p.tables.items };
}

// ---- one part out of others

fn part_of(alloc: Global, table: Table) -> Result<Conjunction, AllocError>
    ensures { IfOk result (λ p. p ≡ table ∷ []) }
{
    let mut tables = Vec::new(alloc);
    tables.push(table)?;
    Ok(Conjunction { tables })
}

// The table of a part that has only one.
fn only_table(part: Conjunction) -> Option<Table>
    ensures { IfSome result (λ t. part ≡ t ∷ []) }
{
    let mut tables = part.tables;
    let Some(table) = tables.pop() else {
        return None;
    };
    if !tables.is_empty() {
        return None;
    }
    Some(table)
}

/// The part of a test; none if it isn't about a dimension whose segments decide it.
pub(crate) fn tested(
    alloc: Global,
    dimensions: &[Dimension],
    test: &Test,
) -> Result<Option<Conjunction>, AllocError>
    ensures { (line : _) → IfOk result (specs.IsMade dimensions.now (Leaf line test.now)) }
{
    let Some(table) = table_of(alloc, dimensions, test)? else {
        return Ok(None);
    };
    let part = part_of(alloc, table)?;
    Ok(Some(part))
}

fn negated_table(alloc: Global, table: &Table) -> Result<Table, AllocError>
    ensures { IfOk result (λ t. t ≡ record {
      dimension = table.now.dimension;
      holds = map not table.now.holds;
    }) }
{
    let holds = negated_truths(alloc, &table.holds)?;
    Ok(Table {
        dimension: table.dimension,
        holds,
    })
}

/// A part under `not`; none if it has several tables.
pub(crate) fn negated(alloc: Global, part: Conjunction) -> Result<Option<Conjunction>, AllocError>
    ensures { (ds : _) → All (specs.IsTable ds) part → IfOk result
        (λ o. IfSome o (specs.IsNegated ds part)) }
{
    let Some(table) = only_table(part) else {
        return Ok(None);
    };
    let other = negated_table(alloc, &table)?;
    let made = part_of(alloc, other)?;
    Ok(Some(made))
}

fn table_by(alloc: Global, is_and: bool, first: &Table, second: &Table) -> Result<Table, AllocError>
    ensures { IfOk result (λ t. t ≡ record {
      dimension = first.now.dimension;
      holds = specs.pairwise (specs.join_by is_and) first.now.holds second.now.holds;
    }) }
{
    let holds = joined_truths(alloc, is_and, &first.holds, &second.holds)?;
    Ok(Table {
        dimension: first.dimension,
        holds,
    })
}

fn joined_table(
    alloc: Global,
    is_and: bool,
    first: &Table,
    second: &Table,
) -> Result<Option<Table>, AllocError>
    ensures { (ds : _) → specs.IsTable ds first.now → specs.IsTable ds second.now → IfOk result
        (λ o. IfSome o (λ t. specs.IsJoined ds (specs.join_by is_and) (first.now ∷ [])
        (second.now ∷ []) (t ∷ []))) }
{
    if first.dimension != second.dimension {
        return Ok(None);
    }
    let table = table_by(alloc, is_and, first, second)?;
    Ok(Some(table))
}

fn either(
    alloc: Global,
    first: Conjunction,
    second: Conjunction,
) -> Result<Option<Conjunction>, AllocError>
    ensures { (ds : _) → All (specs.IsTable ds) first → All (specs.IsTable ds) second
        → IfOk result (λ o. IfSome o (specs.IsJoined ds (specs.join_by false) first second)) }
{
    let Some(one) = only_table(first) else {
        return Ok(None);
    };
    let Some(other) = only_table(second) else {
        return Ok(None);
    };
    let table = joined_table(alloc, false, &one, &other);
    drop(one);
    drop(other);
    match table? {
        Some(table) => {
            let part = part_of(alloc, table)?;
            Ok(Some(part))
        }
        None => Ok(None),
    }
}

// A table more: it is joined with the last one, if both are of one dimension.
fn with_table(alloc: Global, first: Conjunction, second: Table) -> Result<Conjunction, AllocError>
    ensures { (ds : _) → All (specs.IsTable ds) first → specs.IsTable ds second → IfOk result
        (λ p. specs.IsJoined ds (specs.join_by true) first (second ∷ []) p) }
{
    let mut tables = first.tables;
    let Some(last) = tables.pop() else {
        return part_of(alloc, second);
    };
    match joined_table(alloc, true, &last, &second)? {
        Some(table) => {
            tables.push(table)?;
            Ok(Conjunction { tables })
        }
        None => {
            tables.push(last)?;
            tables.push(second)?;
            Ok(Conjunction { tables })
        }
    }
}

fn both(
    alloc: Global,
    first: Conjunction,
    second: Conjunction,
) -> Result<Option<Conjunction>, AllocError>
    ensures { (ds : _) → All (specs.IsTable ds) first → All (specs.IsTable ds) second
        → IfOk result (λ o. IfSome o (specs.IsJoined ds (specs.join_by true) first second)) }
{
    let Some(table) = only_table(second) else {
        return Ok(None);
    };
    let part = with_table(alloc, first, table)?;
    Ok(Some(part))
}

/// Two parts that both hold, or of which one holds; none if that isn't a list of tables.
pub(crate) fn joined(
    alloc: Global,
    is_and: bool,
    first: Option<Conjunction>,
    second: Option<Conjunction>,
) -> Result<Option<Conjunction>, AllocError>
    ensures { (ds : _) (b c : Tree) → specs.IsMade ds b first → specs.IsMade ds c second
        → IfOk result (specs.IsMade ds (specs.tree_by is_and b c)) }
{
    let Some(first) = first else {
        return Ok(None);
    };
    let Some(second) = second else {
        return Ok(None);
    };
    if is_and {
        both(alloc, first, second)
    } else {
        either(alloc, first, second)
    }
}
