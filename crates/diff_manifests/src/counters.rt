//! The cells whose values bound the states: those of a server, and those of the command line.

ghost use Rattle.std.specs.Prelude.{◌≡◌, ◌++◌, IfOk, OnOk, IfSome, Some, None, option_copied};
ghost use Rattle.diff_manifests.specs.Counters as specs;

use crate::arrays::{array_named, is_declared_alike};
use cell_assignments::CellAssignment;
use cells::ArrayName;
use declarations::ArrayDeclaration;
use diff_space::CellBound;
use std::alloc::{AllocError, Global};

// Whether an array has the cell.
fn declares_cell(array: &ArrayDeclaration, cell: &CellAssignment<'_>) -> bool
    ensures { result ≡ specs.declares_cell cell.now array.now }
{
    array.name() == cell.array() && cell.index() < array.length()
}

// The first array that has the cell, of either manifest.
#[tactic(auto, using(crate::proofs::FirstArrays::in_old, crate::proofs::FirstArrays::in_new))]
fn array_with<'a>(
    old: &'a [ArrayDeclaration],
    new: &'a [ArrayDeclaration],
    cell: &CellAssignment<'_>,
) -> Option<&'a ArrayDeclaration>
    ensures { option_copied result ≡ specs.array_with (old.now ++ new.now) cell.now }
{
    match array_among(old, cell) {
        Some(array) => Some(array),
        None => array_among(new, cell),
    }
}

fn array_among<'a>(
    arrays: &'a [ArrayDeclaration],
    cell: &CellAssignment<'_>,
) -> Option<&'a ArrayDeclaration>
    ensures { option_copied result ≡ specs.array_with arrays.now cell.now }
{
    let mut left = arrays;
    while let [array, others @ ..] = left {
        if declares_cell(array, cell) {
            return Some(array);
        }
        left = others;
    }
    None
}

fn used_cell(
    alloc: Global,
    array: &ArrayDeclaration,
    cell: &CellAssignment<'_>,
) -> Result<CellBound, AllocError>
    ensures { IfOk result (λ used. used ≡ specs.used_cell cell.now array.now) }
{
    array.invariant_law();
    Ok(CellBound {
        array: ArrayName::of(alloc, array.name())?,
        index: cell.index(),
        value: cell.value(),
    })
}

// Whether either manifest lacks the array, or both declare it alike.
fn is_alike(one: Option<&ArrayDeclaration>, other: Option<&ArrayDeclaration>) -> bool
    ensures { result ≡ specs.is_alike (option_copied one.entry) (option_copied other.entry) }
{
    match (one, other) {
        (Some(one), Some(other)) => is_declared_alike(one, other),
        _ => true,
    }
}

// The cell with its value, if it bounds an array.
fn used_if_declared(
    alloc: Global,
    old: &[ArrayDeclaration],
    new: &[ArrayDeclaration],
    cell: &CellAssignment<'_>,
) -> Result<Option<CellBound>, AllocError>
    ensures { IfOk result (λ used. used ≡ specs.used_if_declared old.now new.now cell.now) }
{
    let (one, other) = (
        array_named(old, cell.array()),
        array_named(new, cell.array()),
    );
    if !is_alike(one, other) {
        return Ok(None);
    }
    match array_with(old, new, cell) {
        Some(array) => Ok(Some(used_cell(alloc, array, cell)?)),
        None => Ok(None),
    }
}

/// Adds those cells that an array of either manifest has, unless both declare it differently.
pub(crate) fn add_declared(
    alloc: Global,
    used: &mut Vec<CellBound>,
    old: &[ArrayDeclaration],
    new: &[ArrayDeclaration],
    cells: &[CellAssignment<'_>],
) -> Result<(), AllocError>
    ensures { OnOk result (used.new.items ≡ used.old.items
        ++ specs.used_declared old.now new.now cells.now) }
{
    for cell in cells {
        if let Some(one) = used_if_declared(alloc, old, new, cell)? {
            used.push(one)?;
        }
    }
    Ok(())
}

/// Whether each cell is one of an array of either manifest.
pub(crate) fn are_declared(
    old: &[ArrayDeclaration],
    new: &[ArrayDeclaration],
    cells: &[CellAssignment<'_>],
) -> bool
    ensures { result ≡ specs.are_declared (old.now ++ new.now) cells.now }
{
    for cell in cells {
        if array_with(old, new, cell).is_none() {
            return false;
        }
    }
    true
}
