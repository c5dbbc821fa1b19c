//! Counters with given values of cells.

ghost use Rattle.std.specs.Prelude.{◌≡◌, ◌<◌, true, false, Some, None, IfOk, IfSome, IfNone};
ghost use Rattle.std.specs.Prelude.{nat_lt, option_copied};
ghost use Rattle.cells.specs.Events.{AreZeros, limit};
ghost use Rattle.dry_run.specs.Counters as specs;

use cell_assignments::CellAssignment;
use cells::{CellArray, CellNo, CellOp, CellSteps, PlainCells, PlainPass};
use rule_lang::array_named;
use std::alloc::{AllocError, Global};

/// The first cell of 32 bits.
const NARROW: u16 = 4096;

/// How many cells there are.
const CELLS: u32 = 8192;

/// Counters that are all 0.
pub(crate) fn zero_counters(alloc: Global) -> Result<PlainPass, AllocError>
    ensures { IfOk result (AreZeros 8192) }
{
    match PlainCells::new(alloc) {
        Ok((_cells, counters)) => Ok(counters),
        Err(_) => Err(AllocError),
    }
}

/// Sets cells to the given values, in order. Returns false if the arrays don't have such a cell, or
/// its value doesn't fit.
pub(crate) fn set_cells(
    arrays: &[CellArray],
    counters: &mut PlainPass,
    assignments: &[CellAssignment<'_>],
) -> bool
    ensures set { result ≡ true
        → specs.with_cells arrays.now counters.old assignments.now ≡ Some counters.new }
    ensures unset { result ≡ false
        → specs.with_cells arrays.now counters.old assignments.now ≡ None }
{
    for cell in assignments {
        if !set_cell(arrays, counters, cell) {
            return false;
        }
    }
    true
}

/// Sets those cells that the arrays have and whose values fit.
pub(crate) fn set_declared(
    arrays: &[CellArray],
    counters: &mut PlainPass,
    assignments: &[CellAssignment<'_>],
)
    ensures { counters.new ≡ specs.with_declared arrays.now counters.old assignments.now }
{
    for cell in assignments {
        let _is_set = set_cell(arrays, counters, cell);
    }
}

// Sets one cell, if the arrays have it and the value fits.
fn set_cell(arrays: &[CellArray], counters: &mut PlainPass, assignment: &CellAssignment<'_>) -> bool
    ensures set { result ≡ true
        → specs.with_cell arrays.now counters.old assignment.now ≡ Some counters.new }
    ensures unset { result ≡ false → specs.with_cell arrays.now counters.old assignment.now ≡ None }
    ensures same { result ≡ false → counters.new ≡ counters.old }
{
    match cell_in(assignment.index(), array_named(arrays, assignment.array())) {
        Some(cell) => put(counters, cell, assignment.value()),
        None => false,
    }
}

// The cell with an index in an array.
fn cell_in(index: u16, array: Option<&CellArray>) -> Option<CellNo>
    ensures found { IfSome result (λ c.
        specs.cell_in index (option_copied array.entry) ≡ Some c.number) }
    ensures none { IfNone result (specs.cell_in index (option_copied array.entry) ≡ None) }
{
    match array {
        Some(array) if index < array.length => cell_at(array.base as u32 + index as u32),
        _ => None,
    }
}

fn cell_at(number: u32) -> Option<CellNo>
    ensures found { IfSome result (λ c. specs.cell_at number ≡ Some c.number) }
    ensures none { IfNone result (specs.cell_at number ≡ None) }
{
    if number < CELLS {
        Some(CellNo::new(number as u16))
    } else {
        None
    }
}

// Sets a value, if it fits the cell.
fn put(counters: &mut PlainPass, cell: CellNo, value: u64) -> bool
    ensures set { result ≡ true
        → specs.with_value counters.old value cell.number ≡ Some counters.new }
    ensures unset { result ≡ false → specs.with_value counters.old value cell.number ≡ None }
    ensures same { result ≡ false → counters.new ≡ counters.old }
{
    if !fits(cell, value) {
        return false;
    }
    let _reply = PlainCells.act(counters, cell, CellOp::Store(value));
    true
}

// Whether a value fits the cell.
fn fits(cell: CellNo, value: u64) -> bool
    ensures { result ≡ nat_lt value (limit cell.number) }
{
    if cell.number < NARROW {
        true
    } else {
        value < 1 << 32
    }
}
