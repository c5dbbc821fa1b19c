//! The replies of counters, and how additions are undone. A cell that doesn't exist has the value 0
//! and keeps it.

ghost use Rattle.std.specs.Prelude.{◌≡◌, ◌<◌, slice_index, slice_set, option_copied};
ghost use Rattle.cells.specs.Events.{limit};
ghost use Rattle.cells.specs.declared.event.CellOp.TheVariants.{Add};
ghost use Rattle.why_choice.specs.Ending.{counters_after};
ghost use Rattle.rule_lang.specs.Shapes as shapes;

use cells::{CellArray, CellNo, CellOp, CellSteps, PlainCells, PlainPass};
use std::marker::Model;

/// A cell that was taken from, and its previous value.
#[derive(Clone, Copy)]
pub(crate) struct CellTake {
    cell: u32,
    value: u64,
}

impl Model for CellTake {
    ghost use Rattle.std.specs.Prelude.{◌<◌};
    ghost use Rattle.cells.specs.Events.{limit};
    ghost use Rattle.why_choice.specs.Parts as specs;

    ghost Value = { specs.CellTake };

    ghost view = { λ t. record { cell = t.cell; value = t.value } };

    ghost inverse = { λ t. record { cell = t.cell; value = t.value } };

    ghost invariant = { λ t. t.value < limit t.cell };
}

/// The number of an array's cell; 0 without an array.
pub(crate) fn cell_of(array: Option<&CellArray>, index: u16) -> u32
    ensures { result ≡ shapes.cell_of (option_copied array.entry) index }
{
    match array {
        Some(array) => array.base as u32 + index as u32,
        None => 0,
    }
}

/// Adds 1 to a cell. The reply is its previous value.
pub(crate) fn add_one(counters: &mut PlainPass, cell: u32) -> u64
    ensures value { result ≡ slice_index counters.old cell }
    ensures after { counters.new ≡ counters_after counters.old cell (Add 1) }
    ensures fits { result < limit cell }
{
    counters.invariant_law();
    if cell < CellNo::COUNT as u32 {
        PlainCells.act(counters, CellNo::new(cell as u16), CellOp::Add(1))
    } else {
        0
    }
}

/// Adds 1 to a cell, so that it can be undone.
pub(crate) fn take_one(counters: &mut PlainPass, cell: u32) -> CellTake
    ensures taken { result ≡ record { cell = cell; value = slice_index counters.old cell } }
    ensures after { counters.new ≡ counters_after counters.old cell (Add 1) }
{
    let value = add_one(counters, cell);
    CellTake { cell, value }
}

impl CellTake {
    /// The previous value of the cell.
    pub fn value(&self) -> u64
        ensures { result ≡ self.now.value }
    {
        self.value
    }

    /// Restores the cell's previous value.
    pub fn give_back(self, counters: &mut PlainPass)
        ensures { counters.new ≡ slice_set counters.old self.cell self.value }
    {
        counters.invariant_law();
        if self.cell < CellNo::COUNT as u32 {
            let cell = CellNo::new(self.cell as u16);
            let _reply = PlainCells.act(counters, cell, CellOp::Store(self.value));
        }
    }
}
