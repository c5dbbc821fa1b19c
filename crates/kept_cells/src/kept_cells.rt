//! Shared cells whose passes note their tickets.

ghost use Rattle.std.specs.Prelude.{◌≡◌, length};
ghost use Rattle.cells.specs.Events.{AreCells};
ghost use Rattle.shared_cells.specs.Passes.{IsPassOf, Gained};

use crate::kept_pass::KeptPass;
use cells::{CellNo, CellOp, CellSteps};
use shared_cells::SharedCells;
use std::marker::Model;

/// Counters that threads share, with passes that may note their tickets. In contracts they are the
/// shared cells.
#[derive(Drop)]
pub struct KeptCells {
    cells: SharedCells,
}

impl Model for KeptCells {
    ghost use Rattle.shared_cells.specs.Passes.{CellsView};

    ghost Value = { CellsView };

    ghost view = { λ k. k.cells };
}

impl KeptCells {
    /// These cells.
    pub fn of(cells: SharedCells) -> KeptCells
        ensures { result ≡ cells }
    {
        KeptCells { cells }
    }

    /// Copies the values of all cells, by their numbers, each at some moment.
    // open: that these are values of the history, and not old ones: tests.
    pub fn copy_values(&self, values: &mut [u64])
        requires { length values.old ≡ 8192 }
        ensures { AreCells values.new }
    {
        self.cells.copy_values(values);
    }

    /// The shared cells.
    pub fn into_cells(self) -> SharedCells
        ensures { result ≡ self }
    {
        let KeptCells { cells } = self;
        cells
    }
}

impl CellSteps for KeptCells {
    type Pass = KeptPass;

    ghost belongs = { IsPassOf };

    ghost grew = { Gained };

    fn act(&self, pass: &mut KeptPass, cell: CellNo, op: CellOp) -> u64 {
        pass.act(&self.cells, cell, op)
    }
}
