//! Closes the cells: one seat, which is a ghost token, takes over the accounts of all passes, and
//! the table is closed with it.

ghost use Rattle.std.specs.Prelude.{◌≡◌, All, length, slice_index, IfOk, IsOk};
ghost use Rattle.shared_cells.specs.Passes.{AreClosed, AreLeftBy, IsPassOf};
ghost use Rattle.shared_cells.specs.Quotas.{QuotasAreExact};

use crate::pass::SharedPass;
use crate::rule::TakeIn;
use crate::shared::SharedCells;
use crate::shared_fault::SharedFault;
use crate::word::to_value;
use cells::CellNo;
use std::alloc::Global;
use std::marker::Model;
use std::snapshot::Snapshot;

/// Cells that are closed. In contracts they have the cells and the passes that were closed, and the
/// list of their values.
pub struct Closed {
    table: atomic_table::Closed<(), Global>,
    cells: Snapshot<SharedCells>,
    passes: Snapshot<Vec<SharedPass>>,
}

impl Model for Closed {
    ghost use Rattle.std.specs.Prelude.{◌≡◌};
    ghost use Rattle.std.specs.Slots.{slots_items, slots_len, IsFull};
    ghost use Rattle.shared_cells.specs.Passes.{ClosedView};
    ghost use Rattle.shared_cells.specs.Words.{stored_values};

    ghost Value = { ClosedView };

    ghost view = { λ c. record {
      cells = c.cells.value;
      passes = c.passes.value.items;
      values = stored_values 0 (slots_items c.table.words);
    } };

    ghost invariant = { λ c. IsFull c.table.words × (slots_len c.table.words ≡ 8192)
        × (slots_len c.table.slots ≡ 0) };
}

impl SharedCells {
    /// Ends all work on the cells, and returns their last values. All passes that `new` made must
    /// be passed in, in any order. It allocates nothing, so S1 is never returned.
    pub fn close(self, mut passes: Vec<SharedPass>) -> Result<Closed, SharedFault>
        requires all { length passes.items ≡ self.passes }
        requires own { All (IsPassOf self) passes.items }
        ensures closed { IfOk result (AreClosed self) }
        ensures passes { IfOk result (λ c. c.passes ≡ passes.items) }
        ensures history { IfOk result (λ c. AreLeftBy self.opening c.passes c.values) }
        ensures quotas { IfOk result (λ c. QuotasAreExact self.opening c.passes c.values) }
        ensures always { IsOk result }
    {
        let cells = Snapshot::of(&self);
        let all = Snapshot::of(&passes);
        let SharedCells { table } = self;
        let Some(last) = passes.pop() else {
            unreachable!()
        };
        let mut seat = last.into_seat();
        while let Some(pass) = passes.pop() {
            table
                .shared
                .join_seat::<TakeIn>(&mut seat, pass.into_seat());
        }
        let table = table.close_with(seat);
        Ok(Closed {
            table,
            cells,
            passes: all,
        })
    }
}

impl Closed {
    /// The last value of a cell.
    pub fn value(&self, cell: CellNo) -> u64
        ensures { result ≡ slice_index self.now.values cell.number }
    {
        let at = cell.index();
        to_value(at, self.table.word(at))
    }

    /// Copies the last values of all cells, by their numbers.
    pub fn copy_values(&self, values: &mut [u64])
        requires { length values.old ≡ 8192 }
        ensures { values.new ≡ self.now.values }
    {
        let _table = &self.table;
        for cell in 0..CellNo::COUNT {
            values[usize::from(cell)] = self.value(CellNo::new(cell));
        }
    }
}

impl Drop for Closed {
    fn drop(self) {
        let Self {
            table,
            cells: _cells,
            passes: _passes,
        } = self;
        table.free();
    }
}
