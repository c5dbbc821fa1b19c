//! The values of cells at some moment, without a pass.

ghost use Rattle.std.specs.Prelude.{◌≡◌, ◌<◌, length};
ghost use Rattle.cells.specs.Events.{AreCells, limit};

use crate::rule::Look;
use crate::shared::SharedCells;
use crate::word::to_value;
use cells::CellNo;

impl SharedCells {
    /// The value of a cell at some moment. No pass does this, so the history has no event for it.
    // open: that it is a value of the history, and not an old one: tests.
    pub fn value(&self, cell: CellNo) -> u64
        ensures { result < limit cell.number }
    {
        let at = cell.index();
        let (found, _seat) = self.table.shared.load_new_seat::<Look>(at);
        to_value(at, found)
    }

    /// Copies the values of all cells, by their numbers, each at some moment.
    // open: as of `value`.
    pub fn copy_values(&self, values: &mut [u64])
        requires { length values.old ≡ 8192 }
        ensures { AreCells values.new }
    {
        for cell in 0..CellNo::COUNT {
            values[usize::from(cell)] = self.value(CellNo::new(cell));
        }
    }
}
