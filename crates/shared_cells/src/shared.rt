//! The cells, and one atomic step on them for each operation.

ghost use Rattle.std.specs.Prelude.{◌≡◌};
ghost use Rattle.cells.specs.Events.{event, CanReply};
ghost use Rattle.shared_cells.specs.Passes.{IsPassOf, Gained};

use crate::pass::SharedPass;
use crate::rule::{NamedAccess, OneEvent, OneHistory, Opening, View};
use crate::word::{to_value, to_word};
use atomic_table::Table;
use cells::{CellNo, CellOp, CellSteps};
use std::alloc::Global;
use std::marker::{Brand, Model};

/// Counters that threads share. In contracts they have their table, and the number of their passes.
#[derive(Drop)]
pub struct SharedCells {
    pub(crate) table: Table<(), View, Opening, OneHistory, Global>,
}

impl Model for SharedCells {
    ghost use Rattle.std.specs.Prelude.{◌≡◌, ◌<◌};
    ghost use Rattle.shared_cells.specs.Passes.{CellsView};

    ghost Value = { CellsView };

    ghost view = { λ s. record {
      table = s.table.shared.table_id;
      passes = s.table.shared.key.passes;
      opening = s.table.shared.key.values.value.items;
    } };

    ghost invariant = { λ s. (s.table.shared.table_id.words ≡ 8192)
        × (s.table.shared.table_id.slots ≡ 0) × (0 < s.table.shared.key.passes) };
}

impl CellSteps for SharedCells {
    type Pass = SharedPass;

    ghost belongs = { IsPassOf };

    ghost grew = { Gained };

    /// One atomic step, without a lock or a wait for another thread's work.
    // open: that a Load returns what another thread stored a moment ago: tests.
    fn act(&self, pass: &mut SharedPass, cell: CellNo, op: CellOp) -> u64 {
        self.act_as::<Brand>(pass, cell, op)
    }
}

impl SharedCells {
    // One atomic step on the cell's word, of a kind for each operation.
    fn act_as<J: NamedAccess>(&self, pass: &mut SharedPass, cell: CellNo, op: CellOp) -> u64
        requires cell { J.cell ≡ cell.number }
        requires op { J.op ≡ op }
        requires belongs { IsPassOf self.now pass.old }
        ensures grew { Gained pass.old (event cell.number op result) pass.new }
        ensures fits { CanReply cell.number op result }
    {
        let at = cell.index();
        let words = &self.table.shared;
        let seat = &mut pass.seat;
        let found = match op {
            CellOp::Load => words.load::<OneEvent<J>>(seat, at),
            CellOp::Store(new) => {
                words.store::<OneEvent<J>>(seat, at, to_word(at, new));
                return 0;
            }
            CellOp::Add(by) => words.fetch_add::<OneEvent<J>>(seat, at, to_word(at, by)),
            CellOp::Or(bits) => words.fetch_or::<OneEvent<J>>(seat, at, to_word(at, bits)),
            CellOp::And(bits) => words.fetch_and::<OneEvent<J>>(seat, at, to_word(at, bits)),
            CellOp::Xor(bits) => words.fetch_xor::<OneEvent<J>>(seat, at, to_word(at, bits)),
            CellOp::Swap(new) => words.swap::<OneEvent<J>>(seat, at, to_word(at, new)),
            CellOp::CompareExchange(expected, new) => {
                let expected = to_word(at, expected);
                let new = to_word(at, new);
                words.compare_exchange::<OneEvent<J>>(seat, at, expected, new)
            }
        };
        to_value(at, found)
    }
}
