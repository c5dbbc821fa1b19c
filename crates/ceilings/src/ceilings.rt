//! The ceilings, the writer that raises them, and the readers.

ghost use Rattle.std.specs.Prelude.{◌≡◌, ◌<◌, ◌≤◌, ◌++◌, [], ◌∷◌, IfOk};
ghost use mathlib.Core.List.{IsPrefix};
ghost use Rattle.cells.specs.Events.{AreZeros};
ghost use Rattle.ceilings.specs.Rule.{raised_as, raised_in};
ghost use Rattle.ceilings.specs.Seats.{IsAt};

use crate::rule::{Compare, Enter, JoinReader, Known, Look, OneLog, Raise};
use atomic_table::{Seat, Table};
use std::alloc::{AllocError, Global};
use std::marker::Model;

/// A ceiling for each of a number of counters. In contracts it is its table.
#[derive(Drop)]
pub struct Ceilings {
    table: Table<(), Known, usize, OneLog, Global>,
}

impl Model for Ceilings {
    ghost use Rattle.std.specs.Prelude.{◌≡◌, ◌<◌};
    ghost use Rattle.atomic_table.specs.Seated.{TableId};

    ghost Value = { TableId };

    ghost view = { λ c. c.table.shared.table_id };

    ghost invariant = { λ c. (c.table.shared.table_id.words ≡ c.table.shared.key)
        × (c.table.shared.table_id.slots ≡ 0) × (0 < c.table.shared.key) };
}

/// The right to raise ceilings. In contracts it has all raises.
#[derive(Drop)]
pub struct Writer {
    seat: Seat<(), Known>,
}

impl Model for Writer {
    ghost use Rattle.std.specs.Prelude.{◌≡◌, [], true};
    ghost use Rattle.ceilings.specs.Seats.{SeatView};

    ghost Value = { SeatView };

    ghost view = { λ k. record { table = k.seat.table_id; raised = k.seat.me.0.raised } };

    ghost invariant = { λ k. (k.seat.me.0.is_writer ≡ true) × (k.seat.me.1 ≡ []) };
}

/// The right to look at ceilings. In contracts it has the raises that it knows, a prefix of all.
#[derive(Drop)]
pub struct Reader {
    seat: Seat<(), Known>,
}

impl Model for Reader {
    ghost use Rattle.std.specs.Prelude.{◌≡◌, []};
    ghost use Rattle.ceilings.specs.Seats.{SeatView};

    ghost Value = { SeatView };

    ghost view = { λ r. record { table = r.seat.table_id; raised = r.seat.me.0.raised } };

    ghost invariant = { λ r. r.seat.me.1 ≡ [] };
}

impl Ceilings {
    /// Ceilings that are all 0, and their writer.
    // open: whether an allocation fails.
    pub fn new(alloc: Global, count: usize) -> Result<(Ceilings, Writer), AllocError>
        requires { 0 < count }
        ensures words { IfOk result (λ made. made.0.words ≡ count) }
        ensures own { IfOk result (λ made. IsAt made.0 made.1) }
        ensures none { IfOk result (λ made. made.1.raised ≡ []) }
    {
        let words = zeros(alloc, count)?;
        let (table, seat) = Table::of_words(alloc, words.as_slice(), &count)?;
        Ok((Ceilings { table }, Writer { seat }))
    }

    /// A new reader.
    pub fn reader(&self) -> Reader
        ensures { IsAt self.now result }
    {
        let (_found, seat) = self.table.shared.load_new_seat::<Enter>(0);
        Reader { seat }
    }

    /// The ceiling of a counter. From then on the reader knows that it was raised at least so far.
    // open: that it is the newest ceiling: tests.
    pub fn look(&self, reader: &mut Reader, cell: usize) -> u64
        requires own { IsAt self.now reader.old }
        requires cell { cell < self.now.words }
        ensures own { IsAt self.now reader.new }
        ensures onwards { IsPrefix reader.old.raised reader.new.raised }
        ensures raised { result ≤ raised_in cell reader.new.raised }
    {
        self.table.shared.load::<Look>(&mut reader.seat, cell)
    }

    /// Raises the ceiling of a counter to this number.
    pub fn raise(&self, writer: &mut Writer, cell: usize, number: u64)
        requires own { IsAt self.now writer.old }
        requires cell { cell < self.now.words }
        ensures own { IsAt self.now writer.new }
        ensures raised { writer.new.raised ≡ writer.old.raised ++ raised_as cell number ∷ [] }
    {
        self.table
            .shared
            .store::<Raise>(&mut writer.seat, cell, number);
    }

    /// Law: a reader knows only raises that the writer has made.
    pub fn seen(&self, reader: Reader, writer: &mut Writer)
        requires reader { IsAt self.now reader }
        requires writer { IsAt self.now writer.old }
        ensures same { writer.new ≡ writer.old }
        ensures seen { IsPrefix reader.raised writer.new.raised }
    {
        let Reader { seat } = reader;
        let table = &self.table.shared;
        table.join_seat::<JoinReader>(&mut writer.seat, seat);
        let _found = table.load::<Compare>(&mut writer.seat, 0);
    }
}

// `count` zeros.
fn zeros(alloc: Global, count: usize) -> Result<Vec<u64>, AllocError>
    ensures { IfOk result (λ v. AreZeros count v.items) }
{
    Vec::from_elem(alloc, 0, count)
}
