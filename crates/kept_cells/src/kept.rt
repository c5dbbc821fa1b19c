//! What the workers and the store share: the ceilings, and what is wanted of the store.

ghost use Rattle.std.specs.Prelude.{◌≡◌, ◌<◌, ◌≤◌, ◌-◌, ◌^◌, ◌++◌, [], ◌∷◌, IfOk};
ghost use Rattle.std.specs.Arc.{arc_value};
ghost use mathlib.Core.List.{IsPrefix};
ghost use Rattle.ceilings.specs.Rule.{raised_as, raised_in};
ghost use Rattle.ceilings.specs.Seats.{IsAt};
ghost use Rattle.kept_cells.specs.Tickets as specs;
ghost use Rattle.kept_cells.specs.Tickets.{IsPast, limit_word};

use crate::wanted::Wanted;
use ceilings::{Ceilings, Reader, Writer};
use cells::CellNo;
use std::alloc::{AllocError, Global};
use std::marker::Model;
use std::sync::{Arc, Wait};
use std::time::Duration;

/// A ceiling and a limit for each 64-bit cell, and what is wanted of the store. In contracts it is
/// the table of the ceilings, which also has the limits.
#[derive(Drop)]
pub struct Kept {
    ceilings: Ceilings,
    wanted: Wanted,
}

impl Model for Kept {
    ghost use Rattle.std.specs.Prelude.{◌≡◌};
    ghost use Rattle.atomic_table.specs.Seated.{TableId};

    ghost Value = { TableId };

    ghost view = { λ k. k.ceilings };

    ghost invariant = { λ k. k.ceilings.words ≡ 8192 };
}

impl Kept {
    /// Ceilings that are all 0, without limits, and the right to raise them and to set limits.
    // open: whether an allocation fails.
    pub fn new(alloc: Global) -> Result<(Arc<Kept>, Writer), AllocError>
        ensures own { IfOk result (λ made. IsAt (arc_value made.0) made.1) }
        ensures none { IfOk result (λ made. made.1.raised ≡ []) }
    {
        let wanted = Wanted::new(alloc)?;
        let (ceilings, writer) = Ceilings::new(alloc, 2 * CellNo::FIRST_NARROW as usize)?;
        let Ok(kept) = Arc::new(alloc, Kept { ceilings, wanted }) else {
            return Err(AllocError);
        };
        Ok((kept, writer))
    }

    /// A new reader of the ceilings.
    pub fn reader(&self) -> Reader
        ensures { IsAt self.now result }
    {
        self.ceilings.reader()
    }

    /// Raises the ceiling of a 64-bit cell to this number.
    pub fn raise(&self, writer: &mut Writer, cell: usize, number: u64)
        requires own { IsAt self.now writer.old }
        requires cell { cell < 4096 }
        ensures own { IsAt self.now writer.new }
        ensures raised { writer.new.raised ≡ writer.old.raised ++ raised_as cell number ∷ [] }
    {
        self.ceilings.raise(writer, cell, number);
    }

    /// Sets the limit of a 64-bit cell: a ticket from it on needs no ceiling. A limit is never set
    /// higher.
    pub fn set_limit(&self, writer: &mut Writer, cell: usize, limit: u64)
        requires own { IsAt self.now writer.old }
        requires cell { cell < 4096 }
        ensures own { IsAt self.now writer.new }
        ensures raised { writer.new.raised
            ≡ writer.old.raised ++ raised_as (limit_word cell) (2 ^ 64 - 1 - limit) ∷ [] }
    {
        self.ceilings
            .raise(writer, limit_word(cell), u64::MAX - limit);
    }

    /// Law: a reader knows only raises that the writer has made.
    pub fn seen(&self, reader: Reader, writer: &mut Writer)
        requires reader { IsAt self.now reader }
        requires writer { IsAt self.now writer.old }
        ensures same { writer.new ≡ writer.old }
        ensures seen { IsPrefix reader.raised writer.new.raised }
    {
        self.ceilings.seen(reader, writer);
    }

    /// The greatest number that the workers wanted for a cell so far, if it has reached the cell's
    /// mark; otherwise 0.
    // open: which number: tests.
    pub fn wanted(&self, cell: usize) -> u64 {
        self.wanted.number(cell)
    }

    /// Sets a cell's mark. A worker whose tickets reach it wants a higher ceiling.
    // open: that it does: tests.
    pub fn set_mark(&self, cell: usize, mark: u64) {
        self.wanted.set_mark(cell, mark);
    }

    /// Notes whether the last commit failed, or took too long. While that is so, no reply waits.
    // open: that no reply waits: tests.
    pub fn set_failing(&self, is_failing: bool) {
        self.wanted.set_failing(is_failing);
    }

    /// Wakes the store.
    // open: that it wakes: tests.
    pub fn ring(&self) {
        self.wanted.ring();
    }

    /// Waits until the store is woken, for at most this time. It may return early.
    // open: how long it waits.
    pub fn wait<H: Wait>(&self, rt: &H, most: Duration) {
        self.wanted.wait(rt, most);
    }

    pub(crate) fn look(&self, reader: &mut Reader, cell: usize) -> u64
        requires own { IsAt self.now reader.old }
        requires cell { cell < 4096 }
        ensures own { IsAt self.now reader.new }
        ensures onwards { IsPrefix reader.old.raised reader.new.raised }
        ensures raised { result ≤ raised_in cell reader.new.raised }
    {
        self.ceilings.look(reader, cell)
    }

    /// The limit of a 64-bit cell; 2^64 - 1 if none was set.
    // Only tests show that it is the one that was set.
    pub(crate) fn limit(&self, reader: &mut Reader, cell: usize) -> u64
        requires own { IsAt self.now reader.old }
        requires cell { cell < 4096 }
        ensures own { IsAt self.now reader.new }
        ensures onwards { IsPrefix reader.old.raised reader.new.raised }
        ensures past { IsPast reader.new.raised cell result }
    {
        u64::MAX - self.ceilings.look(reader, limit_word(cell))
    }

    /// Wants a higher ceiling if this number has reached the cell's mark.
    pub(crate) fn want_by_mark(&self, cell: usize, number: u64) {
        if self.wanted.mark(cell) <= number {
            self.want(cell, number);
            self.ring();
        }
    }

    pub(crate) fn want(&self, cell: usize, number: u64) {
        self.wanted.want(cell, number);
    }

    pub(crate) fn is_failing(&self) -> bool {
        self.wanted.is_failing()
    }
}

// The word that has a 64-bit cell's limit.
fn limit_word(cell: usize) -> usize
    requires { cell < 4096 }
    ensures { result ≡ specs.limit_word cell }
{
    CellNo::FIRST_NARROW as usize + cell
}
