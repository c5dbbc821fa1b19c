//! The numbers that a file has for cells, and the ceilings, which are never above them.

ghost use Rattle.std.specs.Prelude.{◌≡◌, ℕ, List, ◌<◌, ◌≤◌, All, IfOk, OnErr, OnOk};
ghost use Rattle.std.specs.Arc.{arc_value};
ghost use mathlib.Core.List.{IsPrefix};
ghost use Rattle.cells.specs.Events.{AreCells};
ghost use Rattle.ceilings.specs.Seats.{IsAt};
ghost use Rattle.counter_store.specs.Ledger.{AreNext, AreNotLower, IsBacked, KeepsPlaces};
ghost use Rattle.counter_store.specs.Places.{ArePlaces, places_in};
ghost use Rattle.counter_store.specs.Quotas.{CoveredAreStored};

use crate::laws::places_are_stored;
use crate::next_number::{ceiling, is_any_new, is_any_wanted, mark_of, plan};
use crate::places::{are_no_more, places};
use ceilings::{Reader, Writer};
use cells::{CellNo, Directory, arrays_lie_apart};
use kept_cells::Kept;
use std::alloc::{AllocError, Global};
use std::marker::Model;
use std::mem;
use std::sync::Arc;

/// The numbers of the last commit, and the ceilings that were raised by them.
#[derive(Drop)]
pub(crate) struct Ledger {
    kept: Arc<Kept>,
    writer: Writer,
    directory: Directory,
    places: Vec<u64>,
    /// The numbers with which the cells opened.
    opened: Vec<u64>,
    numbers: Vec<u64>,
    next: Vec<u64>,
}

impl Model for Ledger {
    ghost use Rattle.std.specs.Arc.{arc_value};
    ghost use Rattle.counter_store.specs.Ledger.{IsLedger, LedgerView};

    ghost Value = { LedgerView };

    ghost view = { λ l. record {
      ceilings = arc_value l.kept;
      raised = l.writer.raised;
      arrays = l.directory;
      numbers = l.numbers.items;
      next = l.next.items;
    } };

    ghost invariant = { λ l. IsLedger (arc_value l.kept) l.writer l.directory l.places.items
        l.numbers.items l.next.items };
}

impl Ledger {
    /// The ledger of a file with these arrays and numbers.
    pub(crate) fn new(
        alloc: Global,
        directory: Directory,
        numbers: Vec<u64>,
    ) -> Result<Ledger, AllocError>
        requires { AreCells numbers.items }
        ensures arrays { IfOk result (λ l. l.arrays ≡ directory) }
        ensures numbers { IfOk result (λ l. l.numbers ≡ numbers.items) }
    {
        let places = places(alloc, directory.arrays())?;
        let opened = numbers.to_vec(alloc)?;
        let next = numbers.to_vec(alloc)?;
        let (kept, writer) = Kept::new(alloc)?;
        let mut ledger = Ledger {
            kept,
            writer,
            directory,
            places,
            opened,
            numbers,
            next,
        };
        ledger.open();
        Ok(ledger)
    }

    /// Law: each ceiling that was raised is backed by the numbers.
    pub(crate) fn invariant_law(&self)
        ensures backed { All (IsBacked self.now.arrays self.now.numbers) self.now.raised }
        ensures cells { AreCells self.now.numbers }
        ensures next { AreCells self.now.next }
    {
        let _numbers = &self.numbers;
    }

    /// What is shared with the workers.
    pub(crate) fn kept(&self) -> &Arc<Kept>
        ensures { arc_value result.now ≡ self.now.ceilings }
    {
        &self.kept
    }

    pub(crate) fn directory(&self) -> &Directory
        ensures { result.now ≡ self.now.arrays }
    {
        &self.directory
    }

    /// The numbers of the next commit.
    pub(crate) fn next(&self) -> &[u64]
        ensures next { result.now ≡ self.now.next }
        ensures cells { AreCells result.now }
    {
        &self.next
    }

    /// Law: each place of a quota that a receipt covers is below the number of its cell.
    pub(crate) fn receipt_law(&mut self, receipt: Reader)
        requires { IsAt self.old.ceilings receipt }
        ensures same { self.new ≡ self.old }
        ensures stored { CoveredAreStored self.new.arrays self.new.numbers receipt.raised }
    {
        arrays_lie_apart();
        places_are_stored();
        let _arrays = self.directory.arrays();
        self.kept.seen(receipt, &mut self.writer);
    }

    /// Whether the workers want a higher number.
    pub(crate) fn is_wanted(&self) -> bool {
        is_any_wanted(&self.kept, &self.places)
    }

    /// Plans the next numbers, with these values of the cells without a quota. Returns whether one
    /// is new; unless all are `due`, only numbers of quotas count.
    pub(crate) fn plan(&mut self, present: &[u64], is_due: bool) -> bool
        requires { AreCells present.now }
        ensures numbers { self.new.numbers ≡ self.old.numbers }
        ensures arrays { self.new.arrays ≡ self.old.arrays }
        ensures raised { self.new.raised ≡ self.old.raised }
        ensures ceilings { self.new.ceilings ≡ self.old.ceilings }
        ensures next { AreNext (places_in self.new.arrays) present.now self.new.numbers
            self.new.next }
    {
        plan(
            &self.kept,
            &self.places,
            &self.opened,
            &self.numbers,
            present,
            &mut self.next,
        );
        if is_due {
            self.next.as_slice() != self.numbers.as_slice()
        } else {
            is_any_new(&self.places, &self.numbers, &self.next)
        }
    }

    /// Takes the next numbers, which were stored, and raises the ceilings by them.
    pub(crate) fn take_next(&mut self)
        requires { KeepsPlaces (places_in self.old.arrays) self.old.numbers self.old.next }
        ensures numbers { self.new.numbers ≡ self.old.next }
        ensures arrays { self.new.arrays ≡ self.old.arrays }
        ensures ceilings { self.new.ceilings ≡ self.old.ceilings }
    {
        mem::swap(&mut self.numbers, &mut self.next);
        self.raise_grown();
    }

    // Raises the ceilings of the cells whose numbers are higher than the others.
    fn raise_grown(&mut self)
        ensures numbers { self.new.numbers ≡ self.old.numbers }
        ensures next { self.new.next ≡ self.old.next }
        ensures arrays { self.new.arrays ≡ self.old.arrays }
        ensures ceilings { self.new.ceilings ≡ self.old.ceilings }
    {
        for cell in 0..CellNo::FIRST_NARROW {
            let at = usize::from(cell);
            if self.next[at] < self.numbers[at] {
                self.raise(at);
            }
        }
    }

    /// Adopts a directory that extends the present one, and opens its cells without a quota.
    /// One in which a cell has more places than before doesn't extend it, and is ignored.
    pub(crate) fn learn(&mut self, alloc: Global, directory: Directory) -> Result<(), AllocError>
        ensures adopted { OnOk result
            (IsPrefix self.old.arrays directory → self.new.arrays ≡ directory) }
        ensures numbers { self.new.numbers ≡ self.old.numbers }
        ensures ceilings { self.new.ceilings ≡ self.old.ceilings }
        ensures nothing { OnErr result (self.new ≡ self.old) }
    {
        let places = places(alloc, directory.arrays())?;
        if !are_no_more(&places, &self.places) {
            return Ok(());
        }
        self.adopt(directory, places);
        Ok(())
    }

    fn adopt(&mut self, directory: Directory, places: Vec<u64>)
        requires places { ArePlaces directory places.items }
        requires no_more { (old : List ℕ) → ArePlaces self.old.arrays old
            → AreNotLower places.items old }
        ensures adopted { self.new.arrays ≡ directory }
        ensures numbers { self.new.numbers ≡ self.old.numbers }
        ensures ceilings { self.new.ceilings ≡ self.old.ceilings }
    {
        let _old_directory = mem::replace(&mut self.directory, directory);
        let _old_places = mem::replace(&mut self.places, places);
        self.open();
    }

    // Opens each cell that has no place left, and sets the limits of all.
    fn open(&mut self)
        ensures numbers { self.new.numbers ≡ self.old.numbers }
        ensures arrays { self.new.arrays ≡ self.old.arrays }
        ensures ceilings { self.new.ceilings ≡ self.old.ceilings }
    {
        for cell in 0..CellNo::FIRST_NARROW {
            let at = usize::from(cell);
            if self.places[at] <= self.numbers[at] {
                self.raise(at);
            }
            self.set_limit(at);
        }
    }

    // Sets a cell's limit: that many places it has.
    fn set_limit(&mut self, cell: usize)
        requires { cell < 4096 }
        ensures numbers { self.new.numbers ≡ self.old.numbers }
        ensures arrays { self.new.arrays ≡ self.old.arrays }
        ensures ceilings { self.new.ceilings ≡ self.old.ceilings }
    {
        self.kept
            .set_limit(&mut self.writer, cell, self.places[cell]);
    }

    // Raises a cell's ceiling as far as its number allows.
    fn raise(&mut self, cell: usize)
        requires { cell < 4096 }
        ensures numbers { self.new.numbers ≡ self.old.numbers }
        ensures next { self.new.next ≡ self.old.next }
        ensures arrays { self.new.arrays ≡ self.old.arrays }
        ensures ceilings { self.new.ceilings ≡ self.old.ceilings }
    {
        let (places, number) = (self.places[cell], self.numbers[cell]);
        let kept = &self.kept;
        kept.raise(&mut self.writer, cell, ceiling(places, number));
        kept.set_mark(cell, mark_of(places, number, kept.wanted(cell)));
    }
}
