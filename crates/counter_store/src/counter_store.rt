//! The store of a server's counters: their ledger, and the file to which it commits.

ghost use Rattle.std.specs.Prelude.{◌≡◌, ◌≢◌, All, IfOk, IfSome, IsTrue, OnErr, OnOk, Ok};
ghost use Rattle.std.specs.Prelude.{false, map, string_bytes, true};
ghost use Rattle.std.specs.Arc.{arc_value};
ghost use mathlib.Core.List.{IsPrefix};
ghost use Rattle.cells.specs.Events.{AreCells};
ghost use Rattle.ceilings.specs.Seats.{IsAt};
ghost use Rattle.counters_file.specs.Kept.{IsWhole, Keeps};
ghost use Rattle.counters_file.specs.Text.{contents};
ghost use Rattle.counter_store.specs.Ledger.{AreNext, IsBacked};
ghost use Rattle.counter_store.specs.Places.{places_in};
ghost use Rattle.counter_store.specs.Quotas.{CoveredAreStored};

use crate::ledger::Ledger;
use ceilings::Reader;
use cells::Directory;
use counters_file::{CountersFault, KeptFile, commit};
use kept_cells::Kept;
use std::alloc::{AllocError, Global};
use std::mem;
use std::sync::Arc;

/// The store of a server's counters.
#[derive(Drop)]
pub struct CounterStore<F> {
    ledger: Ledger,
    /// The appids of the halted apps.
    halted: Vec<String>,
    file: F,
    /// Whether there is something besides numbers that the file doesn't have yet.
    has_news: bool,
}

impl<F: KeptFile + Drop> CounterStore<F> {
    /// The store of counters that opened with these arrays and values, as the file says. Their
    /// cells without a quota are open at once.
    // open: whether an allocation fails.
    pub fn new(
        alloc: Global,
        file: F,
        halted: Vec<String>,
        directory: Directory,
        values: Vec<u64>,
    ) -> Result<CounterStore<F>, AllocError>
        requires { AreCells values.items }
        ensures arrays { IfOk result (λ k. k.ledger.arrays ≡ directory) }
        ensures numbers { IfOk result (λ k. k.ledger.numbers ≡ values.items) }
        ensures halted { IfOk result (λ k. k.halted ≡ halted) }
        ensures file { IfOk result (λ k. k.file ≡ file) }
    {
        let ledger = Ledger::new(alloc, directory, values)?;
        Ok(CounterStore {
            ledger,
            halted,
            file,
            has_news: true,
        })
    }

    /// Law: each place below a ceiling is below the number that the last commit has for its cell.
    pub fn invariant_law(&self)
        ensures { All (IsBacked self.now.ledger.arrays self.now.ledger.numbers)
            self.now.ledger.raised }
    {
        self.ledger.invariant_law();
    }

    /// Law: take events that a receipt of this store's ceilings covers. Each place of a quota that
    /// they took is below the number that the last commit has for its cell.
    pub fn receipt_law(&mut self, receipt: Reader)
        requires { IsAt self.old.ledger.ceilings receipt }
        ensures same { self.new.ledger ≡ self.old.ledger }
        ensures stored { CoveredAreStored self.new.ledger.arrays self.new.ledger.numbers
            receipt.raised }
    {
        self.ledger.receipt_law(receipt);
    }

    /// What is shared with the workers: with it they look at the ceilings, and wake the thread of
    /// the store, which waits.
    // open: whether there are too many owners.
    pub fn shared(&self) -> Result<Arc<Kept>, AllocError>
        ensures { IfOk result (λ kept. arc_value kept ≡ self.now.ledger.ceilings) }
    {
        match Arc::try_clone(self.ledger.kept()) {
            Ok(kept) => Ok(kept),
            Err(_) => Err(AllocError),
        }
    }

    /// Adopts all arrays of the server, which go on from those that it has, and the appids of its
    /// halted apps. If an allocation fails, nothing is adopted.
    pub fn learn(
        &mut self,
        alloc: Global,
        halted: Vec<String>,
        directory: Directory,
    ) -> Result<(), AllocError>
        ensures adopted { OnOk result (IsPrefix self.old.ledger.arrays directory
            → self.new.ledger.arrays ≡ directory) }
        ensures numbers { self.new.ledger.numbers ≡ self.old.ledger.numbers }
        ensures ceilings { self.new.ledger.ceilings ≡ self.old.ledger.ceilings }
        ensures halted { OnOk result (self.new.halted ≡ halted) }
        ensures file { self.new.file ≡ self.old.file }
        ensures nothing { OnErr result (self.new ≡ self.old) }
    {
        self.ledger.learn(alloc, directory)?;
        let _before = mem::replace(&mut self.halted, halted);
        self.has_news = true;
        Ok(())
    }

    /// Whether there is something to store besides new values of cells without a quota.
    // open: whether there is: tests.
    pub fn is_wanted(&self) -> bool {
        self.has_news || self.ledger.is_wanted()
    }

    /// Lets replies wait again after a commit that failed. It is called if nothing is wanted.
    // open: that replies wait: tests.
    pub fn forget_failure(&self) {
        self.ledger.kept().set_failing(false);
    }

    /// Stores what the workers want, and then raises the ceilings. Cells without a quota get these
    /// present values. Returns whether there was something to store: a new value of a cell without
    /// a quota counts only if it `is_due`. Returns K4 if the file can't be written, and B4 if an
    /// allocation fails. Then no ceiling is raised, and no reply waits until a commit succeeds.
    // open: what the workers want; that Ok(false) means nothing to store; when K4 and B4 are
    // returned.
    pub fn commit(
        &mut self,
        alloc: Global,
        present: &[u64],
        is_due: bool,
    ) -> Result<bool, CountersFault>
        requires { AreCells present.now }
        ensures arrays { self.new.ledger.arrays ≡ self.old.ledger.arrays }
        ensures ceilings { self.new.ledger.ceilings ≡ self.old.ledger.ceilings }
        ensures halted { self.new.halted ≡ self.old.halted }
        ensures next { result ≡ Ok true → AreNext (places_in self.old.ledger.arrays) present.now
            self.old.ledger.numbers self.new.ledger.numbers }
        ensures stored { IfOk result (λ is_new. IsTrue is_new
            → IfSome (F.known self.old.file) (λ _. IfSome (F.known self.new.file)
            (Keeps (contents false (map string_bytes self.old.halted.items)
            self.new.ledger.arrays self.new.ledger.numbers)))) }
        ensures failed { OnErr result (AreNext (places_in self.old.ledger.arrays) present.now
            self.old.ledger.numbers self.new.ledger.next × IsWhole (contents false (map string_bytes
            self.old.halted.items) self.new.ledger.arrays self.new.ledger.next)
            (F.known self.old.file) (F.known self.new.file)) }
        ensures same { result ≢ Ok true → (self.new.ledger.numbers ≡ self.old.ledger.numbers)
            × (self.new.ledger.raised ≡ self.old.ledger.raised) }
    {
        let is_new = self.ledger.plan(present, is_due);
        if !is_new && !self.has_news {
            self.ledger.kept().set_failing(false);
            return Ok(false);
        }
        let directory = self.ledger.directory();
        match commit(
            alloc,
            &mut self.file,
            false,
            &self.halted,
            directory,
            self.ledger.next(),
        ) {
            Ok(()) => {
                self.ledger.take_next();
                self.has_news = false;
                self.ledger.kept().set_failing(false);
                Ok(true)
            }
            Err(fault) => {
                self.ledger.kept().set_failing(true);
                Err(fault)
            }
        }
    }

    /// The file, for the last commit of the server.
    pub fn into_file(self) -> F
        ensures { result ≡ self.file }
    {
        let CounterStore {
            ledger: _ledger,
            halted: _halted,
            file,
            has_news: _has_news,
        } = self;
        file
    }
}
