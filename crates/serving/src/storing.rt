//! The thread that stores a server's counters, and its bell, among the server's threads.

ghost use Rattle.std.specs.Prelude.{◌≡◌, option_map};

use counter_store::CounterStore;
use counters_file::KeptFile;
use kept_cells::{KeptCells, StoreCover};
use operator::Control;
use server_log::LogQueue;
use std::sync::Wait;
use std::time::Clock;
use store_thread::{StoreBell, Storing, storing_of};
use workers::{Bell, CounterThread, StoresFor};

/// The bell of a server's store.
#[derive(Drop)]
pub(crate) struct ServerBell {
    pub(crate) bell: StoreBell,
}

impl Bell for ServerBell {
    fn note<H>(&self, rt: &H, control: &Control)
    where
        H: Wait + AllocGlobal,
    {
        self.bell.note(rt, control);
    }

    fn has_lost_note(&self) -> bool {
        self.bell.has_lost_note()
    }

    fn end(&self) {
        self.bell.end();
    }
}

/// The thread of a server's store.
#[derive(Drop)]
pub(crate) struct ServerStore<'b, 'c, 'l, F: Drop> {
    storing: Storing<'b, 'c, 'l, F>,
}

impl<'b, 'c, 'l, F: KeptFile + Drop> CounterThread for ServerStore<'b, 'c, 'l, F> {
    fn run<H>(&mut self, rt: &H)
    where
        H: Wait + AllocGlobal + Clock,
    {
        self.storing.run(rt);
    }
}

impl<'b, 'c, 'l, 'h, F, H> StoresFor<StoreCover<'h, H>> for ServerStore<'b, 'c, 'l, F>
where
    F: KeptFile + Drop,
    H: Clock,
{
    ghost use Rattle.std.specs.Prelude.{◌≡◌, Some, option_map};
    ghost use Rattle.std.specs.Arc.{arc_value};

    ghost stores_for = { λ thread cover.
        option_map arc_value cover.kept ≡ Some thread.storing.store.ledger.ceilings };
}

/// The thread of a store, if there is a store.
pub(crate) fn thread_of<'b, 'c, 'l, F: KeptFile + Drop>(
    store: Option<CounterStore<F>>,
    bell: &'b ServerBell,
    cells: &'c KeptCells,
    log: Option<&'l LogQueue>,
) -> Option<ServerStore<'b, 'c, 'l, F>>
    ensures { option_map (λ t. t.storing.store.ledger.ceilings) result
        ≡ option_map (λ s. s.ledger.ceilings) store }
{
    match storing_of(store, &bell.bell, cells, log) {
        Some(storing) => Some(ServerStore { storing }),
        None => None,
    }
}

/// The file of a thread that has ended, for the last commit.
pub(crate) fn file_after<F: KeptFile + Drop>(
    thread: Option<ServerStore<'_, '_, '_, F>>,
) -> Option<F> {
    match thread {
        Some(ServerStore { storing }) => Some(storing.into_file()),
        None => None,
    }
}
