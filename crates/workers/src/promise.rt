//! The promise of a worker's thread: to return the worker that it was given, with what this did.

use cells::CellSteps;
use cover::Cover;
use hot_swap::Watcher;
use std::snapshot::Snapshot;
use std::thread::Promise;

/// The promise of a worker's thread, which was given this worker over these cells and their cover.
#[derive(Drop)]
pub(crate) struct WorkerPromise<C: CellSteps, K> {
    pub(crate) cells: Snapshot<C>,
    pub(crate) cover: Snapshot<K>,
    pub(crate) given: Snapshot<(C::Pass, Watcher)>,
}

impl<C: CellSteps, K: Cover<C>> Promise<(C::Pass, Watcher)> for WorkerPromise<C, K> {
    ghost use Rattle.workers.specs.Back.{WorkerBack};

    ghost kept_by = { λ p back. WorkerBack (K.withholds p.cover.value) (C.belongs p.cells.value)
        C.grew p.given.value back };
}
