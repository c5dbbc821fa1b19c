//! Workers in threads of their own: each thread is started with the promise to return its worker,
//! and all are joined in their order.

ghost use Rattle.std.specs.Prelude.{◌≡◌, ◌≤◌, [], All, IfOk, vec_capacity, vec_len};
ghost use Rattle.std.specs.List.{AllZip};
ghost use Rattle.workers.specs.Promised.{IsPromiseOf};

use crate::accept::Call;
use crate::gate::Gate;
use crate::parts::Crew;
use crate::promise::WorkerPromise;
use crate::serve_fault::ServeFault;
use crate::worker::work;
use cells::CellSteps;
use core::thread::Stack;
use cover::Cover;
use crossbeam_channel::Receiver;
use hot_swap::Watcher;
use std::snapshot::Snapshot;
use std::sync::Wait;
use std::thread::{Promise, PromisedHandle, Scope, Threads};
use std::time::Clock;

/// How large the stack of a worker's thread is, whatever limit the process has. The deepest body
/// takes less than 72 KiB of it, so that no body ends the server.
const STACK_BYTES: usize = 2097152;

/// Starts a thread for each worker, in their order. Returns B4 if a thread can't be started; the
/// others end once the queue is closed.
pub(crate) fn start_workers<'s, E, H, G, C, K>(
    rt: &'s H,
    scope: &Scope<'s, E>,
    crew: &'s Crew<'s, G, K>,
    queue: Receiver<Call>,
    cells: &'s C,
    workers: Vec<(C::Pass, Watcher)>,
) -> Result<Vec<PromisedHandle<(C::Pass, Watcher), WorkerPromise<C, K>>>, ServeFault>
where
    H: Wait + AllocGlobal + Clock + Sync,
    G: Gate + Sync,
    C: CellSteps + Sync,
    C::Pass: Send + Drop + 's,
    K: Cover<C> + Sync,
    K::Receipt: Send + Drop + 's,
    requires { All (λ worker. C.belongs cells.now worker.0) workers.items }
    ensures { IfOk result (λ threads.
        AllZip (λ worker thread. IsPromiseOf cells.now crew.now.cover.now worker thread.promise)
        workers.items threads.items) }
{
    let mut threads = Vec::new(rt.alloc());
    for worker in workers {
        let Ok(mine) = queue.clone() else {
            return Err(ServeFault::Memory);
        };
        let Ok(thread) = start_worker(rt, scope, crew, mine, cells, worker) else {
            return Err(ServeFault::Memory);
        };
        let Ok(()) = threads.push(thread) else {
            return Err(ServeFault::Memory);
        };
    }
    Ok(threads)
}

fn start_worker<'s, E, H, G, C, K>(
    rt: &'s H,
    scope: &Scope<'s, E>,
    crew: &'s Crew<'s, G, K>,
    queue: Receiver<Call>,
    cells: &'s C,
    worker: (C::Pass, Watcher),
) -> Result<PromisedHandle<(C::Pass, Watcher), WorkerPromise<C, K>>, ServeFault>
where
    H: Wait + AllocGlobal + Clock + Sync,
    G: Gate + Sync,
    C: CellSteps + Sync,
    C::Pass: Send + Drop + 's,
    K: Cover<C> + Sync,
    K::Receipt: Send + Drop + 's,
    requires { C.belongs cells.now worker.0 }
    ensures { IfOk result
        (λ thread. IsPromiseOf cells.now crew.now.cover.now worker thread.promise) }
{
    let promise = WorkerPromise {
        cells: Snapshot::of(cells),
        cover: Snapshot::of(crew.cover),
        given: Snapshot::of(&worker),
    };
    let job = move || work(rt, crew, queue, cells, worker);
    let stack = Stack::new().stack_size(STACK_BYTES);
    match stack.spawn_scoped_with(scope, promise, job) {
        Ok(thread) => Ok(thread),
        Err(_) => Err(ServeFault::Memory),
    }
}

/// Joins the threads in their order, and puts what each returns into `room`. It allocates nothing.
pub(crate) fn joined<H: Threads, T: Drop, P: Promise<T>>(
    rt: &H,
    threads: Vec<PromisedHandle<T, P>>,
    mut room: Vec<T>,
) -> Vec<T>
    requires empty { room.items ≡ [] }
    requires enough { vec_len threads ≤ vec_capacity room }
    ensures { AllZip (λ thread back. P.kept_by thread.promise back) threads.items result.items }
{
    for thread in threads {
        room.push_reserved(thread.join(rt));
    }
    room
}
