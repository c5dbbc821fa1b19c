//! A server's threads, with one more that stores its counters if there is a store.

ghost use Rattle.std.specs.Prelude.{◌≡◌, ◌≤◌, [], All, IfErr, IfOk, OnOk, length};
ghost use Rattle.std.specs.Io.KnownBytes.{Appends};
ghost use Rattle.std.specs.Option.{is_some};
ghost use Rattle.shared_cells.specs.Passes.{Gained, IsPassOf};
ghost use Rattle.workers.specs.Back.{ServerBack};
ghost use Rattle.workers.specs.Texts.{serving_line};
ghost use Rattle.serving.specs.Staffed.{IsEndFault};

use crate::kept_workers::kept_workers;
use crate::serving_fault::ServingFault;
use crate::storing::{ServerBell, file_after, thread_of};
use bounded_files::ResourceFault;
use counter_store::CounterStore;
use counters_file::KeptFile;
use hot_swap::Watcher;
use kept_cells::{KeptCells, KeptPass, StoreCover};
use operator::{Control, Loader};
use shared_cells::SharedPass;
use std::io::Write;
use std::net::{Net, TcpListener, TcpStream};
use std::sync::Wait;
use std::thread::Threads;
use std::time::Clock;
use store_thread::{StoreBell, shared_of};
use workers::{Ports, Returned, ServeOptions, ServerParts, run};

/// Serves as `workers::run` does, with a new pass for each worker and for the operator. If there is
/// a store, a thread of its own stores the counters, and replies wait for it. They wait for at most
/// half of a connection's time limit, so that they can still be sent. Also returns the file of the
/// store. Returns B4 if an allocation or a thread fails, and B3 if `out` can't be written.
// open: what `run` leaves open.
pub(crate) fn run_stored<H, L, F, O>(
    rt: &H,
    ports: Ports,
    loader: &L,
    cells: &KeptCells,
    store: Option<CounterStore<F>>,
    service: ServeOptions<'_>,
    pass: SharedPass,
    control: &mut Control,
    workers: Vec<(SharedPass, Watcher)>,
    out: &mut O,
) -> Result<(Returned<KeptPass>, Option<F>), ServingFault>
where
    H: Threads + Wait + AllocGlobal + Clock + Sync,
    H: Net<Listener = TcpListener, Stream = TcpStream>,
    L: Loader,
    F: KeptFile + Send + Drop,
    O: Write,
    requires pass { IsPassOf cells.now pass }
    requires workers { All (λ worker. IsPassOf cells.now worker.0) workers.items }
    requires new { All (λ worker. worker.0.events ≡ []) workers.items }
    requires some { 1 ≤ length workers.items }
    requires few { length workers.items ≤ 64 }
    ensures back { IfOk result (λ r. ServerBack (is_some store) (IsPassOf cells.now) Gained
        (L.loads loader.now) pass workers.items control.old r.0) }
    ensures printed { OnOk result (Appends (O.contents out.old) (O.contents out.new)
        (serving_line control.old.publishing.latest.generation)) }
    ensures fault { IfErr result IsEndFault }
{
    let Ok(kept) = kept_workers(rt.alloc(), workers, store.is_some()) else {
        return Err(ServingFault::Resource(ResourceFault::Memory));
    };
    let Ok(bell) = StoreBell::of(&store) else {
        return Err(ServingFault::Resource(ResourceFault::Memory));
    };
    let Ok(shared) = shared_of(&store) else {
        return Err(ServingFault::Resource(ResourceFault::Memory));
    };
    let bell = ServerBell { bell };
    let cover = StoreCover::of(rt, shared, service.timeout / 2);
    let parts = ServerParts {
        loader,
        cells,
        cover: &cover,
        bell: &bell,
        service,
    };
    let thread = thread_of(store, &bell, cells, service.log);
    let pass = KeptPass::plain(pass);
    match run(rt, ports, &parts, thread, pass, control, kept, out) {
        Ok((back, thread)) => Ok((back, file_after(thread))),
        Err(fault) => Err(ServingFault::Resource(fault)),
    }
}
