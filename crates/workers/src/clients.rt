//! The clients' side of a server: one thread accepts connections, and the workers answer them.

ghost use Rattle.std.specs.Prelude.{◌≤◌, All, length};

use crate::accept::Call;
use crate::crew::start_workers;
use crate::gate::Gate;
use crate::parts::{Crew, ServeOptions};
use crate::queue::{WAITING, fill};
use crate::serve_fault::ServeFault;
use crate::stopping::StopFlags;
use cells::CellSteps;
use cover::Uncovered;
use crossbeam_channel::Sender;
use hot_swap::Watcher;
use server_log::LogQueue;
use std::net::TcpListener;
use std::sync::Wait;
use std::sync::atomic::AtomicBool;
use std::thread::{self, Scope, Threads};
use std::time::Clock;

/// Answers each connection within the time limit, until `stop` is set and one more connection is
/// accepted, which isn't answered. The port is then closed, and the connections in the queue are
/// still answered. Each pair of a pass (a ghost token) and a watcher is a worker thread, and there
/// are 1 to 64. B4 is returned before any connection is accepted. This is the specification's call,
/// whose gate a test uses; a server with an operator is `run`, without a gate.
// open: what `run` leaves open; that the gate is called around each answer: a test.
pub fn serve<'x, H, G, C>(
    rt: &H,
    gate: &'x G,
    listener: TcpListener,
    cells: &C,
    workers: Vec<(C::Pass, Watcher)>,
    stop: &AtomicBool,
    service: ServeOptions<'x>,
) -> Result<(), ServeFault>
where
    H: Threads + Wait + AllocGlobal + Clock + Sync,
    G: Gate + Sync,
    C: CellSteps + Sync,
    C::Pass: Send + Drop,
    requires belongs { All (λ worker. C.belongs cells.now worker.0) workers.items }
    requires some { 1 ≤ length workers.items }
    requires few { length workers.items ≤ 64 }
{
    let ended = AtomicBool::new(false);
    let cover = Uncovered;
    let crew = Crew::new(gate, &cover, service, workers.len(), &ended);
    let Ok((queue, from)) = crossbeam_channel::bounded::<Call, _>(rt.alloc(), WAITING) else {
        return Err(ServeFault::Memory);
    };
    thread::scope(
        thread::scope_env(),
        rt,
        |scope| -> Result<(), ServeFault>
            requires { All (λ worker. C.belongs cells.now worker.0) workers.items }
        {
            let Ok(_threads) = start_workers(rt, scope, &crew, from, cells, workers) else {
                return Err(ServeFault::Memory);
            };
            fill(rt, listener, queue, stop, None, service.log);
            Ok(())
        },
    )
}

/// Starts the thread that accepts connections until the clients' side ends, and then those that the
/// system has by then. Returns B4 if it can't be started.
pub(crate) fn start_accepting<'s, E, H>(
    rt: &'s H,
    scope: &Scope<'s, E>,
    listener: TcpListener,
    queue: Sender<Call>,
    ends: &'s StopFlags,
    log: Option<&'s LogQueue>,
) -> Result<(), ServeFault>
where
    H: Wait + AllocGlobal + Clock + Sync,
{
    let (stop, wake) = (&ends.clients, Some(&ends.wake));
    match scope.spawn(move || fill(rt, listener, queue, stop, wake, log)) {
        Ok(_) => Ok(()),
        Err(_) => Err(ServeFault::Memory),
    }
}
