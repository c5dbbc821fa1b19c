//! A server from its start to its end. One thread accepts the clients' connections, each worker has
//! a thread, and this thread answers the operator's port. All threads exist before the server
//! prints that it serves. Once the operator has requested a stop, the clients' port is ended
//! (`ports`), then their queue, and the workers end. The operator's port stays open until they have
//! ended (`stopping`). Each worker's thread returns the worker (`promise`), so all is returned at
//! the end. If counters are stored, one more thread does that until the workers have ended
//! (`counter_thread`).

ghost use Rattle.std.specs.Io.KnownBytes.{Appends};
ghost use Rattle.std.specs.Option.{is_some};
ghost use Rattle.std.specs.Prelude.{◌≡◌, ◌≤◌, All, IfOk, IfSome, OnOk, length, map};
ghost use Rattle.std.specs.Prelude.{string_bytes};
ghost use Rattle.cells.specs.Directory.{IsDirectory};
ghost use Rattle.workers.specs.Back.{IsPublished, OperatorBack, ServerBack};
ghost use Rattle.workers.specs.Texts.{serving_line};

use crate::accept::{Call, OperatorEnd};
use crate::counter_thread::{Bell, CounterThread, StoresFor, ended_counters, start_others};
use crate::crew::{joined, start_workers};
use crate::gate::NoGate;
use crate::operating::operate;
use crate::parts::{Crew, ServerParts};
use crate::ports::{PortEnd, Ports};
use crate::queue::WAITING;
use crate::ready::{Ready, ReadyLine, take_back};
use crate::returned::Returned;
use crate::stopping::{StopFlags, reply_stopping};
use bounded_files::ResourceFault;
use cells::CellSteps;
use cover::Cover;
use hot_swap::Watcher;
use operator::{Control, Loader};
use server_log::note_serving;
use std::alloc::Global;
use std::io::Write;
use std::net::{Net, TcpListener, TcpStream};
use std::sync::Wait;
use std::thread::{self, Threads};
use std::time::Clock;

// Answers the operator until a stop is requested, and then ends the clients' side. Until that has
// ended it replies to each connection that the server stops. Returns the operator's pass, and how
// its thread ended.
fn operate_then_end<H, L, C, K, B>(
    rt: &H,
    listener: &TcpListener,
    parts: &ServerParts<'_, L, C, K, B>,
    mut pass: C::Pass,
    control: &mut Control,
    clients: PortEnd,
    ends: &StopFlags,
) -> (C::Pass, OperatorEnd)
where
    H: Wait + AllocGlobal + Clock,
    H: Net<Stream = TcpStream>,
    L: Loader,
    C: CellSteps,
    C::Pass: Drop,
    B: Bell,
    requires { C.belongs parts.now.cells.now pass }
    ensures { OperatorBack (C.belongs parts.now.cells.now) C.grew (L.loads parts.now.loader.now)
        result.1 (pass, control.old) (result.0, control.new) }
{
    let end = operate(rt, listener, parts, &mut pass, control, &ends.operator);
    clients.end(rt, ends);
    reply_stopping(rt, listener, &ends.operator);
    (pass, end)
}

// What is returned once all threads have ended.
fn returned<P: Drop>(
    alloc: Global,
    operator: (P, OperatorEnd),
    workers: Vec<(P, Watcher)>,
    control: &mut Control,
) -> Returned<P>
    ensures operator { result.operator ≡ operator.0 }
    ensures end { result.end ≡ operator.1 }
    ensures workers { result.workers ≡ workers }
    ensures known { result.published ≡ control.old.publishing.known }
    ensures published { IsPublished result.published result.generation }
    ensures arrays { result.directory ≡ control.old.arrays }
    ensures halted { map string_bytes result.halted.items ≡ control.old.halted }
    ensures directory { IsDirectory control.old.arrays }
{
    control.invariant_law();
    let (operator, end) = operator;
    let published = control.tell();
    let generation = control.generation();
    let halted = control.take_halted(alloc);
    let directory = control.take_arrays(alloc);
    Returned {
        operator,
        end,
        workers,
        published,
        generation,
        directory,
        halted,
    }
}

// Serves as `run` does, and also returns what `ready` returns.
fn run_and_print<H, L, C, K, B, T, S>(
    rt: &H,
    ports: Ports,
    parts: &ServerParts<'_, L, C, K, B>,
    counters: Option<T>,
    pass: C::Pass,
    control: &mut Control,
    workers: Vec<(C::Pass, Watcher)>,
    ready: S,
) -> Result<(Returned<C::Pass>, S::Out, Option<T>), ResourceFault>
where
    H: Threads + Wait + AllocGlobal + Clock + Sync,
    H: Net<Listener = TcpListener, Stream = TcpStream>,
    L: Loader,
    C: CellSteps + Sync,
    C::Pass: Send + Drop,
    K: Cover<C> + Sync,
    K::Receipt: Send + Drop,
    B: Bell,
    T: CounterThread + Send + Drop,
    S: Ready + Drop,
    requires pass { C.belongs parts.now.cells.now pass }
    requires workers { All (λ worker. C.belongs parts.now.cells.now worker.0) workers.items }
    requires some { 1 ≤ length workers.items }
    requires few { length workers.items ≤ 64 }
    ensures back { IfOk result (λ r. ServerBack (K.withholds parts.now.cover.now)
        (C.belongs parts.now.cells.now) C.grew (L.loads parts.now.loader.now) pass workers.items
        control.old r.0) }
    ensures printed { IfOk result
        (λ r. S.prints ready control.old.publishing.latest.generation r.1) }
{
    let ends = StopFlags::new();
    let gate = NoGate;
    let service = parts.service;
    let crew = Crew::new(&gate, parts.cover, service, workers.len(), &ends.operator);
    let Ok((queue, from)) = crossbeam_channel::bounded::<Call, _>(rt.alloc(), WAITING) else {
        return Err(ResourceFault::Memory);
    };
    let (listener, clients, operator) = ports.parts();
    thread::scope(
        thread::scope_env(),
        rt,
        |scope| -> Result<(Returned<C::Pass>, S::Out, Option<T>), ResourceFault>
            requires cover { crew.cover.now ≡ parts.now.cover.now }
            requires pass { C.belongs parts.now.cells.now pass }
            requires workers { All (λ each. C.belongs parts.now.cells.now each.0) workers.items }
            requires some { 1 ≤ length workers.items }
            requires few { length workers.items ≤ 64 }
            ensures back { IfOk result (λ r. ServerBack (K.withholds parts.entry.now.cover.now)
                (C.belongs parts.entry.now.cells.now) C.grew (L.loads parts.entry.now.loader.now)
                pass workers.items control.entry.now r.0) }
            ensures printed { IfOk result
                (λ r. S.prints ready control.entry.now.publishing.latest.generation r.1) }
        {
            let Ok(room) = Vec::with_capacity(rt.alloc(), workers.len()) else {
                return Err(ResourceFault::Memory);
            };
            let Ok(threads) = start_workers(rt, scope, &crew, from, parts.cells, workers) else {
                return Err(ResourceFault::Memory);
            };
            let (bell, log) = (parts.bell, service.log);
            let storing = start_others(rt, scope, counters, bell, listener, queue, &ends, log)?;
            let Ok(printed) = ready.print(control.generation()) else {
                clients.end(rt, &ends);
                bell.end();
                return Err(ResourceFault::File);
            };
            note_serving(rt, log, control.generation());
            let ended = operate_then_end(rt, &operator, parts, pass, control, clients, &ends);
            let staff = joined(rt, threads, room);
            let counters = ended_counters(rt, bell, storing);
            let back = returned(rt.alloc(), ended, staff, control);
            Ok((back, printed, counters))
        },
    )
}

/// Serves clients with these 1 to 64 workers, as `serve` does, and also the operator's port, until
/// the operator has requested a stop. This thread answers the operator, and reads counters by
/// `pass`. If counters are stored, one more thread does that until the workers have ended. Once all
/// threads exist, the generation that is served is written to `out`, by one write of the whole
/// line. If nothing fails, all passes and watchers are returned, with what stored the counters.
/// Returns B4 if an allocation or a thread fails, before any client is answered and before anything
/// is written; B3 if `out` can't be written.
// open: when B4 and when B3 is returned: `bench/refused`, and a test. Nothing shows which bytes a
// socket carries, and which moment a clock gives. Tests show that connections are answered in
// parallel, and the operator's one after another; their time limits, and the log; that all threads
// end after a stop, even if the server can't connect to its own port; and that the line takes one
// write (std says nothing about the number of writes).
pub fn run<H, L, C, K, B, T, O>(
    rt: &H,
    ports: Ports,
    parts: &ServerParts<'_, L, C, K, B>,
    counters: Option<T>,
    pass: C::Pass,
    control: &mut Control,
    workers: Vec<(C::Pass, Watcher)>,
    out: &mut O,
) -> Result<(Returned<C::Pass>, Option<T>), ResourceFault>
where
    H: Threads + Wait + AllocGlobal + Clock + Sync,
    H: Net<Listener = TcpListener, Stream = TcpStream>,
    L: Loader,
    C: CellSteps + Sync,
    C::Pass: Send + Drop,
    K: Cover<C> + Sync,
    K::Receipt: Send + Drop,
    B: Bell,
    T: CounterThread + StoresFor<K> + Send + Drop,
    O: Write,
    // Replies wait if counters are stored, for what is stored.
    requires waits { K.withholds parts.now.cover.now ≡ is_some counters }
    requires stores { IfSome counters (λ t. T.stores_for t parts.now.cover.now) }
    requires pass { C.belongs parts.now.cells.now pass }
    requires workers { All (λ worker. C.belongs parts.now.cells.now worker.0) workers.items }
    requires some { 1 ≤ length workers.items }
    requires few { length workers.items ≤ 64 }
    ensures back { IfOk result (λ r. ServerBack (K.withholds parts.now.cover.now)
        (C.belongs parts.now.cells.now) C.grew (L.loads parts.now.loader.now) pass workers.items
        control.old r.0) }
    ensures printed { OnOk result (Appends (O.contents out.old) (O.contents out.new)
        (serving_line control.old.publishing.latest.generation)) }
{
    let ready = ReadyLine { out };
    match run_and_print(rt, ports, parts, counters, pass, control, workers, ready) {
        Ok((back, out, counters)) => {
            take_back(out);
            Ok((back, counters))
        }
        Err(fault) => Err(fault),
    }
}
