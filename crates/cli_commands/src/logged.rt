//! A server, with its log or without one. The log's thread starts before the server. After the
//! server's end it has a while to write the remaining lines. A refused start also has a line.

ghost use Rattle.std.specs.Duration.{as_nanos};
ghost use Rattle.std.specs.Io.KnownBytes.{Appends};
ghost use Rattle.std.specs.Prelude.{◌≡◌, ◌*◌, ◌⊎◌, OnOk, IfErr};
ghost use Rattle.serving.specs.Staffed.{IsStaffFault, IsEndFault};
ghost use Rattle.workers.specs.Texts.{serving_line};

use crate::ready::KeptServer;
use crate::serve_fault::ServeRefusal;
use bounded_files::Disk;
use cli_words::{ServeArgs, ServePlan};
use counters_file::DeviceFile;
use server_counters::{Counters, FoundFile};
use server_log::{
    LogOutput, LogQueue, Starting, note_refused_start, note_start, start_log, write_refused_start,
};
use serving::{Manifests, ServingFault};
use std::fs::File;
use std::io::Write;
use std::net::{Net, TcpListener, TcpStream};
use std::rt::Files;
use std::sync::Wait;
use std::thread::Threads;
use std::time::{Clock, Duration};
use workers::ServeOptions;

/// Makes all that a server needs, and serves until the operator stops it. If a log was requested,
/// it goes to standard error. Returns the counters that the server leaves, and their file. Once all
/// is made, `out` gets the ready line of generation 1. Returns S1, H1 or B4 if out of memory before
/// that; B4 if an allocation or a thread fails; B3 if `out` can't be written; and H2 if a watcher
/// can't be read after the server's end.
// open: what a connection sends, and that a server answers; that the lines of the start are of this
// manifest, server and outcome: tests.
pub fn serve_until_stopped<'a, R, D, O>(
    rt: &R,
    disk: &D,
    args: &ServeArgs<'_>,
    ready: KeptServer<'a, R>,
    out: &mut O,
) -> Result<(Counters, Option<DeviceFile<'a, R>>), ServingFault>
where
    R: Files<File = File> + Threads + Wait + AllocGlobal + Clock + LogOutput,
    R: Copy + Drop + Send + Sync + 'static,
    R: Net<Listener = TcpListener, Stream = TcpStream>,
    R::File: Send,
    R::Dir: Send,
    D: Disk + Sync,
    O: Write,
    ensures printed { OnOk result
        (Appends (O.contents out.old) (O.contents out.new) (serving_line 1)) }
    ensures fault { IfErr result (λ e. IsStaffFault e ⊎ IsEndFault e) }
{
    if !args.plan.log {
        return serve_by(rt, disk, &args.plan, ready, None, out);
    }
    let (queue, end) = match start_log(rt, args.plan.port) {
        Ok(log) => log,
        Err(fault) => {
            drop(ready);
            return Err(ServingFault::Resource(fault));
        }
    };
    let starting = starting_of(args, ready.found);
    note_start(rt, &queue, starting, ready.server.loaded());
    let outcome = serve_by(rt, disk, &args.plan, ready, Some(&queue), out);
    note_outcome(rt, &queue, starting, &outcome);
    drop(queue);
    end.wait(rt);
    outcome
}

// Serves by the plan, with a queue for the lines of the log, if there is one.
fn serve_by<'a, R, D, O>(
    rt: &R,
    disk: &D,
    plan: &ServePlan,
    ready: KeptServer<'a, R>,
    log: Option<&LogQueue>,
    out: &mut O,
) -> Result<(Counters, Option<DeviceFile<'a, R>>), ServingFault>
where
    R: Files<File = File> + Threads + Wait + AllocGlobal + Clock + Sync,
    R: Net<Listener = TcpListener, Stream = TcpStream>,
    R::File: Send,
    R::Dir: Send,
    D: Disk + Sync,
    O: Write,
    ensures printed { OnOk result
        (Appends (O.contents out.old) (O.contents out.new) (serving_line 1)) }
    ensures fault { IfErr result (λ e. IsStaffFault e ⊎ IsEndFault e) }
{
    let KeptServer {
        server,
        found: _found,
        store,
    } = ready;
    let server = match server.staffed(rt, usize::from(plan.workers)) {
        Ok(server) => server,
        Err(fault) => {
            drop(store);
            return Err(fault);
        }
    };
    match server.serve(rt, &Manifests::of(disk), store, service_of(plan, log), out) {
        Ok(left) => Ok(left),
        Err(fault) => Err(fault),
    }
}

// How connections are served by the plan.
fn service_of<'a>(plan: &ServePlan, log: Option<&'a LogQueue>) -> ServeOptions<'a>
    ensures timeout { as_nanos result.timeout ≡ plan.now.timeout * 1000000000 }
    ensures log { result.log ≡ log.entry }
{
    ServeOptions {
        timeout: Duration::from_secs(u64::from(plan.timeout)),
        log,
    }
}

// A server that starts, and how the file of its counters was found. No port of a plan is 0, so the
// server has these ports.
fn starting_of<'x>(args: &ServeArgs<'x>, found: Option<FoundFile>) -> Starting<'x> {
    let counters: Option<&'x str> = word_of(found);
    Starting {
        manifest: args.manifest,
        port: args.plan.port,
        operator: args.plan.operator,
        counters,
    }
}

fn word_of<'x>(found: Option<FoundFile>) -> Option<&'x str> {
    match found {
        Some(FoundFile::New) => Some("new"),
        Some(FoundFile::Stopped) => Some("stopped"),
        Some(FoundFile::Crashed) => Some("crashed"),
        None => None,
    }
}

// Logs why the server didn't start, if it didn't. If it has served, its end is already logged.
fn note_outcome<R, F>(
    rt: &R,
    queue: &LogQueue,
    starting: Starting<'_>,
    outcome: &Result<(Counters, Option<F>), ServingFault>,
)
where
    R: Wait + AllocGlobal + Clock,
{
    let Err(fault) = outcome else {
        return;
    };
    if !fault.is_in_log() {
        note_refused_start(rt, queue, starting, fault, fault.cause());
    }
}

/// Logs that a server doesn't start, and why, if a log was requested. The line is lost if an
/// allocation fails.
// open: that the line is of these arguments and this fault: tests.
pub fn note_refusal<R>(rt: &R, args: &ServeArgs<'_>, fault: &ServeRefusal)
where
    R: AllocGlobal + Clock + LogOutput,
{
    if args.plan.log {
        write_refused_start(rt, starting_of(args, None), fault, fault.cause());
    }
}
