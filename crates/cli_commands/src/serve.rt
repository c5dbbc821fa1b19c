//! `serve`: from its arguments to the status, after the server's end.

ghost use Rattle.std.specs.Prelude.{◌≡◌, ◌≤◌, OnOk};
ghost use Rattle.std.specs.Io.KnownBytes.{Appends};
ghost use Rattle.cli_commands.specs.Commands.{HasServed};
ghost use Rattle.workers.specs.Texts.{serving_line};

use crate::details::print_details;
use crate::logged::{note_refusal, serve_until_stopped};
use crate::ready::{KeptServer, ready_server};
use crate::serve_fault::ServeRefusal;
use bounded_files::Disk;
use cli_base::refused;
use cli_words::ServeArgs;
use counters_file::{CountersFault, KeptFile};
use server_counters::{Counters, write_last};
use server_log::{LogOutput, write_counters};
use std::fs::File;
use std::io::Write;
use std::net::{Net, TcpListener, TcpStream};
use std::rt::Files;
use std::sync::Wait;
use std::thread::Threads;
use std::time::Clock;

/// Serves until the operator stops the server, and returns the status: 0, or 1 if that is refused.
/// `out` gets the line of the first generation once the server serves, and only a refusal goes to
/// `err`, with a second line if `verbose`.
// open: the lines of a refusal, and that the file then has the counters that are left: rows.
pub fn serve<R, D, O, E>(
    rt: &R,
    disk: &D,
    args: &ServeArgs<'_>,
    verbose: bool,
    out: &mut O,
    err: &mut E,
) -> u8
where
    R: Files<File = File> + Threads + Wait + AllocGlobal + Clock + LogOutput,
    R: Copy + Drop + Send + Sync + 'static,
    R: Net<Listener = TcpListener, Stream = TcpStream>,
    R::File: Send,
    R::Dir: Send,
    D: Disk + Sync,
    O: Write,
    E: Write,
    ensures within { result ≤ 1 }
    ensures served { result ≡ 0 → HasServed (D.known disk.now) args.now
        (O.contents out.old) (O.contents out.new) }
    ensures silent { result ≡ 0 → err.new ≡ err.old }
{
    match make_and_serve(rt, disk, args, out) {
        Ok(()) => 0,
        Err(fault) => {
            let status = refused(err, &fault);
            if verbose {
                print_details(rt, disk, args, &fault, err);
            }
            drop(fault);
            status
        }
    }
}

// Makes a server ready, and serves until the operator stops it. A fault is in the log, if there is
// one.
fn make_and_serve<R, D, O>(
    rt: &R,
    disk: &D,
    args: &ServeArgs<'_>,
    out: &mut O,
) -> Result<(), ServeRefusal>
where
    R: Files<File = File> + Threads + Wait + AllocGlobal + Clock + LogOutput,
    R: Copy + Drop + Send + Sync + 'static,
    R: Net<Listener = TcpListener, Stream = TcpStream>,
    R::File: Send,
    R::Dir: Send,
    D: Disk + Sync,
    O: Write,
    ensures { OnOk result (HasServed (D.known disk.now) args.now
        (O.contents out.old) (O.contents out.new)) }
{
    match ready_server(rt, disk, args) {
        Ok(ready) => {
            serve_ready(rt, disk, args, ready, out)?;
            Ok(())
        }
        Err(fault) => {
            note_refusal(rt, args, &fault);
            Err(fault)
        }
    }
}

// Serves until the operator stops the server, and prints a line once it serves. The file of its
// counters then has those that it leaves.
fn serve_ready<R, D, O>(
    rt: &R,
    disk: &D,
    args: &ServeArgs<'_>,
    ready: KeptServer<'_, R>,
    out: &mut O,
) -> Result<(), ServeRefusal>
where
    R: Files<File = File> + Threads + Wait + AllocGlobal + Clock + LogOutput,
    R: Copy + Drop + Send + Sync + 'static,
    R: Net<Listener = TcpListener, Stream = TcpStream>,
    R::File: Send,
    R::Dir: Send,
    D: Disk + Sync,
    O: Write,
    ensures { OnOk result (Appends (O.contents out.old) (O.contents out.new) (serving_line 1)) }
{
    // The port stays open until the log and the file are written, and another server may have the
    // file. So a client that waits for the server's end gets it after the log's last line, and may
    // start the next server.
    let _open = ready.server.ports().operator_handle();
    match serve_until_stopped(rt, disk, args, ready, out) {
        Ok((counters, file)) => write_left(rt, args, file, counters),
        Err(fault) => Err(ServeRefusal::Serving(fault)),
    }
}

// Writes what a server left to the file of its counters, if one is named. The server has given the
// file back. The log says if it can't be written.
fn write_left<R, F>(
    rt: &R,
    args: &ServeArgs<'_>,
    file: Option<F>,
    counters: Counters,
) -> Result<(), ServeRefusal>
where
    R: AllocGlobal + Clock + LogOutput,
    F: KeptFile + Drop,
{
    let kept = match file {
        Some(mut file) => write_last(rt.alloc(), &mut file, &counters),
        None if args.counters.is_none() => Ok(()),
        None => Err(CountersFault::Store),
    };
    drop(counters);
    match kept {
        Ok(()) => Ok(()),
        Err(fault) => {
            if args.plan.log {
                write_counters(rt, args.plan.port, &fault);
            }
            Err(ServeRefusal::Counters(fault))
        }
    }
}
