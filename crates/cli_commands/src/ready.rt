//! `serve`, from its arguments to a server that is ready: with a file of counters or without one.

ghost use Rattle.std.specs.Prelude.{◌≡◌, IfErr, IfOk, IfSome, None, Option, Some, string_bytes};
ghost use Rattle.std.proofs.Props.{props};
ghost use Rattle.cli_commands.specs.Ready.{IsReady, IsRefused, Opens};
ghost use Rattle.server_counters.specs.declared.counters.Counters.{Counters};

use crate::serve_fault::ServeRefusal;
use bounded_files::{Disk, ResourceFault};
use cli_words::ServeArgs;
use counter_store::CounterStore;
use counters_file::{CountersFault, DeviceFile};
use server_counters::{
    Counters, FoundFile, OpeningCounters, OwnCounters, OwnFile, open_file, opened_within, store_of,
};
use serving::{Server, ServingFault, prepare};
use std::alloc::Global;
use std::fs::File;
use std::net::{Net, TcpListener, TcpStream};
use std::rt::Files;
use std::time::Clock;

/// A server that is ready, how the file of its counters was found, and their store. The last two
/// are None if no file is named.
#[derive(Drop)]
pub struct KeptServer<'a, R> {
    pub server: Server,
    pub found: Option<FoundFile>,
    pub store: Option<CounterStore<DeviceFile<'a, R>>>,
    pub ghost numbers: { IfSome store
        (λ s. s.ledger.numbers ≡ server.values.items) } by { Prim.hlevel props },
    pub ghost arrays: { IfSome store
        (λ s. s.ledger.arrays ≡ server.loaded.directory) } by { Prim.hlevel props },
}

// A server that is ready, and the file of its counters.
struct WithFile<'a, R> {
    server: Server,
    file: OwnFile<'a, R>,
}

/// Opens the file of the counters, if one is named, and makes a server ready that opens with them.
/// If another server has the file, and the plan waits for it, the ports are bound first. Once the
/// server is ready, its file says that it is served. Returns K1 to K4 for the file, and else the
/// manifest's fault, B6 if a port can't be bound, or B4.
// open: the bytes of a device's files; that another server has the file, and how long this one
// waits: `bench/handover`.
pub fn ready_server<'a, R, D>(
    rt: &'a R,
    disk: &D,
    args: &ServeArgs<'_>,
) -> Result<KeptServer<'a, R>, ServeRefusal>
where
    R: Files<File = File> + AllocGlobal + Clock + Eprint,
    R: Net<Listener = TcpListener, Stream = TcpStream>,
    D: Disk,
    ensures ready { IfOk result (λ ready. (c : Option Counters)
        × IsReady (D.known disk.now) args.now c ready.server) }
    ensures fault { IfErr result (IsRefused (D.known disk.now) args.now) }
{
    match args.counters {
        Some(path) => match server_with_file(rt, disk, args, path) {
            Ok(WithFile { server, file }) => match with_store(rt.alloc(), server, file) {
                Ok(ready) => Ok(ready),
                Err(fault) => Err(ServeRefusal::Counters(fault)),
            },
            Err(fault) => Err(fault),
        },
        None => match server_without_file(rt, disk, args) {
            Ok(server) => Ok(KeptServer {
                server,
                found: None,
                store: None,
            }),
            Err(fault) => Err(ServeRefusal::Serving(fault)),
        },
    }
}

// A server whose counters have no file.
fn server_without_file<R, D>(rt: &R, disk: &D, args: &ServeArgs<'_>) -> Result<Server, ServingFault>
where
    R: AllocGlobal + Net<Listener = TcpListener, Stream = TcpStream>,
    D: Disk,
    requires { args.now.counters ≡ None }
    ensures ready { IfOk result (IsReady (D.known disk.now) args.now None) }
    ensures fault { IfErr result
        (λ fault. IsRefused (D.known disk.now) args.now (ServeRefusal.Serving fault)) }
{
    let Ok(counters) = Counters::none(rt.alloc()) else {
        return Err(ServingFault::Resource(ResourceFault::Memory));
    };
    match prepare(
        rt,
        disk,
        args.manifest,
        args.plan.port,
        args.plan.operator,
        counters,
    ) {
        Ok(server) => Ok(server),
        Err(fault) => Err(fault),
    }
}

// A server that opens with the counters of the file at a path, which it has.
fn server_with_file<'a, R, D>(
    rt: &'a R,
    disk: &D,
    args: &ServeArgs<'_>,
    path: &str,
) -> Result<WithFile<'a, R>, ServeRefusal>
where
    R: Files<File = File> + AllocGlobal + Clock + Eprint,
    R: Net<Listener = TcpListener, Stream = TcpStream>,
    D: Disk,
    requires { args.now.counters ≡ Some path }
    ensures ready { IfOk result (λ turn. IsReady (D.known disk.now) args.now
        (Some turn.file.said.value) turn.server) }
    ensures fault { IfErr result (IsRefused (D.known disk.now) args.now) }
{
    let OpeningCounters { file, counters } = match open_file(rt, path, args.plan.wait.is_some()) {
        Ok(opening) => opening,
        Err(fault) => return Err(ServeRefusal::Counters(fault)),
    };
    match prepare(
        rt,
        disk,
        args.manifest,
        args.plan.port,
        args.plan.operator,
        counters,
    ) {
        Ok(server) => match file {
            Some(file) => Ok(WithFile { server, file }),
            None => after_another(rt, disk, args, path, server),
        },
        Err(fault) => {
            drop(file);
            Err(ServeRefusal::Serving(fault))
        }
    }
}

// The server once no other server has the file: its manifest is loaded anew over what the file
// says then. Returns K1 if the file isn't free within the plan's seconds, and the faults of reading
// and loading.
fn after_another<'a, R, D>(
    rt: &'a R,
    disk: &D,
    args: &ServeArgs<'_>,
    path: &str,
    server: Server,
) -> Result<WithFile<'a, R>, ServeRefusal>
where
    R: Files<File = File> + AllocGlobal + Clock + Eprint,
    D: Disk,
    requires named { args.now.counters ≡ Some path }
    requires path { string_bytes server.path ≡ args.now.manifest.now }
    // The server opens with what the file says now, and not with what it said before.
    ensures ready { IfOk result (λ turn. IsReady (D.known disk.now) args.now
        (Some turn.file.said.value) turn.server) }
    ensures fault { IfErr result (IsRefused (D.known disk.now) args.now) }
{
    let OwnCounters { file, counters } = match opened_within(
        rt,
        path,
        args.plan.wait.unwrap_or(0),
    ) {
        Ok(opened) => opened,
        Err(fault) => {
            drop(server);
            return Err(ServeRefusal::Counters(fault));
        }
    };
    match server.opened_with(rt, disk, counters) {
        Ok(server) => Ok(WithFile { server, file }),
        Err(fault) => {
            drop(file);
            Err(ServeRefusal::Serving(fault))
        }
    }
}

// The server with the store of its counters in their file, which is written.
fn with_store<'a, R>(
    alloc: Global,
    server: Server,
    own: OwnFile<'a, R>,
) -> Result<KeptServer<'a, R>, CountersFault>
where
    R: Files<File = File> + AllocGlobal,
    requires opens { Opens (Some own.said.value) server }
    ensures same { IfOk result (λ ready. ready.server ≡ server) }
{
    let OwnFile {
        file,
        found,
        said: _said,
    } = own;
    let directory = &server.loaded().directory;
    match store_of(alloc, file, server.halted(), directory, server.values()) {
        Ok(store) => Ok(KeptServer {
            server,
            found: Some(found),
            store: Some(store),
        }),
        Err(fault) => {
            drop(server);
            Err(fault)
        }
    }
}
