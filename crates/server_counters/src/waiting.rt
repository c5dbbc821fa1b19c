//! A server that waits for the file of its counters, which another server has.

ghost use Rattle.std.specs.Prelude.{◌≡◌, IfOk};
ghost use Rattle.cells.specs.Events.{AreCells};

use crate::own_file::{OwnCounters, read_own};
use counters_file::{CountersFault, DeviceFile, owner_of};
use std::fs::File;
use std::rt::Files;
use std::thread;
use std::time::{Clock, Duration};

/// How often a second the server tries to get the file.
const TRIES: u32 = 20;

/// The time between two tries.
const TRY_MILLIS: u64 = 50;

/// The file at a path once no other server has it, and what it says then. Returns K1 if it isn't
/// free within these seconds, K2 or K3 if it can't be read, K4 if it can't be locked, and B4 if an
/// allocation fails.
// open: that another server has the file, and how long this one waits: `bench/handover`.
pub fn opened_within<'a, R>(
    rt: &'a R,
    path: &str,
    seconds: u16,
) -> Result<OwnCounters<'a, R>, CountersFault>
where
    R: Files<File = File> + AllocGlobal + Clock + Eprint,
    ensures cells { IfOk result (λ o. AreCells o.counters.values.items) }
    ensures said { IfOk result (λ o. o.counters ≡ o.file.said.value) }
{
    match file_within(rt, path, seconds) {
        Ok(file) => read_own(rt.alloc(), file),
        Err(fault) => Err(fault),
    }
}

// The file at a path, once no other server has it.
fn file_within<'a, R>(
    rt: &'a R,
    path: &str,
    seconds: u16,
) -> Result<DeviceFile<'a, R>, CountersFault>
where
    R: Files<File = File> + AllocGlobal + Clock + Eprint,
{
    print_waiting(rt, path);
    for _ in 0..u32::from(seconds) * TRIES {
        match DeviceFile::lock(rt, path) {
            Err(CountersFault::InUse) => thread::sleep(rt, Duration::from_millis(TRY_MILLIS)),
            outcome => return outcome,
        }
    }
    DeviceFile::lock(rt, path)
}

// Prints which process has the file. The runtime itself writes the line to standard error.
fn print_waiting<R>(rt: &R, path: &str)
where
    R: Files<File = File> + AllocGlobal + Eprint,
{
    let _printed = match owner_of(rt, path) {
        Some(process) => eprintln!(rt; "waiting for counters: process {process} has them"),
        None => eprintln!(rt; "waiting for counters: another process has them"),
    };
}
