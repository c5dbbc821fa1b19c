//! A file of counters that no other server has, and how it was found.

ghost use Rattle.std.specs.Prelude.{◌≡◌, IfOk, IfSome, None};
ghost use Rattle.cells.specs.Events.{AreCells};
ghost use Rattle.server_counters.specs.Counters.{OpensFrom};

use crate::counters::Counters;
use counters_file::{CountersFault, DeviceFile, KeptFile, read_counters};
use std::alloc::Global;
use std::fs::File;
use std::rt::Files;
use std::snapshot::Snapshot;

/// How a file of counters was found.
#[derive(Clone, Copy)]
pub enum FoundFile {
    /// It isn't there yet.
    New,
    /// Its server was stopped.
    Stopped,
    /// Its server wasn't.
    Crashed,
}

/// A file of counters that no other server has.
#[derive(Drop)]
pub struct OwnFile<'a, R> {
    pub file: DeviceFile<'a, R>,
    pub found: FoundFile,
    /// The counters that were returned with it, for contracts only.
    pub said: Snapshot<Counters>,
}

/// A file of counters, and what it says.
#[derive(Drop)]
pub struct OwnCounters<'a, R> {
    pub file: OwnFile<'a, R>,
    pub counters: Counters,
}

/// Reads a file that no other server has. Returns K2, K3 or B4.
pub(crate) fn read_own<'a, R>(
    alloc: Global,
    file: DeviceFile<'a, R>,
) -> Result<OwnCounters<'a, R>, CountersFault>
where
    R: Files<File = File> + AllocGlobal,
    ensures cells { IfOk result (λ o. AreCells o.counters.values.items) }
    ensures said { IfOk result (λ o. o.counters ≡ o.file.said.value) }
{
    match counters_in(alloc, &file) {
        Ok((counters, found)) => {
            let said = Snapshot::of(&counters);
            Ok(OwnCounters {
                file: OwnFile { file, found, said },
                counters,
            })
        }
        Err(fault) => Err(fault),
    }
}

// The counters of a file, and how it was found.
fn counters_in<F: KeptFile>(alloc: Global, file: &F) -> Result<(Counters, FoundFile), CountersFault>
    ensures found { IfOk result (λ c. IfSome (F.known file.now) (λ held. OpensFrom held c.0)) }
    ensures cells { IfOk result (λ c. AreCells c.0.values.items) }
{
    match read_counters(alloc, file)? {
        Some(contents) => {
            let found = found_by(contents.was_stopped);
            Ok((Counters::of(contents), found))
        }
        None => Ok((no_counters(alloc)?, FoundFile::New)),
    }
}

fn found_by(was_stopped: bool) -> FoundFile {
    if was_stopped {
        FoundFile::Stopped
    } else {
        FoundFile::Crashed
    }
}

/// No counters, for a file that isn't there. Returns B4 if an allocation fails.
pub(crate) fn no_counters(alloc: Global) -> Result<Counters, CountersFault>
    ensures none { IfOk result (λ c. OpensFrom None c) }
    ensures cells { IfOk result (λ c. AreCells c.values.items) }
{
    match Counters::none(alloc) {
        Ok(counters) => Ok(counters),
        Err(_) => Err(CountersFault::Memory),
    }
}
