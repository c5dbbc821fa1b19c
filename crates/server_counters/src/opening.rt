//! The file of counters that a server opens with.

ghost use Rattle.std.specs.Prelude.{◌≡◌, IfOk, IfSome};
ghost use Rattle.cells.specs.Events.{AreCells};

use crate::counters::Counters;
use crate::own_file::{OwnCounters, OwnFile, no_counters, read_own};
use counters_file::{CountersFault, DeviceFile, read_of_another};
use std::fs::File;
use std::rt::Files;

/// What a server opens with, and the file of its counters. The file is None if another server has
/// it: the counters are those with which that server opened.
#[derive(Drop)]
pub struct OpeningCounters<'a, R> {
    pub file: Option<OwnFile<'a, R>>,
    pub counters: Counters,
}

/// Opens the file at a path for a server's counters. If another server has the file, and this one
/// `waits` for it, the file is only read. Returns K1 to K4 or B4.
// open: the bytes of a device's file.
pub fn open_file<'a, R>(
    rt: &'a R,
    path: &str,
    waits: bool,
) -> Result<OpeningCounters<'a, R>, CountersFault>
where
    R: Files<File = File> + AllocGlobal,
    ensures cells { IfOk result (λ o. AreCells o.counters.values.items) }
    ensures said { IfOk result (λ o. IfSome o.file (λ own. o.counters ≡ own.said.value)) }
{
    match DeviceFile::lock(rt, path) {
        Ok(file) => {
            let OwnCounters { file, counters } = read_own(rt.alloc(), file)?;
            Ok(OpeningCounters {
                file: Some(file),
                counters,
            })
        }
        Err(CountersFault::InUse) if waits => Ok(OpeningCounters {
            file: None,
            counters: counters_of_another(rt, path)?,
        }),
        Err(fault) => Err(fault),
    }
}

// The counters with which another server opened, which has the file at a path.
fn counters_of_another<R>(rt: &R, path: &str) -> Result<Counters, CountersFault>
where
    R: Files<File = File> + AllocGlobal,
    ensures { IfOk result (λ c. AreCells c.values.items) }
{
    match read_of_another(rt, path)? {
        Some(contents) => Ok(Counters::of(contents)),
        None => no_counters(rt.alloc()),
    }
}
