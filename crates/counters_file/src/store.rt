//! Reading the counters with which a server opens, and committing those that it has.

ghost use Rattle.std.specs.Prelude.{◌≡◌, IfOk, IfSome, Ok, OnErr, OnOk, map, string_bytes};
ghost use Rattle.cells.specs.Events.{AreCells};
ghost use Rattle.counters_file.specs.Kept.{IsFoundIn, IsWhole, Keeps};
ghost use Rattle.counters_file.specs.Text.{contents, contents_in};

use crate::contents::{Contents, ReadFault};
use crate::counters_fault::CountersFault;
use crate::counting::all_can_count;
use crate::device_file::read_bytes;
use crate::halted::all_can_be_halted;
use crate::kept_file::KeptFile;
use crate::laws::reads_back;
use crate::reading::read_contents;
use crate::saved_counters::file_text;
use cells::Directory;
use std::alloc::Global;
use std::fs::File;
use std::rt::Files;
use std::str;

/// What a file says; None if it isn't there. Returns K3 if the file has a wrong line, K2 if it
/// can't be read, and B4 if an allocation fails.
// open: when K2, K3 and B4 are returned, and the line of K3: rows.
pub fn read_counters<F: KeptFile>(
    alloc: Global,
    file: &F,
) -> Result<Option<Contents>, CountersFault>
    ensures found { IfOk result (λ c. IfSome (F.known file.now) (λ held. IsFoundIn held c)) }
    ensures cells { IfOk result (λ c. IfSome c (λ k. AreCells k.counters.values)) }
{
    match file.read(alloc) {
        Ok(Some(bytes)) => match contents_of(alloc, &bytes) {
            Ok(contents) => Ok(Some(contents)),
            Err(fault) => Err(fault),
        },
        Ok(None) => Ok(None),
        Err(fault) => Err(fault),
    }
}

/// What the file at a path says, which another server has; None if it isn't there. That server may
/// replace it at any time, but never with a part of a text. Returns the faults of `read_counters`.
// open: the bytes of a device's file.
pub fn read_of_another<R>(rt: &R, path: &str) -> Result<Option<Contents>, CountersFault>
where
    R: Files<File = File> + AllocGlobal,
    ensures { IfOk result (λ c. IfSome c (λ k. AreCells k.counters.values)) }
{
    match read_bytes(rt, path)? {
        Some(bytes) => match contents_of(rt.alloc(), &bytes) {
            Ok(contents) => Ok(Some(contents)),
            Err(fault) => Err(fault),
        },
        None => Ok(None),
    }
}

fn contents_of(alloc: Global, bytes: &[u8]) -> Result<Contents, CountersFault>
    ensures found { IfOk result (λ c. contents_in bytes.now ≡ Ok c) }
    ensures cells { IfOk result (λ c. AreCells c.counters.values) }
{
    let text = match str::from_utf8(bytes) {
        Ok(text) => text,
        Err(error) => return Err(wrong_after(&bytes[..error.valid_up_to()])),
    };
    match read_contents(alloc, text) {
        Ok(contents) => Ok(contents),
        Err(ReadFault::Damaged { line }) => Err(CountersFault::Damaged { line }),
        Err(ReadFault::Memory) => Err(CountersFault::Memory),
    }
}

// The line that follows these bytes is wrong.
fn wrong_after(bytes: &[u8]) -> CountersFault {
    let mut line: usize = 1;
    for byte in bytes {
        if *byte == b'\n' {
            line = line.saturating_add(1);
        }
    }
    CountersFault::Damaged { line }
}

/// Replaces a file by one with these halted apps, these arrays and the values of their cells. It
/// says whether the server was stopped. Returns K4 if it can't be written, or if it would be K3 to
/// read: if an app with such an appid can't be halted, or a counter with a quota has 2^63 or more.
/// Also if the file would have over 1 MiB. All arrays and counters, and 60 halted apps with the
/// longest appids, always fit. Returns B4 if an allocation fails.
// open: when these are returned.
pub fn commit<F: KeptFile>(
    alloc: Global,
    file: &mut F,
    was_stopped: bool,
    halted: &[String],
    directory: &Directory,
    values: &[u64],
) -> Result<(), CountersFault>
    ensures stored { let k = contents was_stopped (map string_bytes halted.now) directory.now
        values.now in AreCells values.now → OnOk result (IfSome (F.known file.old)
        (λ _. IfSome (F.known file.new) (Keeps k))) }
    ensures whole { let k = contents was_stopped (map string_bytes halted.now) directory.now
        values.now in AreCells values.now → OnErr result (IsWhole k (F.known file.old)
        (F.known file.new)) }
{
    reads_back();
    let arrays = directory.arrays();
    if !all_can_be_halted(halted) || !all_can_count(arrays, values) {
        return Err(CountersFault::Store);
    }
    let Ok(text) = file_text(alloc, was_stopped, halted, directory, values) else {
        return Err(CountersFault::Memory);
    };
    file.replace(text.as_bytes())
}
