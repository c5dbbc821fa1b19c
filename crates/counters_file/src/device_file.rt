//! A file of a device, which no other server has.

use crate::counters_fault::CountersFault;
use crate::kept_file::KeptFile;
use bounded_files::{FileFault, IfDenied, Links, read_file, replace_file};
use lexing::decimal_within;
use std::alloc::Global;
use std::fs::{self, File, OpenFile, OpenOptions, TryLockError};
use std::io::{self, Error, ErrorKind, Write};
use std::os::unix::fs::OpenOptionsExt;
use std::rt::Files;
use std::str;

/// The most bytes of a file of counters: 1 MiB.
const MOST_BYTES: u32 = 0x10_0000;

/// The most bytes of a file with the number of a process.
const MOST_STAT: u32 = 4096;

/// How many names a replacement of a file tries for its new file.
const MOST_NAMES: u32 = 100;

/// A file of a device, about whose bytes nothing is known. It is locked until it is dropped.
#[derive(Drop)]
pub struct DeviceFile<'a, R> {
    rt: &'a R,
    path: String,
    _lock: File,
}

impl<'a, R: Files<File = File> + AllocGlobal> DeviceFile<'a, R> {
    /// The file at a path, if no other process has locked it: the system's lock is on `PATH.lock`,
    /// which is made if it isn't there, and which stays. It gets the number of this process. New
    /// files that an earlier process left there, since a crash cut off a commit, are removed.
    /// Returns K1 if another process has the lock; K4 if it can't be made or locked, or isn't a
    /// regular file; and B4 if an allocation fails.
    // open: that the system's lock holds: rows and `bench/outside`.
    pub fn lock(rt: &'a R, path: &str) -> Result<DeviceFile<'a, R>, CountersFault> {
        let Ok(own) = String::from_str(rt.alloc(), path) else {
            return Err(CountersFault::Memory);
        };
        let lock = match open_lock(rt, path) {
            Ok(lock) => lock,
            Err(error) if error.kind() == ErrorKind::OutOfMemory => {
                return Err(CountersFault::Memory);
            }
            Err(_) => return Err(CountersFault::Store),
        };
        match lock.try_lock() {
            Ok(()) => {
                let _signed = sign(rt, &lock);
                remove_leftovers(rt, path);
                Ok(DeviceFile {
                    rt,
                    path: own,
                    _lock: lock,
                })
            }
            Err(TryLockError::WouldBlock) => Err(CountersFault::InUse),
            Err(TryLockError::Error(_)) => Err(CountersFault::Store),
        }
    }
}

fn open_lock<R: Files<File = File> + AllocGlobal>(rt: &R, path: &str) -> io::Result<File> {
    let name = format!(in rt.alloc(); "{path}.lock")?;
    // A link is not followed, and a FIFO is not waited for.
    if is_other_kind(rt, name.as_str()) {
        return Err(Error::from(ErrorKind::InvalidInput));
    }
    let mut options = OpenOptions::new();
    options.write(true).create(true).mode(0o600);
    options.open(rt, name.as_str())
}

// Whether there is something at a path which isn't a regular file.
fn is_other_kind<R: Files>(rt: &R, path: &str) -> bool {
    match fs::symlink_metadata(rt, path) {
        Ok(found) => !found.is_file(),
        Err(_) => false,
    }
}

// Removes what replacements of the file left that a crash cut off: each made its new file at the
// path followed by a number below 100 and `.new`.
fn remove_leftovers<R: Files + AllocGlobal>(rt: &R, path: &str) {
    for number in 0..MOST_NAMES {
        if let Ok(name) = format!(in rt.alloc(); "{path}.{number}.new") {
            let _gone = fs::remove_file(rt, name.as_str());
        }
    }
}

// Writes the number of this process, as the system has it, into the file of the lock.
fn sign<R: Files<File = File> + AllocGlobal>(rt: &R, mut lock: &File) -> io::Result<()> {
    let Some(process) = first_number(rt, "/proc/self/stat") else {
        return Ok(());
    };
    let text = format!(in rt.alloc(); "{process}\n")?;
    lock.set_len(0)?;
    lock.write_all(text.as_bytes())
}

/// The number of the process that has locked the file at a path last, if that is known.
// open: the bytes of a device's file.
pub fn owner_of<R>(rt: &R, path: &str) -> Option<u64>
where
    R: Files<File = File> + AllocGlobal,
{
    let name = format!(in rt.alloc(); "{path}.lock").ok()?;
    first_number(rt, name.as_str())
}

// The number with which a file begins.
fn first_number<R: Files<File = File> + AllocGlobal>(rt: &R, path: &str) -> Option<u64> {
    let bytes = read_file(rt, path, Links::Refused, MOST_STAT).ok()??;
    let text = str::from_utf8(&bytes).ok()?;
    let word = text.split_ascii_whitespace().next()?;
    decimal_within(word, 0, u64::MAX)
}

/// The bytes of the file at a path, if there is one. Returns K2 if it can't be read.
pub(crate) fn read_bytes<R>(rt: &R, path: &str) -> Result<Option<Vec<u8>>, CountersFault>
where
    R: Files<File = File> + AllocGlobal,
{
    match read_file(rt, path, Links::Refused, MOST_BYTES) {
        Ok(found) => Ok(found),
        Err(fault) => Err(memory_or(fault, CountersFault::File)),
    }
}

impl<'a, R: Files<File = File> + AllocGlobal> KeptFile for DeviceFile<'a, R> {
    ghost use Rattle.std.specs.Prelude.{None};

    ghost known = { λ _. None };

    fn read(&self, _alloc: Global) -> Result<Option<Vec<u8>>, CountersFault> {
        read_bytes(self.rt, self.path.as_str())
    }

    // A file that couldn't be read is never written.
    fn replace(&mut self, bytes: &[u8]) -> Result<(), CountersFault> {
        if bytes.len() > MOST_BYTES as usize {
            return Err(CountersFault::Store);
        }
        match replace_file(self.rt, self.path.as_str(), bytes, 0o644, IfDenied::Fail) {
            Ok(()) => Ok(()),
            Err(fault) => Err(memory_or(fault, CountersFault::Store)),
        }
    }
}

// B4 if an allocation failed, or else this fault.
fn memory_or(fault: FileFault, other: CountersFault) -> CountersFault {
    match fault {
        FileFault::System(ErrorKind::OutOfMemory) => CountersFault::Memory,
        _ => other,
    }
}
