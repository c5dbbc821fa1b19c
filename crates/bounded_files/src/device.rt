//! The files of a device.

ghost use Rattle.std.specs.Prelude.{List, ℕ, None};
ghost use Rattle.bounded_files.specs.Files.{ReadsAtMost};
ghost use Rattle.bounded_files.specs.Kept.{KeepsFile};

use crate::disk::{Disk, MOST_BYTES};
use crate::file_fault::FileFault;
use crate::kept_bytes::{KeptBytes, keep};
use crate::regular_file::{Links, open_regular, read_beginning};
use crate::resource_fault::ResourceFault;
use std::alloc::Global;
use std::fs::{self, OpenFile};
use std::io::Read;
use std::rt::Files;

/// The files of the device, about whose bytes nothing is known. A path that isn't absolute is
/// relative to the working folder.
#[derive(Drop)]
pub struct Device<'a, R> {
    rt: &'a R,
}

impl<'a, R> Device<'a, R> {
    /// The files of this device.
    // open: which bytes a device's file contains, and of which kind it is: tests and
    // `bench/hostile` check that its kind is read.
    pub fn new(rt: &'a R) -> Device<'a, R> {
        Device { rt }
    }
}

impl<'a, R: Files + AllocGlobal> Disk for Device<'a, R> {
    ghost use Rattle.std.specs.Prelude.{None};

    ghost known = { λ _. None };

    fn read(&self, path: &str, most: u32) -> Result<Option<Vec<u8>>, ResourceFault> {
        let opened = fs::open(self.rt, path).map_err(FileFault::from);
        read_opened(self.rt.alloc(), opened, most)
    }

    fn read_regular(&self, path: &str, most: u32) -> Result<Option<Vec<u8>>, ResourceFault> {
        let opened = open_regular(self.rt, path, Links::Followed);
        read_opened(self.rt.alloc(), opened, most)
    }

    // It is read in pieces; none after the first bytes is kept.
    fn keep_regular(&self, path: &str, kept: u32) -> Result<KeptBytes, ResourceFault> {
        keep_opened(self.rt.alloc(), open_within(self.rt, path), kept)
    }

    // A path whose metadata can't be read counts as a symbolic link.
    fn is_link(&self, path: &str) -> bool {
        match fs::symlink_metadata(self.rt, path) {
            Ok(found) => found.is_symlink(),
            Err(_) => true,
        }
    }
}

// A file whose metadata gives more than 16 MiB isn't read.
fn open_within<R: Files>(rt: &R, path: &str) -> Result<R::File, FileFault> {
    let file = open_regular(rt, path, Links::Followed)?;
    if file.metadata()?.len() > MOST_BYTES as u64 {
        return Err(FileFault::TooLong);
    }
    Ok(file)
}

// The bytes of an opened file; None if it has more than `most`.
fn read_opened<F: Read + Drop>(
    alloc: Global,
    opened: Result<F, FileFault>,
    most: u32,
) -> Result<Option<Vec<u8>>, ResourceFault>
    ensures { (path : List ℕ) → ReadsAtMost most None path result }
{
    let file = match opened {
        Ok(file) => file,
        Err(fault) => return Err(fault.resource()),
    };
    let bytes = match read_beginning(alloc, file, most) {
        Ok(bytes) => bytes,
        Err(error) => return Err(FileFault::from(error).resource()),
    };
    if bytes.len() > most as usize {
        return Ok(None);
    }
    Ok(Some(bytes))
}

// What is kept of an opened file.
fn keep_opened<F: Read + Drop>(
    alloc: Global,
    opened: Result<F, FileFault>,
    kept: u32,
) -> Result<KeptBytes, ResourceFault>
    ensures { (path : List ℕ) → KeepsFile kept None path result }
{
    let file = match opened {
        Ok(file) => file,
        Err(fault) => return Err(fault.resource()),
    };
    match keep(alloc, file, kept as usize, MOST_BYTES as usize) {
        Ok(Some(kept)) => Ok(kept),
        Ok(None) => Err(ResourceFault::File),
        Err(error) => Err(FileFault::from(error).resource()),
    }
}
