//! A folder of a device.

use crate::device_path::{make_folder_of, path_in, path_of};
use crate::folder::StageFolder;
use crate::folder_fault::FolderFault;
use crate::note::FolderNote;
use crate::record_folder::{RECORDS, has_records, make_records, numbers_in};
use bounded_files::{IfDenied, Links, read_file, remove_file, replace_file};
use std::fs::{self, File, TryLockError};
use std::io::ErrorKind;
use std::path::{Path, PathBuf};
use std::rt::Files;

/// The most bytes of a file: 16 MiB.
const MOST_BYTES: u32 = 0x100_0000;

/// The most bytes of a record: 256 MiB.
const MOST_RECORD: u32 = 0x1000_0000;

/// The most bytes of a note: 1 MiB.
const MOST_NOTE: u32 = 0x10_0000;

/// A folder of a device, about whose files and records nothing is known. A file is replaced as a
/// whole, and keeps its owner; none is read or written through a symbolic link. A missing folder
/// before a new file is made.
#[derive(Drop)]
pub struct DeviceFolder<'a, R> {
    rt: &'a R,
    path: PathBuf,
    opened: File,
}

impl<'a, R: Files<File = File> + AllocGlobal> DeviceFolder<'a, R> {
    /// The folder at a path. Returns `NoFolder` if there is none.
    // open: what a device contains: `bench/outside`.
    pub fn open(rt: &'a R, path: &str) -> Result<DeviceFolder<'a, R>, FolderFault> {
        let whole = match Path::new(path).canonicalize(rt) {
            Ok(whole) => whole,
            Err(error) if error.kind() == ErrorKind::NotFound => return Err(FolderFault::NoFolder),
            Err(error) => return Err(FolderFault::from(error)),
        };
        let opened = fs::open(rt, whole.as_str())?;
        let found = opened.metadata()?;
        if !found.is_dir() {
            return Err(FolderFault::NoFolder);
        }
        Ok(DeviceFolder {
            rt,
            path: whole,
            opened,
        })
    }

    fn path_of_records(&self) -> Result<String, FolderFault> {
        Ok(path_of(self.rt.alloc(), self.path.as_str(), RECORDS)?)
    }

    fn path_of_record(&self, number: u32) -> Result<String, FolderFault> {
        Ok(format!(in self.rt.alloc(); "{}/{RECORDS}/{number}.json", self.path.as_str())?)
    }

    fn path_of_note(&self, note: FolderNote) -> Result<String, FolderFault> {
        Ok(path_of(self.rt.alloc(), self.path.as_str(), note.path())?)
    }

    fn has_records(&self) -> Result<bool, FolderFault> {
        let folder = self.path_of_records()?;
        has_records(self.rt, folder.as_str())
    }

    // Replaces a file in the folder of the records, or makes it.
    fn replace_own(&self, path: &str, bytes: &[u8]) -> Result<(), FolderFault> {
        let folder = self.path_of_records()?;
        make_records(self.rt, folder.as_str())?;
        Ok(replace_file(self.rt, path, bytes, 0o600, IfDenied::Fail)?)
    }
}

impl<'a, R: Files<File = File> + AllocGlobal> StageFolder for DeviceFolder<'a, R> {
    ghost use Rattle.std.specs.Prelude.{None};

    ghost files = { λ _. None };

    ghost records = { λ _. None };

    fn path(&self) -> &str {
        self.path.as_str()
    }

    // The system gives the lock back when the process ends.
    fn lock(&mut self) -> Result<(), FolderFault> {
        match self.opened.try_lock() {
            Ok(()) => Ok(()),
            Err(TryLockError::WouldBlock) => Err(FolderFault::Locked),
            Err(TryLockError::Error(error)) => Err(FolderFault::from(error)),
        }
    }

    fn read(&self, name: &str) -> Result<Option<Vec<u8>>, FolderFault> {
        let path = path_in(self.rt, self.path.as_str(), name)?;
        Ok(read_file(self.rt, path.as_str(), Links::Refused, MOST_BYTES)?)
    }

    fn put(&mut self, name: &str, bytes: Option<&[u8]>) -> Result<(), FolderFault> {
        let path = path_in(self.rt, self.path.as_str(), name)?;
        match bytes {
            Some(bytes) => {
                make_folder_of(self.rt, path.as_str())?;
                Ok(replace_file(self.rt, path.as_str(), bytes, 0o644, IfDenied::Fail)?)
            }
            None => Ok(remove_file(self.rt, path.as_str())?),
        }
    }

    fn record_numbers(&self) -> Result<Vec<u32>, FolderFault> {
        let path = self.path_of_records()?;
        if has_records(self.rt, path.as_str())? {
            return numbers_in(self.rt, path.as_str());
        }
        Ok(Vec::new(self.rt.alloc()))
    }

    fn read_record(&self, number: u32) -> Result<Option<Vec<u8>>, FolderFault> {
        let path = self.path_of_record(number)?;
        Ok(read_file(self.rt, path.as_str(), Links::Refused, MOST_RECORD)?)
    }

    fn put_record(&mut self, number: u32, bytes: &[u8]) -> Result<(), FolderFault> {
        if bytes.len() > MOST_RECORD as usize {
            return Err(FolderFault::TooLong);
        }
        let path = self.path_of_record(number)?;
        self.replace_own(path.as_str(), bytes)
    }

    fn read_note(&self, note: FolderNote) -> Result<Option<Vec<u8>>, FolderFault> {
        if !self.has_records()? {
            return Ok(None);
        }
        let path = self.path_of_note(note)?;
        Ok(read_file(self.rt, path.as_str(), Links::Refused, MOST_NOTE)?)
    }

    fn write_note(&self, note: FolderNote, bytes: &[u8]) -> Result<(), FolderFault> {
        if note == FolderNote::AtWork && !self.has_records()? {
            return Ok(());
        }
        let path = self.path_of_note(note)?;
        self.replace_own(path.as_str(), bytes)
    }
}
