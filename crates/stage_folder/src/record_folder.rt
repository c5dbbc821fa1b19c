//! The folder of the records, `.stage`, which only its owner may open: a record has the bytes of
//! the files that a step replaced.

use crate::folder_fault::FolderFault;
use libc::geteuid;
use std::fs::{self, DirBuilder, Metadata};
use std::io::ErrorKind;
use std::os::unix::fs::{DirBuilderExt, MetadataExt};
use std::rt::Files;

/// Its name in the folder of the files.
pub(crate) const RECORDS: &str = ".stage";

/// Whether it is there. Returns `RecordsNotOwn` if it is a link or no folder, another user's, or
/// open to others.
pub(crate) fn has_records<R: Files>(rt: &R, path: &str) -> Result<bool, FolderFault> {
    match fs::symlink_metadata(rt, path) {
        Ok(found) if is_own(&found) => Ok(true),
        Ok(_) => Err(FolderFault::RecordsNotOwn),
        Err(error) if error.kind() == ErrorKind::NotFound => Ok(false),
        Err(error) => Err(FolderFault::from(error)),
    }
}

fn is_own(found: &Metadata) -> bool {
    found.is_dir() && found.uid() == geteuid() && found.mode() & 0o077 == 0
}

/// Makes the folder, if it isn't there.
pub(crate) fn make_records<R: Files>(rt: &R, path: &str) -> Result<(), FolderFault> {
    if has_records(rt, path)? {
        return Ok(());
    }
    let mut builder = DirBuilder::new();
    builder.mode(0o700);
    Ok(builder.create(rt, path)?)
}

/// The numbers of the records in the folder; other files are ignored.
pub(crate) fn numbers_in<R: Files + AllocGlobal>(
    rt: &R,
    path: &str,
) -> Result<Vec<u32>, FolderFault> {
    let entries = fs::read_dir(&rt, path)?;
    let mut numbers = Vec::new(rt.alloc());
    for entry in entries {
        let number = record_number(entry?.file_name());
        if let Some(number) = number {
            numbers.push(number)?;
        }
    }
    Ok(numbers)
}

// The number of `3.json`; none for `03.json`.
fn record_number(name: &str) -> Option<u32> {
    let digits = name.strip_suffix(".json")?;
    if digits.starts_with('0') || digits.starts_with('+') {
        return None;
    }
    digits.parse::<u32>().ok()
}
