//! Regular files of a device: which one a path leads to, opening it, and reading it up to a limit.

ghost use Rattle.std.specs.Prelude.{◌↔◌, ◌≤◌, length, IfOk, IfSome, IsOk};
ghost use Rattle.std.specs.Fs.{IsFile, file_type};
ghost use Rattle.bounded_files.specs.Files.{IsBeginning, IsWithin};

use crate::file_fault::FileFault;
use std::alloc::Global;
use std::fs::{self, Metadata, OpenFile};
use std::io::{self, ErrorKind, Read};
use std::os::unix::fs::MetadataExt;
use std::rt::Files;

/// What is done with a path that is a symbolic link.
#[derive(Clone, Copy)]
pub enum Links {
    /// It leads to its file.
    Followed,
    /// It is refused. Links before the path's last name are followed.
    Refused,
}

/// What the system says of the regular file at a path.
fn regular_file<R: Files>(rt: &R, path: &str, links: Links) -> Result<Metadata, FileFault> {
    let found = match links {
        Links::Followed => fs::metadata(rt, path)?,
        Links::Refused => fs::symlink_metadata(rt, path)?,
    };
    require_regular(&found)?;
    Ok(found)
}

/// What the system says of the regular file at a path that no link leads to; None if there is
/// nothing at the path.
pub(crate) fn file_to_replace<R: Files>(rt: &R, path: &str) -> Result<Option<Metadata>, FileFault> {
    match regular_file(rt, path, Links::Refused) {
        Ok(found) => Ok(Some(found)),
        Err(FileFault::System(ErrorKind::NotFound)) => Ok(None),
        Err(fault) => Err(fault),
    }
}

/// A regular file, opened. The kind of the file is checked before opening the path, because opening
/// a FIFO waits for a writer. It is checked again afterwards, because another file may be there by
/// then. A FIFO that is put there between the two checks is still waited for.
pub(crate) fn open_regular<R: Files>(
    rt: &R,
    path: &str,
    links: Links,
) -> Result<R::File, FileFault> {
    let found = regular_file(rt, path, links)?;
    let file = fs::open(rt, path)?;
    let opened = file.metadata()?;
    require_regular(&opened)?;
    // A link that was put there since the first look leads to another file.
    let is_same = opened.dev() == found.dev() && opened.ino() == found.ino();
    match links {
        Links::Refused if !is_same => Err(FileFault::Link),
        _ => Ok(file),
    }
}

fn require_regular(found: &Metadata) -> Result<(), FileFault>
    ensures { IsOk result ↔ IsFile (file_type found.now) }
{
    if found.is_file() {
        return Ok(());
    }
    if found.is_symlink() {
        return Err(FileFault::Link);
    }
    Err(FileFault::NotRegular)
}

/// The bytes of a regular file; None if there is nothing at the path. Returns `TooLong` if it has
/// more than `most`.
// open: what a device's file contains, and which fault is returned: tests.
pub fn read_file<R: Files + AllocGlobal>(
    rt: &R,
    path: &str,
    links: Links,
    most: u32,
) -> Result<Option<Vec<u8>>, FileFault>
    ensures { IfOk result (λ found. IfSome found (λ v. length v.items ≤ most)) }
{
    let file = match open_regular(rt, path, links) {
        Ok(file) => file,
        Err(FileFault::System(ErrorKind::NotFound)) => return Ok(None),
        Err(fault) => return Err(fault),
    };
    let bytes = read_beginning(rt.alloc(), file, most)?;
    if bytes.len() > most as usize {
        return Err(FileFault::TooLong);
    }
    Ok(Some(bytes))
}

/// The first bytes that a reader gives, at most `most + 1`; if the reader's bytes are known, the
/// first of these.
pub(crate) fn read_beginning<R: Read + Drop>(
    alloc: Global,
    reader: R,
    most: u32,
) -> io::Result<Vec<u8>>
    ensures within { IfOk result (λ v. IsWithin most v.items) }
    ensures bytes { IfOk result (λ v. IsBeginning (R.remaining reader) most v.items) }
{
    let limit = most as usize + 1;
    let mut bytes = Vec::new(alloc);
    reader.take(limit as u64).read_to_end(&mut bytes)?;
    bytes.truncate(limit);
    Ok(bytes)
}
