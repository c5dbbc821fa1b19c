//! Writing a file that a command names, of whatever kind it is.

use crate::atomic_write::{IfDenied, NewFile};
use crate::file_fault::FileFault;
use crate::resource_fault::ResourceFault;
use std::fs::{self, File, Metadata, OpenFile, OpenOptions};
use std::io::{self, Error, ErrorKind, Read, Write};
use std::path::Path;
use std::rt::Files;

/// Writes a file. If the path names a regular file (links are followed) or doesn't exist, the file
/// is replaced as a whole. Then the old bytes stay if writing fails. The new file has the mode of
/// the old one, and its owner if this process may give it away. A device or a FIFO is written in
/// place, and so is a file in a folder that takes no new files.
// open: which bytes OUT got, that the old bytes stay if writing fails, and that not every file
// returns B3: `bench/outside`.
pub fn write_file<R: Files<File = File> + AllocGlobal>(
    rt: &R,
    path: &str,
    bytes: &[u8],
) -> Result<(), ResourceFault> {
    write_anew(rt, path, bytes).map_err(|error| FileFault::from(error).resource())
}

/// Whether a path may be overwritten by a file that begins with these bytes: it doesn't exist,
/// isn't a regular file, or is a file that is empty or also begins with them.
// open: what it returns: `bench/outside`.
pub fn may_write_over<R: Files>(rt: &R, path: &str, beginning: &[u8; 4]) -> bool {
    match fs::metadata(rt, path) {
        Ok(found) if found.is_file() => begins_so(rt, path, beginning),
        _ => true,
    }
}

fn begins_so<R: Files>(rt: &R, path: &str, beginning: &[u8; 4]) -> bool {
    let Ok(mut file) = fs::open(rt, path) else {
        return false;
    };
    let mut first = [0; 4];
    match file.read(&mut first) {
        Ok(0) => true,
        Ok(count) => count == 4 && first == *beginning,
        Err(_) => false,
    }
}

fn write_anew<R: Files<File = File> + AllocGlobal>(
    rt: &R,
    path: &str,
    bytes: &[u8],
) -> io::Result<()> {
    match fs::metadata(rt, path) {
        Ok(found) if found.is_file() => {
            require_writable(rt, path)?;
            let whole = Path::new(path).canonicalize(rt)?;
            replace(rt, whole.as_str(), Some(found), bytes)
        }
        Err(error) if error.kind() == ErrorKind::NotFound && !is_link(rt, path) => {
            replace(rt, path, None, bytes)
        }
        _ => fs::write(rt, path, bytes),
    }
}

// Fails if this user may not write the file, so that it isn't replaced either.
fn require_writable<R: Files>(rt: &R, path: &str) -> io::Result<()> {
    let _file = OpenOptions::new().write(true).open(rt, path)?;
    Ok(())
}

// Whether a path that leads nowhere is a symbolic link.
fn is_link<R: Files>(rt: &R, path: &str) -> bool {
    match fs::symlink_metadata(rt, path) {
        Ok(found) => found.is_symlink(),
        Err(_) => false,
    }
}

// Replaces a file as a whole if its folder takes a new one, or else in place.
fn replace<R: Files<File = File> + AllocGlobal>(
    rt: &R,
    path: &str,
    old: Option<Metadata>,
    bytes: &[u8],
) -> io::Result<()> {
    match NewFile::create(rt, path, old, 0o666) {
        Ok(new) => new.put(rt, path, bytes, IfDenied::Ignore),
        Err(error) if takes_no_file(&error) => overwrite(rt, path, bytes),
        Err(error) => Err(error),
    }
}

// Whether creating a file failed because the folder takes none, not because the disk is full.
fn takes_no_file(error: &Error) -> bool {
    matches!(
        error.kind(),
        ErrorKind::PermissionDenied | ErrorKind::ReadOnlyFilesystem | ErrorKind::InvalidFilename
    )
}

fn overwrite<R: Files>(rt: &R, path: &str, bytes: &[u8]) -> io::Result<()> {
    let mut file = File::create(rt, path)?;
    file.write_all(bytes)?;
    file.sync_all()
}
