//! Replaces a file of a device as a whole: a new file is written next to it, synced, and renamed.

use crate::file_fault::FileFault;
use crate::regular_file::file_to_replace;
use std::fs::{self, File, Metadata, OpenFile, OpenOptions};
use std::io::{self, Error, ErrorKind, Write};
use std::os::unix::fs::{MetadataExt, OpenOptionsExt, fchown};
use std::path::Path;
use std::rt::Files;

/// How many names are tried for the new file.
const MOST_NAMES: u32 = 100;

/// What happens if a new file can't get the owner of the old one, or its folder can't be synced.
#[derive(Clone, Copy)]
pub enum IfDenied {
    /// The call fails.
    Fail,
    /// The new file has another owner, or its name may not survive a crash.
    Ignore,
}

/// Replaces a regular file, or makes it with this mode. The new file has the mode of the old one,
/// and its bytes survive a crash. With `IfDenied::Fail` it also has the owner of the old one, and
/// its name survives a crash. After an error the file is as before, or else it is replaced but its
/// name may not survive a crash.
// open: which bytes the file has, and which fault is returned: tests and `bench/outside`.
pub fn replace_file<R: Files<File = File> + AllocGlobal>(
    rt: &R,
    path: &str,
    bytes: &[u8],
    mode: u32,
    denied: IfDenied,
) -> Result<(), FileFault> {
    let old = file_to_replace(rt, path)?;
    let new = NewFile::create(rt, path, old, mode)?;
    Ok(new.put(rt, path, bytes, denied)?)
}

/// Removes a regular file, if it is there.
// open: that it is gone, and which fault is returned: tests and `bench/outside`.
pub fn remove_file<R: Files>(rt: &R, path: &str) -> Result<(), FileFault> {
    if file_to_replace(rt, path)?.is_none() {
        return Ok(());
    }
    fs::remove_file(rt, path)?;
    Ok(sync_folder_of(rt, path, IfDenied::Fail)?)
}

/// A new file next to a path, and what the system says of the file there that it replaces.
#[derive(Drop)]
pub(crate) struct NewFile {
    name: String,
    file: File,
    old: Option<Metadata>,
}

impl NewFile {
    /// Makes an empty file. No file that is there is opened, and no link is followed.
    pub(crate) fn create<R: Files<File = File> + AllocGlobal>(
        rt: &R,
        path: &str,
        old: Option<Metadata>,
        mode: u32,
    ) -> io::Result<NewFile> {
        let mut options = OpenOptions::new();
        let first_mode = if old.is_some() { 0o600 } else { mode };
        options.write(true).create_new(true).mode(first_mode);
        for number in 0..MOST_NAMES {
            let name = format!(in rt.alloc(); "{path}.{number}.new")?;
            match options.open(rt, name.as_str()) {
                Ok(file) => return Ok(NewFile { name, file, old }),
                Err(error) if error.kind() == ErrorKind::AlreadyExists => {}
                Err(error) => return Err(error),
            }
        }
        Err(Error::from(ErrorKind::AlreadyExists))
    }

    /// Writes it, and renames it to the path; removes it if that fails.
    pub(crate) fn put<R: Files>(
        self,
        rt: &R,
        path: &str,
        bytes: &[u8],
        denied: IfDenied,
    ) -> io::Result<()> {
        let NewFile {
            name,
            mut file,
            old,
        } = self;
        let filled = fill(&mut file, old, bytes, denied);
        drop(file);
        let moved = match filled {
            Ok(()) => fs::rename(rt, name.as_str(), path),
            Err(error) => Err(error),
        };
        if let Err(error) = moved {
            let _gone = fs::remove_file(rt, name.as_str());
            return Err(error);
        }
        sync_folder_of(rt, path, denied)
    }
}

// Only users who could read the old file can read the new one, unless `denied` ignores the owner:
// it gets its owner and mode before its name.
fn fill(file: &mut File, old: Option<Metadata>, bytes: &[u8], denied: IfDenied) -> io::Result<()> {
    file.write_all(bytes)?;
    if let Some(old) = old {
        give_to_owner(&*file, &old, denied)?;
        file.set_permissions(old.permissions())?;
    }
    file.sync_all()
}

fn give_to_owner(file: &File, old: &Metadata, denied: IfDenied) -> io::Result<()> {
    let new = file.metadata()?;
    if new.uid() == old.uid() && new.gid() == old.gid() {
        return Ok(());
    }
    let given = fchown(file, Some(old.uid()), Some(old.gid()));
    if given.is_err() && matches!(denied, IfDenied::Ignore) {
        // A process may give its files to each of its groups.
        let _kept = fchown(file, None, Some(old.gid()));
        return Ok(());
    }
    given
}

// With `IfDenied::Fail`, the names in the folder survive a crash after this call.
fn sync_folder_of<R: Files>(rt: &R, path: &str, denied: IfDenied) -> io::Result<()> {
    let folder = match Path::new(path).parent() {
        Some(folder) if folder.as_str() != "" => folder.as_str(),
        _ => ".",
    };
    let synced = match fs::open(rt, folder) {
        Ok(opened) => opened.sync_all(),
        Err(error) => Err(error),
    };
    match denied {
        IfDenied::Fail => synced,
        IfDenied::Ignore => Ok(()),
    }
}
