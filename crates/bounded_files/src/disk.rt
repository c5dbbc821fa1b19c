//! Files by their paths: which kind they must be, and how much of one is read.

ghost use Rattle.std.specs.Prelude.{◌≡◌, ◌≤◌, length, IfOk, List, ℕ, Option};
ghost use Rattle.bounded_files.specs.Files.{KnownFile, ReadsAtMost, ReadsFile};
ghost use Rattle.bounded_files.specs.Files.{most_bytes, regular_files, within};
ghost use Rattle.bounded_files.specs.Files as specs;
ghost use Rattle.bounded_files.specs.Kept.{KeepsFile};

use crate::kept_bytes::{KeptBytes, keep_read};
use crate::resource_fault::ResourceFault;

/// The most bytes of a text, of a script, and of a file that a manifest names: 16 MiB.
pub const MOST_BYTES: u32 = 0x100_0000;

/// Files by their paths.
pub trait Disk {
    /// What each path leads to: a file, or nothing readable. It is known for files in memory and
    /// unknown for those of a device.
    ghost known: { Self → Option (List ℕ → Option KnownFile) };

    /// The bytes of a file of any kind; None if it has more than `most`. If the file has no bytes
    /// yet, such as a FIFO, the call waits.
    fn read(&self, path: &str, most: u32) -> Result<Option<Vec<u8>>, ResourceFault>
        ensures { ReadsAtMost most (known self.now) path.now result };

    /// The bytes of a regular file; None if it has more than `most`. Any other file counts as
    /// unreadable and isn't waited for.
    fn read_regular(&self, path: &str, most: u32) -> Result<Option<Vec<u8>>, ResourceFault>
        ensures { ReadsAtMost most (regular_files (known self.now)) path.now result };

    /// What is kept of a regular file: its bytes, if they are at most `kept`; otherwise the first
    /// `kept` of them, how many there are, and whether they are UTF-8 to their end. Any other file,
    /// and any file of over 16 MiB, counts as unreadable.
    fn keep_regular(&self, path: &str, kept: u32) -> Result<KeptBytes, ResourceFault>
        ensures { KeepsFile kept (within most_bytes (regular_files (known self.now)))
            path.now result }
    {
        keep_read(whole(self.read_regular(path, MOST_BYTES)), kept as usize)
    }

    /// Whether there is a symbolic link at a path; there is none in memory. Nothing is promised
    /// about the result.
    fn is_link(&self, _path: &str) -> bool {
        false
    }
}

/// The bytes of a file of at most `most` bytes. A longer file counts as unreadable.
pub fn read_within<D: Disk>(disk: &D, path: &str, most: u32) -> Result<Vec<u8>, ResourceFault>
    ensures read { ReadsFile (within most (D.known disk.now)) path.now result }
    ensures short { IfOk result (λ v. length v.items ≤ most) }
{
    whole(disk.read(path, most))
}

/// The bytes of a regular file of at most `most` bytes. A longer file, or one that isn't regular,
/// counts as unreadable.
pub fn read_regular_within<D: Disk>(
    disk: &D,
    path: &str,
    most: u32,
) -> Result<Vec<u8>, ResourceFault>
    ensures read { ReadsFile (within most (regular_files (D.known disk.now))) path.now result }
    ensures short { IfOk result (λ v. length v.items ≤ most) }
{
    whole(disk.read_regular(path, most))
}

fn whole(read: Result<Option<Vec<u8>>, ResourceFault>) -> Result<Vec<u8>, ResourceFault>
    ensures { result ≡ specs.whole read }
{
    match read {
        Ok(Some(bytes)) => Ok(bytes),
        Ok(None) => Err(ResourceFault::File),
        Err(fault) => Err(fault),
    }
}
