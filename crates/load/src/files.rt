//! The files that a manifest names.

ghost use Rattle.std.specs.Prelude.{◌≡◌, ◌^◌, ◌-◌, ◌<◌, List, ℕ, Option};
ghost use Rattle.bounded_files.specs.Files.{KnownFile, ReadsFile};
ghost use Rattle.bounded_files.specs.Kept.{KeepsFile};
ghost use Rattle.load.specs.Files.{CountsUnread};

use bounded_files::{KeptBytes, ResourceFault};

/// Files by their names.
pub trait Files {
    /// What each name leads to: a file, or nothing readable. It is known for files in memory and
    /// unknown for those of a device.
    ghost known: { Self → Option (List ℕ → Option KnownFile) };

    /// How many files couldn't be read so far.
    ghost failed: { Self → ℕ };

    /// The bytes of a file. A file that can't be read is counted.
    fn bytes(&mut self, name: &str) -> Result<Vec<u8>, ResourceFault>
        requires { failed self.old < 2 ^ 64 - 1 }
        ensures known { known self.new ≡ known self.old }
        ensures read { ReadsFile (known self.old) name.now result }
        ensures count { CountsUnread (failed self.old) (failed self.new) result };

    /// What is kept of a file: its bytes, if they are at most `most`; otherwise the first `most` of
    /// them, how many there are, and whether they are UTF-8 to their end. A file that can't be read
    /// is counted. Implementations that needn't hold all bytes of a longer file override this.
    fn keep(&mut self, name: &str, most: u32) -> Result<KeptBytes, ResourceFault>
        requires { failed self.old < 2 ^ 64 - 1 }
        ensures known { known self.new ≡ known self.old }
        ensures read { KeepsFile most (known self.old) name.now result }
        ensures count { CountsUnread (failed self.old) (failed self.new) result }
    {
        match self.bytes(name) {
            Ok(bytes) => Ok(KeptBytes::of(bytes, most as usize)),
            Err(fault) => Err(fault),
        }
    }

    /// How many files couldn't be read so far.
    fn failures(&self) -> u64
        ensures { result ≡ failed self.now };

    /// Whether the path of a name has a symbolic link: the file itself, or a folder below the
    /// manifest's; also if that isn't known. Files in memory have none. Nothing is promised about
    /// the result.
    fn is_through_link(&self, _name: &str) -> bool {
        false
    }

    /// Whether the manifest itself is a symbolic link, by the path by which it was read.
    fn is_manifest_link(&self) -> bool {
        false
    }
}
