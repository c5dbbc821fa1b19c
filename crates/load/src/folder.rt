//! The files in the folder of a manifest.

ghost use Rattle.std.specs.Prelude.{◌≡◌, IfOk};
ghost use Rattle.std.specs.Path.{path_buf_bytes};
ghost use Rattle.load.specs.Folder as specs;

use crate::files::Files;
use bounded_files::{Disk, KeptBytes, MOST_BYTES, ResourceFault, read_regular_within};
use std::alloc::{AllocError, Global};
use std::path::{Path, PathBuf};

/// Files named relative to the folder of a manifest. An absolute path is used as it is, and `..`
/// leads out of the folder. Anything but a regular file (such as a FIFO, a folder or a device), and
/// any file of more than 16 MiB, counts as unreadable.
#[derive(Drop)]
pub struct FolderFiles<'a, D> {
    alloc: Global,
    disk: &'a D,
    manifest: &'a str,
    asks_links: bool,
    failures: u64,
}

impl<'a, D> FolderFiles<'a, D> {
    /// The files next to the manifest at this path, none read yet. The disk isn't queried about
    /// symbolic links, so each path counts as one.
    pub fn in_folder_of(alloc: Global, disk: &'a D, manifest: &'a str) -> FolderFiles<'a, D>
        ensures disk { result.disk.now ≡ disk.now }
        ensures manifest { result.manifest.now ≡ manifest.now }
        ensures failures { result.failures ≡ 0 }
    {
        FolderFiles {
            alloc,
            disk,
            manifest,
            asks_links: false,
            failures: 0,
        }
    }

    /// The same, but the disk is queried about symbolic links.
    pub fn with_links(alloc: Global, disk: &'a D, manifest: &'a str) -> FolderFiles<'a, D>
        ensures disk { result.disk.now ≡ disk.now }
        ensures manifest { result.manifest.now ≡ manifest.now }
        ensures failures { result.failures ≡ 0 }
    {
        FolderFiles {
            alloc,
            disk,
            manifest,
            asks_links: true,
            failures: 0,
        }
    }
}

impl<'a, D: Disk> Files for FolderFiles<'a, D> {
    ghost use Rattle.load.specs.Folder.{files_in_folder};

    ghost known = { λ files. files_in_folder (D.known files.disk.now) files.manifest.now };

    ghost failed = { λ files. files.failures };

    fn bytes(&mut self, name: &str) -> Result<Vec<u8>, ResourceFault> {
        let Ok(path) = path_in_folder(self.alloc, self.manifest, name) else {
            return Err(ResourceFault::Memory);
        };
        match read_regular_within(self.disk, path.as_str(), MOST_BYTES) {
            Ok(bytes) => Ok(bytes),
            Err(ResourceFault::Memory) => Err(ResourceFault::Memory),
            Err(ResourceFault::File) => {
                self.failures += 1;
                Err(ResourceFault::File)
            }
        }
    }

    // Without holding all bytes of a longer file.
    fn keep(&mut self, name: &str, most: u32) -> Result<KeptBytes, ResourceFault> {
        let Ok(place) = path_in_folder(self.alloc, self.manifest, name) else {
            return Err(ResourceFault::Memory);
        };
        match self.disk.keep_regular(place.as_str(), most) {
            Ok(kept) => Ok(kept),
            Err(ResourceFault::Memory) => Err(ResourceFault::Memory),
            Err(ResourceFault::File) => {
                self.failures += 1;
                Err(ResourceFault::File)
            }
        }
    }

    fn failures(&self) -> u64 {
        self.failures
    }

    fn is_through_link(&self, name: &str) -> bool {
        if !self.asks_links {
            return true;
        }
        for part in Path::new(name).ancestors() {
            if is_link_in_folder(self.alloc, self.disk, self.manifest, part.as_os_str()) {
                return true;
            }
        }
        false
    }

    fn is_manifest_link(&self) -> bool {
        self.disk.is_link(self.manifest)
    }
}

// Whether a name, or a prefix of one, is a symbolic link; if an allocation for its path fails, it
// counts as one. The folder itself isn't tested.
fn is_link_in_folder<D: Disk>(alloc: Global, disk: &D, manifest: &str, part: &str) -> bool {
    if part.is_empty() {
        return false;
    }
    match path_in_folder(alloc, manifest, part) {
        Ok(path) => disk.is_link(path.as_str()),
        Err(_) => true,
    }
}

// The path of a name, relative to the folder of a manifest.
fn path_in_folder(alloc: Global, manifest: &str, name: &str) -> Result<PathBuf, AllocError>
    ensures { IfOk result
        (λ path. path_buf_bytes path ≡ specs.path_in_folder manifest.now name.now) }
{
    let folder = Path::new(manifest).parent().unwrap_or(Path::new(""));
    folder.join(alloc, name)
}
