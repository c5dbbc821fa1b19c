//! From the path of a manifest to a ruleset.

ghost use Rattle.std.specs.Prelude.{List, IfOk, IfErr, Some};
ghost use mathlib.Core.List.{IsPrefix};
ghost use Rattle.bounded_files.specs.Files.{Gives, regular_files};
ghost use Rattle.cells.specs.declared.array.CellArray.{CellArray};
ghost use Rattle.load.specs.Cause.{LoadsWithCause};
ghost use Rattle.load.specs.Loaded.{IsLoadedFrom, LoadsFrom, RefusesPath};
ghost use Rattle.ruleset.specs.Rules.{KnowsOnly};

use crate::folder::FolderFiles;
use crate::load_fault::{LoadFault, PathFault};
use crate::loading::{BytesRefusal, load_bytes};
use crate::refusal::LoadRefusal;
use bounded_files::Disk;
use cells::Directory;
use manifest::{ManifestFault, TomlFault};
use ruleset::{LoadedRuleset, Ruleset};
use std::alloc::Global;

/// The most bytes of a manifest, 1 MiB, in the disk's type.
pub const MOST_MANIFEST: u32 = manifest::MOST_MANIFEST as u32;

/// The ruleset of the manifest at a path, and the directory with its arrays declared after the
/// existing ones. The manifest's files are named relative to its folder. It and its files must be
/// regular files; returns B3 if the manifest isn't one or can't be read.
// open: whether an allocation fails (M8, B4); what a device's files contain.
#[tactic(auto, using(crate::proofs::Causes::refuses))]
pub fn load_path<D: Disk>(
    alloc: Global,
    disk: &D,
    path: &str,
    directory: &Directory,
) -> Result<(Ruleset, Directory), PathFault>
    ensures loads { LoadsFrom (D.known disk.now) path.now directory.now result }
    ensures only { IfOk result (λ loaded. KnowsOnly loaded.1 loaded.0) }
    ensures grown { IfOk result (λ loaded. IsPrefix directory.now loaded.1) }
{
    match load_with_digest(alloc, disk, path, directory) {
        Ok(
            LoadedRuleset {
                rules,
                directory,
                digest: _,
            },
        ) => Ok((rules, directory)),
        Err(
            LoadRefusal {
                fault,
                cause: _cause,
            },
        ) => Err(fault),
    }
}

/// Does what `load_path` does, and returns what a log prints: the digest of everything that was
/// judged, or a fault's cause. All files are read before the first is judged.
// open: whether an allocation fails (M8, B4), also for a cause; what a device's files contain.
#[tactic(auto, using(crate::proofs::Making::is_loaded))]
pub fn load_with_digest<D: Disk>(
    alloc: Global,
    disk: &D,
    path: &str,
    directory: &Directory,
) -> Result<LoadedRuleset, LoadRefusal>
    ensures loads { LoadsWithCause (D.known disk.now) path.now directory.now result }
    ensures rules { IfOk result (λ made. IsLoadedFrom (D.known disk.now) path.now directory.now
        made.rules made.directory) }
    ensures only { IfOk result (λ made. KnowsOnly made.directory made.rules) }
    ensures grown { IfOk result (λ made. IsPrefix directory.now made.directory) }
{
    let bytes = match manifest_bytes(disk, path) {
        Ok(bytes) => bytes,
        Err(fault) => return Err(LoadRefusal { fault, cause: None }),
    };
    let mut files = FolderFiles::in_folder_of(alloc, disk, path);
    match load_bytes(alloc, &bytes, &mut files, directory) {
        Ok(made) => Ok(made),
        Err(BytesRefusal { fault, cause }) => Err(LoadRefusal {
            fault: PathFault::Load(fault),
            cause,
        }),
    }
}

/// The bytes of the manifest at a path, at most 1048576. Returns M1 if it has more, and B3 if it
/// isn't a regular file or can't be read.
// open: whether an allocation fails (B4); what a device's files contain.
pub fn manifest_bytes<D: Disk>(disk: &D, path: &str) -> Result<Vec<u8>, PathFault>
    ensures given { IfOk result
        (λ bytes. Gives (regular_files (D.known disk.now)) path.now (Some bytes.items)) }
    // For any arrays over which it would be loaded.
    ensures fault { IfErr result (λ fault.
        (old : List CellArray) → RefusesPath (D.known disk.now) path.now old fault) }
{
    match disk.read_regular(path, MOST_MANIFEST) {
        Ok(Some(bytes)) => Ok(bytes),
        Ok(None) => {
            let fault = ManifestFault::Toml(TomlFault::TooLong);
            Err(PathFault::Load(LoadFault::Manifest(fault)))
        }
        Err(fault) => Err(PathFault::Resource(fault)),
    }
}
