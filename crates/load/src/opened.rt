//! The manifest at a path, opened as by a load on a server without arrays.

ghost use Rattle.std.specs.Prelude.{All, [], IfOk, IfErr};
ghost use Rattle.load.specs.JudgedApps.{IsJudgedApp, sources_of};
ghost use Rattle.load.specs.Loaded.{RefusesPath};
ghost use Rattle.load.specs.Opened.{IsCollected, IsOpened};
ghost use Rattle.load.specs.Sources.{HasItsReleases};

use crate::folder::FolderFiles;
use crate::judged::JudgedManifest;
use crate::laws::sources_are_loaded;
use crate::load_fault::PathFault;
use crate::made::judge_sources;
use crate::path::manifest_bytes;
use crate::sources::{Sources, collect_sources};
use bounded_files::Disk;
use cells::Directory;
use std::alloc::Global;

/// A manifest's bytes, and what is gathered of it.
#[derive(Drop)]
pub struct CollectedManifest {
    pub bytes: Vec<u8>,
    pub sources: Sources,
}

/// Gathers the manifest at a path and the files of its folder, over no arrays.
// open: whether an allocation fails (M8, B4); what a device's files contain.
pub fn collect_manifest<D: Disk>(
    alloc: Global,
    disk: &D,
    path: &str,
) -> Result<CollectedManifest, PathFault>
    ensures collected { IfOk result (IsCollected (D.known disk.now) path.now) }
    ensures fault { IfErr result (RefusesPath (D.known disk.now) path.now []) }
{
    let bytes = match manifest_bytes(disk, path) {
        Ok(bytes) => bytes,
        Err(fault) => return Err(fault),
    };
    let mut files = FolderFiles::in_folder_of(alloc, disk, path);
    let none = Directory::new(alloc);
    match collect_sources(alloc, &bytes, &mut files, &none) {
        Ok(sources) => Ok(CollectedManifest { bytes, sources }),
        Err(refusal) => {
            drop(bytes);
            Err(PathFault::Load(refusal.into_fault()))
        }
    }
}

/// Opens the manifest at a path: gathers it with its files, over no arrays, and judges its apps.
/// Each file is read once, and the text of each rule is parsed once.
// open: whether an allocation fails (M8, B4); what a device's files contain.
pub fn open_manifest<D: Disk>(
    alloc: Global,
    disk: &D,
    path: &str,
) -> Result<JudgedManifest, PathFault>
    ensures opened { IfOk result (IsOpened (D.known disk.now) path.now) }
    ensures judged { IfOk result (λ j. All IsJudgedApp j.apps.items) }
    ensures shaped { IfOk result (λ j. All HasItsReleases (sources_of j.apps.items)) }
    ensures fault { IfErr result (RefusesPath (D.known disk.now) path.now []) }
{
    sources_are_loaded();
    let CollectedManifest { bytes, sources } = match collect_manifest(alloc, disk, path) {
        Ok(collected) => collected,
        Err(fault) => return Err(fault),
    };
    match judge_sources(alloc, &bytes, sources) {
        Ok(judged) => Ok(judged),
        Err(refused) => {
            drop(bytes);
            Err(PathFault::Load(refused.into_fault()))
        }
    }
}
