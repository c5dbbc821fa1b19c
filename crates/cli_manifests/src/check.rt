//! `check`: what a manifest declares and its warnings, or where and why it is refused.

ghost use Rattle.std.specs.Prelude.{IfOk, IfErr};
ghost use Rattle.cli_manifests.specs.Manifests.{IsChecked, IsCheckRefusal};

use crate::manifest_tool_fault::ManifestToolFault;
use bounded_files::Disk;
use load::{FolderFiles, MOST_MANIFEST};
use std::alloc::Global;
use why_refused_manifest::{CheckedManifest, check, too_long};

/// The report on a file's manifest. The files that it names are relative to its folder. It and its
/// files must be regular files; returns B3 if the manifest isn't one or can't be read.
// open: what `check` of `why_refused_manifest` leaves open.
pub(crate) fn check_file<D: Disk>(
    alloc: Global,
    disk: &D,
    path: &str,
) -> Result<CheckedManifest, ManifestToolFault>
    ensures checked { IfOk result (IsChecked (D.known disk.now) path.now) }
    ensures fault { IfErr result (IsCheckRefusal (D.known disk.now) path.now) }
{
    let bytes = match disk.read_regular(path, MOST_MANIFEST) {
        Ok(Some(bytes)) => bytes,
        Ok(None) => return Err(ManifestToolFault::Diagnosed(too_long(alloc))),
        Err(fault) => return Err(ManifestToolFault::Resource(fault)),
    };
    let mut files = FolderFiles::with_links(alloc, disk, path);
    match check(alloc, bytes.as_slice(), &mut files) {
        Ok(checked) => Ok(checked),
        Err(refused) => Err(ManifestToolFault::Diagnosed(refused)),
    }
}
