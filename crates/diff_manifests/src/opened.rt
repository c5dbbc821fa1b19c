//! Two manifests, each opened like a server's first one.

ghost use Rattle.std.specs.Prelude.{IfOk, IfErr};
ghost use Rattle.diff_manifests.specs.Opened as specs;

use crate::diff_fault::DiffFault;
use bounded_files::Disk;
use load::{JudgedManifest, open_manifest};
use std::alloc::Global;

/// Two manifests, OLD and NEW.
pub struct OpenedBoth {
    pub old: JudgedManifest,
    pub new: JudgedManifest,
}

// Not derived: a crate that drops one would prove the drop of each of its parts anew.
impl Drop for OpenedBoth {
    fn drop(self) {
        let Self {
            old: _old,
            new: _new,
        } = self;
    }
}

/// Opens the manifests at two paths, each like a server's first one. Returns the fault of OLD, or
/// else that of NEW: B3, or M1 to M8.
// open: whether an allocation fails (B4, M8).
pub fn open_both<D: Disk>(
    alloc: Global,
    disk: &D,
    old: &str,
    new: &str,
) -> Result<OpenedBoth, DiffFault>
    ensures opened { IfOk result (specs.AreOpened (D.known disk.now) old.now new.now) }
    ensures kept { IfOk result specs.AreKept }
    ensures fault { IfErr result (specs.IsOpenFault (D.known disk.now) old.now new.now) }
{
    let opened = match open_manifest(alloc, disk, old) {
        Ok(opened) => opened,
        Err(fault) => return Err(DiffFault::Old(fault)),
    };
    match open_manifest(alloc, disk, new) {
        Ok(new) => Ok(OpenedBoth { old: opened, new }),
        Err(fault) => {
            drop(opened);
            Err(DiffFault::New(fault))
        }
    }
}
