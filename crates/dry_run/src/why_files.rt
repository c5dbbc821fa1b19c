//! The files of a dry run, with the rule of each app of the manifest.

ghost use Rattle.std.specs.Prelude.{◌≡◌, [], All, IfOk, IfErr, IfSome, option_copied};
ghost use Rattle.load.specs.JudgedApps.{app_named};
ghost use Rattle.load.specs.Loaded.{RefusesPath};
ghost use Rattle.load.specs.Opened.{IsOpened};
ghost use Rattle.dry_run.specs.Files.{IsOpenFault};
ghost use Rattle.dry_run.specs.Meanings as specs;

use crate::dry_run_fault::DryRunFault;
use crate::files::read_body;
use bounded_files::Disk;
use load::{JudgedApp, JudgedManifest, PathFault, open_manifest, opened_is_made, sources_are_made};
use std::alloc::Global;

/// A manifest, opened over no arrays, and a body.
pub struct OpenedWhy {
    pub manifest: JudgedManifest,
    pub body: Vec<u8>,
}

// Not derived: a crate that drops one would prove the drop of each of its parts anew.
impl Drop for OpenedWhy {
    fn drop(self) {
        let Self {
            manifest: _manifest,
            body: _body,
        } = self;
    }
}

/// Opens the manifest at a path: its apps, each with its program and its rule, and its digest. Each
/// file is read once. The faults are M1 to M8, and B3 or B4 if the manifest can't be read.
// open: whether an allocation fails (B4, M8).
#[tactic(auto, using(crate::proofs::Opening::are_meant))]
pub fn open_meant<D: Disk>(
    alloc: Global,
    disk: &D,
    manifest: &str,
) -> Result<JudgedManifest, PathFault>
    ensures opened { IfOk result (IsOpened (D.known disk.now) manifest.now) }
    ensures meant { IfOk result (λ j. All specs.IsMeantApp j.apps.items) }
    ensures fault { IfErr result (RefusesPath (D.known disk.now) manifest.now []) }
{
    match open_manifest(alloc, disk, manifest) {
        Ok(manifest) => Ok(manifest),
        Err(fault) => Err(fault),
    }
}

/// The app with this appid in a manifest of `open_meant`.
#[tactic(auto, using(crate::proofs::Explaining::named_meant))]
pub fn meant_app<'a>(manifest: &'a JudgedManifest, appid: &str) -> Option<&'a JudgedApp>
    requires { All specs.IsMeantApp manifest.now.apps.items }
    ensures found { option_copied result ≡ app_named manifest.now.apps.items appid.now }
    ensures meant { IfSome (option_copied result) specs.IsMeantApp }
{
    manifest.app(appid)
}

/// Opens what `open_files` opens, with the same faults. Each file is read once, and the text of a
/// rule is parsed once.
// open: whether an allocation fails (B4, M8).
#[tactic(auto, using(crate::proofs::Opening::no_body_why))]
pub fn open_why<D: Disk>(
    alloc: Global,
    disk: &D,
    manifest: &str,
    request: &str,
) -> Result<OpenedWhy, DryRunFault>
    ensures opened { IfOk result
        (specs.AreOpenedWhy (D.known disk.now) manifest.now request.now) }
    ensures meant { IfOk result (λ o. All specs.IsMeantApp o.manifest.apps.items) }
    ensures fault { IfErr result (IsOpenFault (D.known disk.now) manifest.now request.now) }
{
    opened_is_made();
    sources_are_made();
    let manifest = match open_meant(alloc, disk, manifest) {
        Ok(manifest) => manifest,
        Err(fault) => return Err(DryRunFault::Manifest(fault)),
    };
    match read_body(disk, request) {
        Ok(body) => Ok(OpenedWhy { manifest, body }),
        Err(fault) => {
            drop(manifest);
            Err(fault)
        }
    }
}
