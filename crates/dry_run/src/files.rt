//! The files of a dry run: a manifest, and the body of a request.

ghost use Rattle.std.specs.Prelude.{◌≡◌, [], IfOk, IfErr};
ghost use Rattle.load.specs.Loaded.{LoadsFrom};
ghost use Rattle.dry_run.specs.Files as specs;

use crate::dry_run_fault::DryRunFault;
use bounded_files::Disk;
use cells::Directory;
use load::{PathFault, load_path};
use ruleset::Ruleset;
use std::alloc::Global;

/// The most bytes of a body, the same as for a server's client: 1 MiB.
const MOST_BODY: u32 = 0x10_0000;

/// A ruleset with the arrays of its manifest, and a body.
pub struct OpenedFiles {
    pub rules: Ruleset,
    pub directory: Directory,
    pub body: Vec<u8>,
}

// Not derived: a crate that drops one would prove the drop of each of its parts anew.
impl Drop for OpenedFiles {
    fn drop(self) {
        let Self {
            rules: _rules,
            directory: _directory,
            body: _body,
        } = self;
    }
}

/// Loads a manifest over no arrays, like a server's first one, and reads a body from a file of any
/// kind; `-` is standard input. The manifest's faults come first, M1 to M8 or B3; then B3 of the
/// body, and P5 if it has more than 1 MiB. Returns B4 if an allocation fails.
// open: whether an allocation fails (B4, M8).
#[tactic(auto, using(crate::proofs::Opening::no_body))]
pub fn open_files<D: Disk>(
    alloc: Global,
    disk: &D,
    manifest: &str,
    request: &str,
) -> Result<OpenedFiles, DryRunFault>
    ensures opened { IfOk result (λ o. specs.AreOpened (D.known disk.now) manifest.now request.now
        o.rules o.directory o.body.items) }
    ensures fault { IfErr result (specs.IsOpenFault (D.known disk.now) manifest.now request.now) }
{
    let (rules, directory) = match load_alone(alloc, disk, manifest) {
        Ok(loaded) => loaded,
        Err(fault) => return Err(DryRunFault::Manifest(fault)),
    };
    match read_body(disk, request) {
        Ok(body) => Ok(OpenedFiles {
            rules,
            directory,
            body,
        }),
        Err(fault) => Err(fault),
    }
}

/// Reads a body from a file of any kind; `-` is standard input.
pub(crate) fn read_body<D: Disk>(disk: &D, request: &str) -> Result<Vec<u8>, DryRunFault>
    ensures body { IfOk result (λ body. specs.IsBodyIn (D.known disk.now) request.now body.items) }
    ensures fault { IfErr result (specs.IsBodyFault (D.known disk.now) request.now) }
{
    match disk.read(body_path(request), MOST_BODY) {
        Ok(Some(body)) => Ok(body),
        Ok(None) => Err(DryRunFault::TooLarge),
        Err(fault) => Err(DryRunFault::Resource(fault)),
    }
}

// The ruleset of a manifest, loaded over no arrays, and its directory.
fn load_alone<D: Disk>(
    alloc: Global,
    disk: &D,
    path: &str,
) -> Result<(Ruleset, Directory), PathFault>
    ensures { LoadsFrom (D.known disk.now) path.now [] result }
{
    let none = Directory::new(alloc);
    match load_path(alloc, disk, path, &none) {
        Ok(loaded) => Ok(loaded),
        Err(fault) => Err(fault),
    }
}

// The path of the body.
fn body_path<'a>(request: &'a str) -> &'a str
    ensures { result.now ≡ specs.body_path request.now }
{
    if request == "-" {
        "/dev/stdin"
    } else {
        request
    }
}
