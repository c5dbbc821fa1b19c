//! The manifest in place, gathered with its files; none if it can't be, whatever its files have.

ghost use Rattle.std.specs.Prelude.{◌≡◌, IfOk};
ghost use Rattle.stage_servers.specs.Gathered as specs;
ghost use Rattle.stage_servers.specs.Gathered.{IsGathered};

use crate::outcome::Stop;
use bounded_files::{Disk, ResourceFault};
use load::{CollectedManifest, LoadFault, PathFault, collect_manifest};
use std::alloc::Global;

/// Whether a fault is about the manifest: it can't be read, isn't one, or has an array that can't
/// be declared. The others for which gathering fails are that memory ran out.
pub fn precedes_files(fault: &PathFault) -> bool
    ensures { result ≡ specs.precedes_files fault.now }
{
    match fault {
        PathFault::Resource(ResourceFault::File) => true,
        PathFault::Load(LoadFault::Manifest(_)) => true,
        PathFault::Load(LoadFault::Cells { .. }) => true,
        _ => false,
    }
}

/// The manifest in place, gathered with its files; none if it can't be gathered. It stops only if
/// an allocation fails.
// open: whether an allocation fails, and that it stops only then.
#[tactic(auto, using(crate::proofs::NotGathered::not_gathered))]
pub fn collected_now<D: Disk>(
    alloc: Global,
    disk: &D,
    manifest: &str,
) -> Result<Option<CollectedManifest>, Stop>
    ensures { IfOk result (IsGathered (D.known disk.now) manifest.now) }
{
    match collect_manifest(alloc, disk, manifest) {
        Ok(collected) => Ok(Some(collected)),
        Err(fault) => {
            let is_first = precedes_files(&fault);
            drop(fault);
            if is_first {
                return Ok(None);
            }
            Err(Stop::Memory)
        }
    }
}
