//! The manifest as it was before a step, gathered with its files; none if it can't be, whatever its
//! files have.

ghost use Rattle.std.specs.Prelude.{◌≡◌, IfErr, IfOk, codes};
ghost use Rattle.stage_servers.specs.Replaced.{file_named};
ghost use Rattle.stage_commands.specs.Befores.{GivesBefore, RefusesBefore, WasCollected};
ghost use Rattle.stage_commands.specs.Befores.{WasGathered};

use crate::present::CURRENT;
use bounded_files::{Disk, ResourceFault};
use load::{CollectedManifest, PathFault, manifest_bytes};
use stage_records::ReplacedFile;
use stage_servers::{Stop, bytes_of, file_named, precedes_files, sources_with};
use std::alloc::Global;

// The bytes of the manifest as it was before a step.
#[tactic(auto, using(crate::proofs::Then::not_replaced))]
fn bytes_before<D: Disk>(
    alloc: Global,
    disk: &D,
    manifest: &str,
    restored: &[ReplacedFile],
) -> Result<Vec<u8>, PathFault>
    ensures given { IfOk result (λ bytes. GivesBefore (D.known disk.now) manifest.now
        (file_named restored.now (codes "current.toml")) bytes.items) }
    ensures fault { IfErr result (λ fault. RefusesBefore (D.known disk.now) manifest.now fault
        (file_named restored.now (codes "current.toml"))) }
{
    match file_named(restored, CURRENT) {
        Some(file) => match bytes_of(alloc, file, false) {
            Ok(bytes) => Ok(bytes),
            Err(_) => Err(PathFault::Resource(ResourceFault::Memory)),
        },
        None => match manifest_bytes(disk, manifest) {
            Ok(bytes) => Ok(bytes),
            Err(fault) => Err(fault),
        },
    }
}

// The manifest as it was before a step, gathered with its files.
#[tactic(auto, using(crate::proofs::Then::sources_refused))]
fn collect_before<D: Disk>(
    alloc: Global,
    disk: &D,
    manifest: &str,
    restored: &[ReplacedFile],
) -> Result<CollectedManifest, PathFault>
    ensures collected { IfOk result
        (WasCollected (D.known disk.now) manifest.now restored.now) }
    ensures fault { IfErr result (λ fault. RefusesBefore (D.known disk.now) manifest.now fault
        (file_named restored.now (codes "current.toml"))) }
{
    let bytes = match bytes_before(alloc, disk, manifest, restored) {
        Ok(bytes) => bytes,
        Err(fault) => return Err(fault),
    };
    match sources_with(alloc, disk, manifest, &bytes, restored, false) {
        Ok(sources) => Ok(CollectedManifest { bytes, sources }),
        Err(fault) => {
            drop(bytes);
            Err(PathFault::Load(fault))
        }
    }
}

/// The same; none if it can't be gathered.
#[tactic(auto, using(crate::proofs::Then::not_gathered_before))]
pub(crate) fn collected_before<D: Disk>(
    alloc: Global,
    disk: &D,
    manifest: &str,
    restored: &[ReplacedFile],
) -> Result<Option<CollectedManifest>, Stop>
    ensures { IfOk result (WasGathered (D.known disk.now) manifest.now restored.now) }
{
    match collect_before(alloc, disk, manifest, restored) {
        Ok(collected) => Ok(Some(collected)),
        Err(fault) => {
            let is_first = precedes_files(&fault);
            drop(fault);
            if is_first {
                return Ok(None);
            }
            Err(Stop::Memory)
        }
    }
}
