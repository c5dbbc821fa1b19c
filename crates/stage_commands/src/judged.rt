//! Manifests, judged without a server.

ghost use Rattle.std.specs.Prelude.{IfOk};
ghost use Rattle.load.specs.JudgedApps.{IsJudgedOf};
ghost use Rattle.stage_commands.specs.Compared.{AreAllJudged};

use load::{JudgedManifest, LoadFault, PathFault, Sources, judge_sources};
use stage_servers::{Stop, no_manifest};
use std::alloc::Global;

/// Judges what is gathered from a manifest with these bytes.
pub(crate) fn judged(
    alloc: Global,
    bytes: &[u8],
    sources: Sources,
) -> Result<JudgedManifest, LoadFault>
    ensures apps { IfOk result AreAllJudged }
    ensures judged { IfOk result (IsJudgedOf bytes.now sources) }
{
    match judge_sources(alloc, bytes, sources) {
        Ok(judged) => Ok(judged),
        Err(refused) => Err(refused.into_fault()),
    }
}

/// The same for the manifest at a path. If it can't be judged, the command stops with a refusal.
pub(crate) fn judged_at(
    alloc: Global,
    path: &str,
    bytes: &[u8],
    sources: Sources,
) -> Result<JudgedManifest, Stop>
    ensures apps { IfOk result AreAllJudged }
    ensures judged { IfOk result (IsJudgedOf bytes.now sources) }
{
    match judged(alloc, bytes, sources) {
        Ok(judged) => Ok(judged),
        Err(fault) => Err(no_manifest(alloc, path, PathFault::Load(fault))),
    }
}
