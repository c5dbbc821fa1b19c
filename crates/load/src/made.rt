//! What was gathered is judged, and a ruleset is made of it, with the digest of everything that was
//! judged.

ghost use Rattle.std.specs.Prelude.{◌≡◌, All, IfOk, IfErr};
ghost use Rattle.load.specs.JudgedApps as specs;
ghost use Rattle.load.specs.JudgedApps.{IsJudgedApp};
ghost use Rattle.load.specs.Judged.{RefusesFirst};
ghost use Rattle.load.specs.Sources.{HasItsReleases};
ghost use Rattle.ruleset.specs.Rules.{HasDuplicate, appids_of};

use crate::digest::judged_digest;
use crate::judged::{JudgedManifest, RefusedApps};
use crate::load_fault::LoadFault;
use crate::programs::{join, judge_each, supply};
use crate::sources::Sources;
use ruleset::{LoadedRuleset, Ruleset};
use std::alloc::{AllocError, Global};

/// Judges the apps that were gathered from a manifest with these bytes, in order. Returns the fault
/// of the first app without a program, with what was gathered.
// open: whether an allocation fails (M8).
pub fn judge_sources(
    alloc: Global,
    manifest: &[u8],
    sources: Sources,
) -> Result<JudgedManifest, RefusedApps>
    ensures judged { IfOk result (specs.IsJudgedOf manifest.now sources) }
    ensures apps { IfOk result (λ j. All IsJudgedApp j.apps.items) }
    ensures fault { IfErr result (λ refused. RefusesFirst sources.apps.items refused.fault) }
    ensures sources { IfErr result (λ refused. refused.sources ≡ sources) }
{
    let Ok(room) = Vec::with_capacity(alloc, sources.apps.len()) else {
        return Err(RefusedApps {
            fault: LoadFault::Memory,
            sources,
        });
    };
    let programs = match judge_each(alloc, &sources.apps) {
        Ok(programs) => programs,
        Err(fault) => return Err(RefusedApps { fault, sources }),
    };
    let digest = judged_digest(manifest, &sources.apps, &programs);
    let Sources {
        server,
        arrays,
        directory,
        apps,
        unread: _unread,
    } = sources;
    Ok(JudgedManifest {
        server,
        arrays,
        directory,
        apps: join(room, apps, programs),
        digest,
    })
}

/// The ruleset of a judged manifest. Its rules, and what is kept of its files, are dropped.
// open: whether an allocation fails, its only error.
pub(crate) fn make_ruleset(
    alloc: Global,
    judged: JudgedManifest,
) -> Result<LoadedRuleset, AllocError>
    requires shaped { All HasItsReleases (specs.sources_of judged.apps.items) }
    requires judged { All IsJudgedApp judged.apps.items }
    requires once { ¬ HasDuplicate (appids_of (specs.app_rules judged.apps.items)) }
    ensures { IfOk result (λ made. made ≡ specs.ruleset_of judged) }
{
    let JudgedManifest {
        server,
        arrays: _arrays,
        directory,
        apps,
        digest,
    } = judged;
    let apps = supply(alloc, apps)?;
    Ok(LoadedRuleset {
        rules: Ruleset::from_distinct(server.into_string(), apps),
        directory,
        digest,
    })
}
