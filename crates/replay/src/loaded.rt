//! A manifest by its path.

ghost use Rattle.std.specs.Prelude.{IfOk, IfErr, OnOk};
ghost use mathlib.Core.List.{IsPrefix};
ghost use Rattle.std.specs.Arc.{arc_value};
ghost use Rattle.load.specs.Loaded.{IsLoadedFrom};
ghost use Rattle.replay.specs.Loaded.{GivesNoRuleset};

use crate::replay_fault::ReplayFault;
use bounded_files::ResourceFault;
use cells::Directory;
use load::{Disk, load_path};
use ruleset::Ruleset;
use std::alloc::Global;
use std::sync::Arc;

/// The ruleset of the manifest at a path, whose arrays are declared in the directory.
pub(crate) fn load_rules<D: Disk>(
    alloc: Global,
    disk: &D,
    path: &str,
    directory: &mut Directory,
) -> Result<Arc<Ruleset>, ReplayFault>
    ensures rules { IfOk result (λ rules.
        IsLoadedFrom (D.known disk.now) path.now directory.old (arc_value rules) directory.new) }
    ensures fault { IfErr result (GivesNoRuleset (D.known disk.now) path.now directory.old) }
    ensures grown { OnOk result (IsPrefix directory.old directory.new) }
{
    let (rules, grown) = match load_path(alloc, disk, path, directory) {
        Ok(loaded) => loaded,
        Err(fault) => return Err(ReplayFault::Manifest(fault)),
    };
    *directory = grown;
    match Arc::new(alloc, rules) {
        Ok(rules) => Ok(rules),
        Err(_) => Err(ReplayFault::Resource(ResourceFault::Memory)),
    }
}
