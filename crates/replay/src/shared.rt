//! The rulesets that swap lines share. What a load gives depends on the manifest's files and on the
//! declared arrays. So a manifest is loaded again only if an array was declared since.

ghost use Rattle.std.specs.Prelude.{◌≡◌, List, [], IfOk, IfErr, IfSome, OnOk};
ghost use Rattle.std.specs.Arc.{arc_value};
ghost use Rattle.bounded_files.specs.Files.{KnownFiles};
ghost use Rattle.cells.specs.declared.array.CellArray.{CellArray};
ghost use Rattle.load.specs.Loaded.{IsLoadedFrom};
ghost use Rattle.replay.specs.Loaded.{AreShared, GivesNoRuleset};

use crate::loaded::load_rules;
use crate::replay_fault::ReplayFault;
use attrs::Text;
use bounded_files::ResourceFault;
use cells::Directory;
use load::Disk;
use ruleset::Ruleset;
use std::alloc::{AllocError, Global};
use std::collections::BTreeMap;
use std::sync::Arc;

/// A manifest whose load declares no array, and its ruleset.
#[derive(Drop)]
pub(crate) struct SharedLoad {
    path: Text,
    rules: Arc<Ruleset>,
}

/// The loads that can be shared until an array is declared, and the place of each by its path.
#[derive(Drop)]
pub(crate) struct SharedLoads {
    loads: Vec<SharedLoad>,
    places: BTreeMap<String, usize>,
}

impl SharedLoads {
    /// No loads.
    pub(crate) fn new(alloc: Global) -> SharedLoads
        ensures { result.loads.items ≡ [] }
    {
        SharedLoads {
            loads: Vec::new(alloc),
            places: BTreeMap::new(alloc),
        }
    }

    /// The ruleset of the manifest at a path, whose arrays are declared in the directory.
    pub(crate) fn rules_of<D: Disk>(
        &mut self,
        alloc: Global,
        disk: &D,
        path: &str,
        directory: &mut Directory,
    ) -> Result<Arc<Ruleset>, ReplayFault>
        requires { AreShared (D.known disk.now) directory.old self.old.loads.items }
        ensures rules { IfOk result (λ rules. IsLoadedFrom (D.known disk.now) path.now
            directory.old (arc_value rules) directory.new) }
        ensures fault { IfErr result (GivesNoRuleset (D.known disk.now) path.now directory.old) }
        ensures shared { OnOk result
            (AreShared (D.known disk.now) directory.new self.new.loads.items) }
    {
        if let Some(rules) = self.find(path) {
            return Ok(rules);
        }
        let declared = directory.arrays().len();
        let rules = load_rules(alloc, disk, path, directory)?;
        if declared < directory.arrays().len() {
            self.clear();
            return Ok(rules);
        }
        let Ok(()) = self.add(alloc, path, &rules) else {
            return Err(ReplayFault::Resource(ResourceFault::Memory));
        };
        Ok(rules)
    }

    // Another owner of the ruleset of this path, if its load can be shared.
    fn find(&self, path: &str) -> Option<Arc<Ruleset>>
        ensures { (known : KnownFiles) (directory : List CellArray)
            → AreShared known directory self.now.loads.items → IfSome result
            (λ rules. IsLoadedFrom known path.now directory (arc_value rules) directory) }
    {
        let Some(place) = self.places.get(path).copied() else {
            return None;
        };
        if place >= self.loads.len() {
            return None;
        }
        let load = &self.loads[place];
        if load.path.as_str() != path {
            return None;
        }
        let Ok(rules) = Arc::try_clone(&load.rules) else {
            return None;
        };
        Some(rules)
    }

    // Adds a load of this path, which gave this ruleset.
    fn add(&mut self, alloc: Global, path: &str, rules: &Arc<Ruleset>) -> Result<(), AllocError>
        ensures { (known : KnownFiles) (directory : List CellArray)
            → AreShared known directory self.old.loads.items
            → IsLoadedFrom known path.now directory (arc_value rules.now) directory
            → OnOk result (AreShared known directory self.new.loads.items) }
    {
        let name = String::from_str(alloc, path)?;
        let place = self.loads.len();
        self.places.insert(name, place)?;
        let path = Text::new(String::from_str(alloc, path)?);
        let rules = Arc::try_clone(rules)?;
        self.loads.push(SharedLoad { path, rules })?;
        Ok(())
    }

    // Forgets all loads.
    fn clear(&mut self)
        ensures { self.new.loads.items ≡ [] }
    {
        self.loads.clear();
        self.places.clear();
    }
}
