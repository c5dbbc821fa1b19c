//! The loader of manifests by their paths, which a server's operator sends.

ghost use Rattle.std.specs.Prelude.{◌≡◌};

use cells::Directory;
use load::{Disk, LoadRefusal, load_with_digest};
use operator::Loader;
use ruleset::LoadedRuleset;
use std::alloc::Global;

/// Loads manifests by their paths. The files that a manifest names are in its folder.
#[derive(Drop)]
pub struct Manifests<'a, D> {
    disk: &'a D,
}

impl<'a, D> Manifests<'a, D> {
    /// A loader of the manifests on this disk.
    // open: the bytes of a device's files.
    pub fn of(disk: &'a D) -> Manifests<'a, D>
        ensures { result.disk.now ≡ disk.now }
    {
        Manifests { disk }
    }
}

impl<'a, D: Disk> Loader for Manifests<'a, D> {
    ghost use Rattle.std.specs.Prelude.{◌≡◌, option_map, string_bytes};
    ghost use Rattle.load.specs.Cause.{LoadsWithCause};

    type Fault = LoadRefusal;

    ghost has_cause = { λ refusal told. told ≡ option_map string_bytes refusal.cause };

    ghost loads = { λ manifests. LoadsWithCause (D.known manifests.disk.now) };

    fn load(
        &self,
        alloc: Global,
        path: &str,
        directory: &Directory,
    ) -> Result<LoadedRuleset, LoadRefusal> {
        load_with_digest(alloc, self.disk, path, directory)
    }

    fn cause<'x>(&self, fault: &'x LoadRefusal) -> Option<&'x str> {
        match &fault.cause {
            Some(cause) => Some(cause.as_str()),
            None => None,
        }
    }
}
