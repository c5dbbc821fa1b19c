//! The manifest in place, before another one is put there.

ghost use Rattle.std.specs.Prelude.{◌≡◌, IfOk, None, map, option_map, string_bytes, true};
ghost use Rattle.stage_commands.specs.PutPlans.{AreLiftedBy, IsPresent};
ghost use Rattle.stage_folder.specs.Folders.{GivesFile};

use bounded_files::Disk;
use load::{AppSources, CollectedManifest};
use stage_folder::StageFolder;
use stage_records::StagingStep;
use stage_rules::lifted_apps;
use stage_servers::{StageCall, Stop, collected_at};
use std::alloc::{AllocError, Global};

/// The name of the manifest in place.
pub(crate) const CURRENT: &str = "current.toml";

/// The manifest in place.
#[derive(Drop)]
pub(crate) enum Present {
    /// There is none.
    Nothing,
    Manifest(CollectedManifest),
    /// It can't be gathered.
    Refused(Stop),
}

fn is_missing<F: StageFolder>(folder: &F, name: &str) -> bool
    ensures { result ≡ true → GivesFile (F.files folder.now) name.now None }
{
    match folder.read(name) {
        Ok(found) => is_nothing(found),
        Err(_) => false,
    }
}

fn is_nothing(found: Option<Vec<u8>>) -> bool
    ensures { result ≡ true → option_map (λ bytes. bytes.items) found ≡ None }
{
    match found {
        Some(_) => false,
        None => true,
    }
}

/// The manifest in place, if it is there.
pub(crate) fn present_manifest<R, D, F>(call: &StageCall<'_, R, D>, folder: &F) -> Present
where
    R: AllocGlobal,
    D: Disk,
    F: StageFolder,
    ensures { IsPresent (D.known call.now.disk.now) call.now.manifest.now (F.files folder.now)
        result }
{
    if is_missing(folder, CURRENT) {
        return Present::Nothing;
    }
    match collected_at(call.rt.alloc(), call.disk, call.manifest) {
        Ok(collected) => Present::Manifest(collected),
        Err(stop) => Present::Refused(stop),
    }
}

/// The apps of the halts in force that the next manifest may lift; none if the one in place is
/// refused.
pub(crate) fn lifted_by(
    alloc: Global,
    steps: &[StagingStep],
    present: &Present,
    next: &[AppSources],
) -> Result<Vec<String>, AllocError>
    ensures { IfOk result (λ named.
        AreLiftedBy steps.now present.now next.now (map string_bytes named.items)) }
{
    match present {
        Present::Nothing => lifted_apps(alloc, steps, &[], next),
        Present::Manifest(present) => lifted_apps(alloc, steps, &present.sources.apps, next),
        Present::Refused(_) => Ok(Vec::new(alloc)),
    }
}
