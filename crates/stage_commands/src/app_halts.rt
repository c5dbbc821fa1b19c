//! `stage halt`: the app's file is replaced by the one that offers no release.

ghost use Rattle.std.specs.Prelude.{◌≡◌, IfErr, IfOk, OnOk, false, true};
ghost use Rattle.bounded_files.specs.Files.{KnownFiles};
ghost use Rattle.load.specs.Opened.{IsCollected};
ghost use Rattle.stage_commands.specs.Planned.{AreHaltFiles};
ghost use Rattle.stage_commands.specs.Stages.{HasHalted, PlansHalt, PlansHaltOf};
ghost use Rattle.stage_commands.specs.Taken.{HasPlan, IsUnchanged, LeftBy};
ghost use Rattle.stage_records.specs.declared.step.StepAction.TheVariants.{Halt};

use crate::app_file::{app_to_change, replacement};
use crate::step_stops::before_change;
use crate::steps::{number_in, owned_text};
use crate::taking::take_file;
use bounded_files::Disk;
use load::{AppSources, CollectedManifest};
use stage_folder::StageFolder;
use stage_records::{ReplacedFile, StepAction};
use stage_rules::halting_file;
use stage_servers::{Lines, StageCall, Stop, collected_at, in_folder};
use std::alloc::Global;
use std::rt::Files;
use std::time::Clock;

// The file that halts the app, unless it is in place.
#[tactic(auto, using(crate::proofs::Plans::halt_of))]
fn halting_file_of<F: StageFolder>(
    alloc: Global,
    folder: &F,
    app: &AppSources,
) -> Result<Option<ReplacedFile>, Stop>
    ensures { IfOk result (PlansHaltOf (F.files folder.now) app.now) }
{
    let source = app.entry.source();
    let name = source.file();
    let before = match folder.read(name) {
        Ok(before) => before,
        Err(fault) => return Err(in_folder(alloc, name, fault)),
    };
    let file = replacement(alloc, name, before, halting_file(source))?;
    Ok(file)
}

// The same, by the manifest in place. No other app is judged, and nothing is compared.
fn file_by<R, D, F>(
    call: &StageCall<'_, R, D>,
    folder: &F,
    collected: &CollectedManifest,
    appid: &str,
    lines: &mut Lines,
) -> Result<Option<ReplacedFile>, Stop>
where
    R: Files + AllocGlobal,
    F: StageFolder,
    ensures { IfOk result (λ file. (known : KnownFiles)
        → IsCollected known call.now.manifest.now collected.now
        → PlansHalt known call.now.manifest.now appid.now call.now.options.now
        (F.files folder.now) file) }
{
    let app = app_to_change(call, &collected.sources.apps, appid, lines)?;
    let file = halting_file_of(call.rt.alloc(), folder, app)?;
    Ok(file)
}

// The same, by the manifest at a path.
fn planned_file<R, D, F>(
    call: &StageCall<'_, R, D>,
    folder: &F,
    appid: &str,
    lines: &mut Lines,
) -> Result<Option<ReplacedFile>, Stop>
where
    R: Files + AllocGlobal,
    D: Disk,
    F: StageFolder,
    ensures { IfOk result (PlansHalt (D.known call.now.disk.now) call.now.manifest.now appid.now
        call.now.options.now (F.files folder.now)) }
{
    let collected = match collected_at(call.rt.alloc(), call.disk, call.manifest) {
        Ok(collected) => collected,
        Err(stop) => return Err(stop),
    };
    let file = file_by(call, folder, &collected, appid, lines);
    drop(collected);
    Ok(file?)
}

/// Halts an app. No earlier record has to be readable.
#[tactic(auto, using(crate::proofs::Replacing::halted, crate::proofs::Left::unchanged))]
pub(crate) fn halt<R, D, F>(
    call: &StageCall<'_, R, D>,
    folder: &mut F,
    appid: &str,
    lines: &mut Lines,
) -> Result<(), Stop>
where
    R: Files + AllocGlobal + Clock,
    D: Disk,
    F: StageFolder,
    ensures planned { OnOk result (HasPlan (AreHaltFiles (D.known call.now.disk.now)
        call.now.manifest.now call.now.options.now (F.records folder.old) (F.files folder.old)
        appid.now)) }
    ensures done { OnOk result (call.now.options.now.dry_run ≡ false
        → HasHalted (D.known call.now.disk.now) call.now.manifest.now appid.now
        call.now.options.now (F.records folder.old) (F.records folder.new)
        (F.files folder.old) (F.files folder.new)) }
    ensures stopped { IfErr result (λ stop. LeftBy (AreHaltFiles (D.known call.now.disk.now)
        call.now.manifest.now call.now.options.now (F.records folder.old) (F.files folder.old)
        appid.now) call.now.options.now (Halt appid.now) stop (F.records folder.old)
        (F.records folder.new) (F.files folder.old) (F.files folder.new)) }
    ensures unchanged { call.now.options.now.dry_run ≡ true → IsUnchanged (F.records folder.old)
        (F.records folder.new) (F.files folder.old) (F.files folder.new) }
{
    let alloc = call.rt.alloc();
    let number = match number_in(alloc, folder) {
        Ok(number) => number,
        Err(stop) => return Err(before_change(stop)),
    };
    let Ok(owned) = owned_text(alloc, appid) else {
        return Err(Stop::Memory);
    };
    match planned_file(call, folder, appid, lines) {
        Ok(file) => {
            let action = StepAction::Halt { appid: owned };
            take_file(call, folder, number, action, file, lines)
        }
        Err(stop) => {
            drop(owned);
            Err(before_change(stop))
        }
    }
}
