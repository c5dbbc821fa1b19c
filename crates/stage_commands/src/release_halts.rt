//! `stage halt` of one release: the statements that offer it are taken out of the app's rule.

ghost use Rattle.std.specs.Prelude.{◌≡◌, IfErr, IfOk, OnOk, false, string_bytes, true};
ghost use Rattle.bounded_files.specs.Files.{KnownFiles};
ghost use Rattle.load.specs.Opened.{IsCollected};
ghost use Rattle.stage_rules.specs.ReleaseHalts.{IsWithout};
ghost use Rattle.stage_commands.specs.Planned.{AreReleaseHaltFiles};
ghost use Rattle.stage_commands.specs.ReleaseHalts.{HasHaltedRelease, PlansReleaseHalt};
ghost use Rattle.stage_commands.specs.ReleaseHalts.{PlansReleaseHaltOf};
ghost use Rattle.stage_commands.specs.Taken.{HasPlan, IsUnchanged, LeftBy};
ghost use Rattle.stage_records.specs.declared.step.StepAction.TheVariants.{HaltRelease};

use crate::app_file::{app_to_change, replacement};
use crate::raises::rule_bytes;
use crate::step_stops::before_change;
use crate::steps::{number_in, owned_text};
use crate::stop_texts::{HALTS_ALL, NO_TEXT, not_left_out};
use crate::taking::take_file;
use bounded_files::Disk;
use load::{AppSources, CollectedManifest};
use stage_folder::StageFolder;
use stage_records::{ReplacedFile, StepAction};
use stage_rules::{halting_file, rule_without};
use stage_servers::{Lines, StageCall, Stop, collected_at, refusal_of};
use std::alloc::{AllocError, Global};
use std::rt::Files;
use std::str;
use std::time::Clock;

// The text of a rule with these bytes, without the statements that offer the version.
fn text_without(
    alloc: Global,
    app: &AppSources,
    bytes: &[u8],
    version: &str,
) -> Result<String, Stop>
    ensures { IfOk result (λ text. IsWithout app.now.shape app.now.entry.releases version.now
        bytes.now (string_bytes text)) }
{
    let name = app.entry.source().file();
    if bytes == halting_file(app.entry.source()) {
        return Err(refusal_of(alloc, name, HALTS_ALL));
    }
    let Ok(text) = str::from_utf8(bytes) else {
        return Err(refusal_of(alloc, name, NO_TEXT));
    };
    match rule_without(alloc, text, &app.shape, app.entry.releases(), version) {
        Ok(without) => Ok(without),
        Err(fault) => Err(not_left_out(alloc, app, version, fault)),
    }
}

// The rule of the app without them, unless it is in place.
#[tactic(auto, using(crate::proofs::Plans::release_of))]
fn file_without<F: StageFolder>(
    alloc: Global,
    folder: &F,
    app: &AppSources,
    version: &str,
) -> Result<Option<ReplacedFile>, Stop>
    ensures { IfOk result (PlansReleaseHaltOf (F.files folder.now) app.now version.now) }
{
    let bytes = rule_bytes(alloc, folder, app)?;
    let text = match text_without(alloc, app, &bytes, version) {
        Ok(text) => text,
        Err(stop) => {
            drop(bytes);
            return Err(stop);
        }
    };
    let name = app.entry.source().file();
    let file = replacement(alloc, name, Some(bytes), text.as_bytes())?;
    Ok(file)
}

// The same, by the manifest in place. Nothing is compared.
fn file_by<R, D, F>(
    call: &StageCall<'_, R, D>,
    folder: &F,
    collected: &CollectedManifest,
    appid: &str,
    version: &str,
    lines: &mut Lines,
) -> Result<Option<ReplacedFile>, Stop>
where
    R: Files + AllocGlobal,
    F: StageFolder,
    ensures { IfOk result (λ file. (known : KnownFiles)
        → IsCollected known call.now.manifest.now collected.now
        → PlansReleaseHalt known call.now.manifest.now appid.now version.now
        call.now.options.now (F.files folder.now) file) }
{
    let app = app_to_change(call, &collected.sources.apps, appid, lines)?;
    let file = file_without(call.rt.alloc(), folder, app, version)?;
    Ok(file)
}

// The same, by the manifest at a path.
fn planned_file<R, D, F>(
    call: &StageCall<'_, R, D>,
    folder: &F,
    appid: &str,
    version: &str,
    lines: &mut Lines,
) -> Result<Option<ReplacedFile>, Stop>
where
    R: Files + AllocGlobal,
    D: Disk,
    F: StageFolder,
    ensures { IfOk result (PlansReleaseHalt (D.known call.now.disk.now) call.now.manifest.now
        appid.now version.now call.now.options.now (F.files folder.now)) }
{
    let collected = match collected_at(call.rt.alloc(), call.disk, call.manifest) {
        Ok(collected) => collected,
        Err(stop) => return Err(stop),
    };
    let file = file_by(call, folder, &collected, appid, version, lines);
    drop(collected);
    Ok(file?)
}

// What the step is recorded to do.
fn action_of(alloc: Global, appid: &str, version: &str) -> Result<StepAction, AllocError>
    ensures { IfOk result (λ action. action ≡ HaltRelease appid.now version.now) }
{
    let appid = owned_text(alloc, appid)?;
    let version = owned_text(alloc, version)?;
    Ok(StepAction::HaltRelease { appid, version })
}

/// Halts one release of an app. No earlier record has to be readable.
#[tactic(auto, using(crate::proofs::Replacing::halted_release, crate::proofs::Left::unchanged))]
pub(crate) fn halt_release<R, D, F>(
    call: &StageCall<'_, R, D>,
    folder: &mut F,
    appid: &str,
    version: &str,
    lines: &mut Lines,
) -> Result<(), Stop>
where
    R: Files + AllocGlobal + Clock,
    D: Disk,
    F: StageFolder,
    ensures planned { OnOk result (HasPlan (AreReleaseHaltFiles (D.known call.now.disk.now)
        call.now.manifest.now call.now.options.now (F.records folder.old) (F.files folder.old)
        appid.now version.now)) }
    ensures done { OnOk result (call.now.options.now.dry_run ≡ false
        → HasHaltedRelease (D.known call.now.disk.now) call.now.manifest.now appid.now version.now
        call.now.options.now (F.records folder.old) (F.records folder.new)
        (F.files folder.old) (F.files folder.new)) }
    ensures stopped { IfErr result (λ stop. LeftBy (AreReleaseHaltFiles (D.known call.now.disk.now)
        call.now.manifest.now call.now.options.now (F.records folder.old) (F.files folder.old)
        appid.now version.now) call.now.options.now (HaltRelease appid.now version.now) stop
        (F.records folder.old) (F.records folder.new) (F.files folder.old) (F.files folder.new)) }
    ensures unchanged { call.now.options.now.dry_run ≡ true → IsUnchanged (F.records folder.old)
        (F.records folder.new) (F.files folder.old) (F.files folder.new) }
{
    let alloc = call.rt.alloc();
    let number = match number_in(alloc, folder) {
        Ok(number) => number,
        Err(stop) => return Err(before_change(stop)),
    };
    let Ok(action) = action_of(alloc, appid, version) else {
        return Err(Stop::Memory);
    };
    match planned_file(call, folder, appid, version, lines) {
        Ok(file) => take_file(call, folder, number, action, file, lines),
        Err(stop) => {
            drop(action);
            Err(before_change(stop))
        }
    }
}
