//! `stage raise`: the number of the one threshold in the app's rule is changed.

ghost use Rattle.std.specs.Prelude.{◌≡◌, IfErr, IfOk, IfSome, OnOk, Some, false};
ghost use Rattle.std.specs.Prelude.{string_bytes, true};
ghost use Rattle.bounded_files.specs.Files.{KnownFiles};
ghost use Rattle.load.specs.Opened.{IsCollected};
ghost use Rattle.manifest.specs.App.{file_of};
ghost use Rattle.stage_rules.specs.Raises.{IsRaised};
ghost use Rattle.stage_commands.specs.Compared.{IsAcceptedWith};
ghost use Rattle.stage_commands.specs.Planned.{AreRaiseFiles};
ghost use Rattle.stage_commands.specs.Stages.{HasRaised, PlansRaise, PlansRaiseOf};
ghost use Rattle.stage_commands.specs.Taken.{HasPlan, IsUnchanged, LeftBy};
ghost use Rattle.stage_records.specs.declared.step.StepAction.TheVariants.{Raise};
ghost use Rattle.stage_folder.specs.Folders.{GivesFile};

use crate::app_file::{app_to_change, replacement};
use crate::next_rows::compare_with;
use crate::step_stops::before_change;
use crate::steps::{number_in, owned_text};
use crate::stop_texts::{HAS_PROGRAM, IS_HALTED, NO_TEXT, not_raised};
use crate::taking::take_file;
use bounded_files::Disk;
use load::{AppSources, CollectedManifest};
use manifest::ProgramSource;
use stage_folder::StageFolder;
use stage_records::{ReplacedFile, StepAction};
use stage_rules::{halting_file, raised_rule};
use stage_servers::{Lines, StageCall, Stop, collected_at, in_folder, read_steps, refusal_of};
use std::alloc::Global;
use std::net::{Net, TcpStream};
use std::rt::Files;
use std::str;
use std::time::Clock;

/// The raised text of a rule with these bytes.
pub(crate) fn raised_text(
    alloc: Global,
    app: &AppSources,
    bytes: &[u8],
    buckets: u32,
) -> Result<String, Stop>
    ensures { IfOk result (λ text.
        IsRaised app.now.shape bytes.now (string_bytes text) buckets) }
{
    let name = app.entry.source().file();
    if bytes == halting_file(app.entry.source()) {
        return Err(refusal_of(alloc, name, IS_HALTED));
    }
    let Ok(text) = str::from_utf8(bytes) else {
        return Err(refusal_of(alloc, name, NO_TEXT));
    };
    match raised_rule(alloc, text, &app.shape, buckets) {
        Ok(raised) => Ok(raised),
        Err(fault) => Err(not_raised(alloc, name, fault)),
    }
}

/// The bytes of the app's rule in the folder.
pub(crate) fn rule_bytes<F: StageFolder>(
    alloc: Global,
    folder: &F,
    app: &AppSources,
) -> Result<Vec<u8>, Stop>
    ensures { IfOk result (λ bytes.
        GivesFile (F.files folder.now) (file_of app.now.entry.source) (Some bytes.items)) }
{
    let name = app.entry.source().file();
    if let ProgramSource::Program(_) = app.entry.source() {
        return Err(refusal_of(alloc, name, HAS_PROGRAM));
    }
    match folder.read(name) {
        Ok(Some(bytes)) => Ok(bytes),
        Ok(None) => Err(refusal_of(alloc, name, NO_TEXT)),
        Err(fault) => Err(in_folder(alloc, name, fault)),
    }
}

// The raised rule of the app, unless it is in place.
#[tactic(auto, using(crate::proofs::Plans::raise_of))]
fn raised_file_of<F: StageFolder>(
    alloc: Global,
    folder: &F,
    app: &AppSources,
    buckets: u32,
) -> Result<Option<ReplacedFile>, Stop>
    ensures { IfOk result (PlansRaiseOf (F.files folder.now) app.now buckets) }
{
    let bytes = rule_bytes(alloc, folder, app)?;
    let text = match raised_text(alloc, app, &bytes, buckets) {
        Ok(text) => text,
        Err(stop) => {
            drop(bytes);
            return Err(stop);
        }
    };
    let name = app.entry.source().file();
    let file = replacement(alloc, name, Some(bytes), text.as_bytes())?;
    Ok(file)
}

// The raised rule of an app of the manifest in place.
fn file_by<R, D, F>(
    call: &StageCall<'_, R, D>,
    folder: &F,
    collected: &CollectedManifest,
    appid: &str,
    buckets: u32,
    lines: &mut Lines,
) -> Result<Option<ReplacedFile>, Stop>
where
    R: Files + AllocGlobal,
    F: StageFolder,
    ensures { IfOk result (λ file. (known : KnownFiles)
        → IsCollected known call.now.manifest.now collected.now
        → PlansRaise known call.now.manifest.now appid.now buckets call.now.options.now
        (F.files folder.now) file) }
{
    let app = app_to_change(call, &collected.sources.apps, appid, lines)?;
    let file = raised_file_of(call.rt.alloc(), folder, app, buckets)?;
    Ok(file)
}

// The same, once it is compared.
fn planned_file<R, D, F>(
    call: &StageCall<'_, R, D>,
    folder: &F,
    appid: &str,
    buckets: u32,
    lines: &mut Lines,
) -> Result<Option<ReplacedFile>, Stop>
where
    R: Files + AllocGlobal + Clock + Net<Stream = TcpStream>,
    D: Disk,
    F: StageFolder,
    ensures planned { IfOk result (PlansRaise (D.known call.now.disk.now)
        call.now.manifest.now appid.now buckets call.now.options.now (F.files folder.now)) }
    ensures accepted { IfOk result (λ file. IfSome file
        (IsAcceptedWith (D.known call.now.disk.now) call.now.manifest.now)) }
{
    let collected = match collected_at(call.rt.alloc(), call.disk, call.manifest) {
        Ok(collected) => collected,
        Err(stop) => return Err(stop),
    };
    let file = match file_by(call, folder, &collected, appid, buckets, lines) {
        Ok(file) => file,
        Err(stop) => {
            drop(collected);
            return Err(stop);
        }
    };
    match compare_with(call, collected, &file, lines) {
        Ok(()) => Ok(file),
        Err(stop) => {
            drop(file);
            Err(stop)
        }
    }
}

/// Raises the rule of an app, once the next manifest is judged and compared with the present one.
#[tactic(auto, using(crate::proofs::Left::unchanged))]
pub(crate) fn raise<R, D, F>(
    call: &StageCall<'_, R, D>,
    folder: &mut F,
    appid: &str,
    buckets: u32,
    lines: &mut Lines,
) -> Result<(), Stop>
where
    R: Files + AllocGlobal + Clock + Net<Stream = TcpStream>,
    D: Disk,
    F: StageFolder,
    ensures planned { OnOk result (HasPlan (AreRaiseFiles (D.known call.now.disk.now)
        call.now.manifest.now call.now.options.now (F.records folder.old) (F.files folder.old)
        appid.now buckets)) }
    ensures done { OnOk result (call.now.options.now.dry_run ≡ false
        → HasRaised (D.known call.now.disk.now) call.now.manifest.now appid.now buckets
        call.now.options.now (F.records folder.old) (F.records folder.new)
        (F.files folder.old) (F.files folder.new)) }
    ensures stopped { IfErr result (λ stop. LeftBy (AreRaiseFiles (D.known call.now.disk.now)
        call.now.manifest.now call.now.options.now (F.records folder.old) (F.files folder.old)
        appid.now buckets) call.now.options.now (Raise appid.now buckets) stop
        (F.records folder.old) (F.records folder.new) (F.files folder.old) (F.files folder.new)) }
    ensures unchanged { call.now.options.now.dry_run ≡ true → IsUnchanged (F.records folder.old)
        (F.records folder.new) (F.files folder.old) (F.files folder.new) }
{
    let alloc = call.rt.alloc();
    let recorded = match read_steps(alloc, folder) {
        Ok(recorded) => recorded,
        Err(stop) => return Err(before_change(stop)),
    };
    drop(recorded);
    let number = match number_in(alloc, folder) {
        Ok(number) => number,
        Err(stop) => return Err(before_change(stop)),
    };
    let Ok(owned) = owned_text(alloc, appid) else {
        return Err(Stop::Memory);
    };
    match planned_file(call, folder, appid, buckets, lines) {
        Ok(file) => {
            let action = StepAction::Raise {
                appid: owned,
                buckets,
            };
            take_file(call, folder, number, action, file, lines)
        }
        Err(stop) => {
            drop(owned);
            Err(before_change(stop))
        }
    }
}
