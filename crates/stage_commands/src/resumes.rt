//! `stage resume`: the app's file gets what it had before its last halt, or that rule with another
//! number in its threshold.

ghost use Rattle.std.specs.Prelude.{◌≡◌, IfErr, IfOk, IfSome, OnOk, false, true};
ghost use Rattle.bounded_files.specs.Files.{KnownFiles};
ghost use Rattle.load.specs.Opened.{IsCollected};
ghost use Rattle.stage_commands.specs.Compared.{IsAcceptedWith};
ghost use Rattle.stage_commands.specs.Planned.{AreResumeFiles};
ghost use Rattle.stage_commands.specs.Resumes.{HasResumed, PlansResume};
ghost use Rattle.stage_commands.specs.Taken.{HasPlan, IsUnchanged, LeftBy};
ghost use Rattle.stage_records.specs.declared.step.StepAction.TheVariants.{Resume};
ghost use Rattle.stage_rules.specs.InForce as in_force;

use crate::app_file::app_to_change;
use crate::resume_rows::{compare_resumed, compared_bytes};
use crate::resumed_file::resumed_file_of;
use crate::step_stops::before_change;
use crate::steps::{number_in, owned_text};
use crate::stop_texts::{NOT_HALTED, release_halted};
use crate::taking::take_file;
use bounded_files::Disk;
use load::{AppSources, CollectedManifest};
use stage_folder::StageFolder;
use stage_records::{ReplacedFile, StagingStep, StepAction};
use stage_rules::is_resumable;
use stage_servers::{
    Lines, StageCall, Stop, app_named, collected_at, halted_release, read_steps, refusal_of,
};
use std::alloc::Global;
use std::net::{Net, TcpStream};
use std::rt::Files;
use std::time::Clock;

// Says that no halt is to be lifted, or that only an earlier one of a release is in force.
fn not_halted(alloc: Global, steps: &[StagingStep], apps: &[AppSources], appid: &str) -> Stop {
    if let Some(app) = app_named(apps, appid)
        && let Some((number, version)) = halted_release(alloc, steps, app)
    {
        return release_halted(alloc, appid, version, number);
    }
    refusal_of(alloc, appid, NOT_HALTED)
}

// Refuses an app of which no recorded halt is in force, and no release is halted last.
fn stop_unless_halted(
    alloc: Global,
    steps: &[StagingStep],
    collected: &CollectedManifest,
    appid: &str,
) -> Result<(), Stop>
    ensures { OnOk result
        (in_force.is_resumable steps.now collected.now.sources.apps.items appid.now ≡ true) }
{
    if is_resumable(steps, &collected.sources.apps, appid) {
        return Ok(());
    }
    Err(not_halted(alloc, steps, &collected.sources.apps, appid))
}

// What resumes an app of the manifest in place, if it can be resumed.
fn file_by<R, D, F>(
    call: &StageCall<'_, R, D>,
    folder: &F,
    collected: &CollectedManifest,
    steps: &[StagingStep],
    appid: &str,
    buckets: Option<u32>,
    lines: &mut Lines,
) -> Result<Option<ReplacedFile>, Stop>
where
    R: Files + AllocGlobal,
    F: StageFolder,
    ensures { IfOk result (λ file. (known : KnownFiles)
        → IsCollected known call.now.manifest.now collected.now
        → PlansResume known call.now.manifest.now appid.now buckets call.now.options.now
        (F.files folder.now) steps.now file) }
{
    let app = app_to_change(call, &collected.sources.apps, appid, lines)?;
    stop_unless_halted(call.rt.alloc(), steps, collected, appid)?;
    let file = resumed_file_of(call.rt.alloc(), folder, steps, app, buckets)?;
    Ok(file)
}

// The file that resumes the app, once it is compared.
fn planned_file<R, D, F>(
    call: &StageCall<'_, R, D>,
    folder: &F,
    steps: &[StagingStep],
    appid: &str,
    buckets: Option<u32>,
    lines: &mut Lines,
) -> Result<Option<ReplacedFile>, Stop>
where
    R: Files + AllocGlobal + Clock + Net<Stream = TcpStream>,
    D: Disk,
    F: StageFolder,
    ensures planned { IfOk result (PlansResume (D.known call.now.disk.now)
        call.now.manifest.now appid.now buckets call.now.options.now (F.files folder.now)
        steps.now) }
    ensures accepted { IfOk result (λ file. IfSome file
        (IsAcceptedWith (D.known call.now.disk.now) call.now.manifest.now)) }
{
    let collected = match collected_at(call.rt.alloc(), call.disk, call.manifest) {
        Ok(collected) => collected,
        Err(stop) => return Err(stop),
    };
    let file = match file_by(call, folder, &collected, steps, appid, buckets, lines) {
        Ok(file) => file,
        Err(stop) => {
            drop(collected);
            return Err(stop);
        }
    };
    let was = compared_bytes(steps, appid, &file, buckets);
    match compare_resumed(call, collected, was, &file, lines) {
        Ok(()) => Ok(file),
        Err(stop) => {
            drop(file);
            Err(stop)
        }
    }
}

/// Gives the app's file what it had before its last halt, if that is in force or of a release; with
/// a number, the rule then has this number in its threshold. The next manifest is judged and
/// compared first.
#[tactic(auto, using(crate::proofs::Replacing::resumed, crate::proofs::Left::unchanged))]
pub(crate) fn resume<R, D, F>(
    call: &StageCall<'_, R, D>,
    folder: &mut F,
    appid: &str,
    buckets: Option<u32>,
    lines: &mut Lines,
) -> Result<(), Stop>
where
    R: Files + AllocGlobal + Clock + Net<Stream = TcpStream>,
    D: Disk,
    F: StageFolder,
    ensures planned { OnOk result (HasPlan (AreResumeFiles (D.known call.now.disk.now)
        call.now.manifest.now call.now.options.now (F.records folder.old) (F.files folder.old)
        appid.now buckets)) }
    ensures done { OnOk result (call.now.options.now.dry_run ≡ false
        → HasResumed (D.known call.now.disk.now) call.now.manifest.now appid.now buckets
        call.now.options.now (F.records folder.old) (F.records folder.new)
        (F.files folder.old) (F.files folder.new)) }
    ensures stopped { IfErr result (λ stop. LeftBy (AreResumeFiles (D.known call.now.disk.now)
        call.now.manifest.now call.now.options.now (F.records folder.old) (F.files folder.old)
        appid.now buckets) call.now.options.now (Resume appid.now buckets) stop
        (F.records folder.old) (F.records folder.new) (F.files folder.old) (F.files folder.new)) }
    ensures unchanged { call.now.options.now.dry_run ≡ true → IsUnchanged (F.records folder.old)
        (F.records folder.new) (F.files folder.old) (F.files folder.new) }
{
    let alloc = call.rt.alloc();
    let recorded = match read_steps(alloc, folder) {
        Ok(recorded) => recorded,
        Err(stop) => return Err(before_change(stop)),
    };
    let number = match number_in(alloc, folder) {
        Ok(number) => number,
        Err(stop) => {
            drop(recorded);
            return Err(before_change(stop));
        }
    };
    let planned = planned_file(call, folder, &recorded.steps, appid, buckets, lines);
    drop(recorded);
    let file = match planned {
        Ok(file) => file,
        Err(stop) => return Err(before_change(stop)),
    };
    match owned_text(alloc, appid) {
        Ok(appid) => {
            let action = StepAction::Resume { appid, buckets };
            take_file(call, folder, number, action, file, lines)
        }
        Err(_) => {
            drop(file);
            Err(Stop::Memory)
        }
    }
}
