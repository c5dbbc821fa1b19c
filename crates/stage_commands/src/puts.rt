//! `stage put`: a manifest from elsewhere, and the files that it names, replace those in place.

ghost use Rattle.std.specs.Prelude.{◌≡◌, IfErr, IfOk, OnOk, false, true};
ghost use Rattle.stage_commands.specs.Planned.{ArePutFiles};
ghost use Rattle.stage_commands.specs.Compared.{AreAllJudged};
ghost use Rattle.stage_commands.specs.PutPlans.{IsPutPlan, IsUnrefused};
ghost use Rattle.stage_commands.specs.Puts.{HasPut, PlansPut};
ghost use Rattle.stage_commands.specs.Taken.{HasPlan, IsUnchanged, LeftBy};
ghost use Rattle.stage_records.specs.declared.step.StepAction.TheVariants.{Put};

use crate::comparison::compare;
use crate::judged::judged_at;
use crate::lifting::stop_if_lifted;
use crate::present::{Present, lifted_by, present_manifest};
use crate::put_files::files_to_put;
use crate::step_stops::before_change;
use crate::steps::{number_in, owned_text};
use crate::taking::take_step;
use crate::warned::push_warnings_of;
use bounded_files::Disk;
use load::{CollectedManifest, JudgedManifest};
use stage_folder::{StageFolder, steps_leave};
use stage_records::{ReplacedFile, StagingStep, StepAction};
use stage_servers::{Lines, StageCall, Stop, collected_at, read_steps};
use std::net::{Net, TcpStream};
use std::time::Clock;

/// What is said in place of a comparison.
const NOTHING_IN_PLACE: &str = "no manifest is in place yet, so nothing is compared\n";

// Compares the next manifest with the one in place, which is judged first.
fn compare_judged<R, D>(
    call: &StageCall<'_, R, D>,
    present: CollectedManifest,
    next: JudgedManifest,
    lines: &mut Lines,
) -> Result<(), Stop>
where
    R: AllocGlobal + Clock + Net<Stream = TcpStream>,
    D: Disk,
    requires { AreAllJudged next }
{
    let CollectedManifest { bytes, sources } = present;
    match judged_at(call.rt.alloc(), call.manifest, &bytes, sources) {
        Ok(present) => compare(call, present, next, lines),
        Err(stop) => {
            drop(next);
            lines.go_on_if(call.options.anyway, stop)
        }
    }
}

// Compares the next manifest with the one in place, if there is one. A manifest in place that can't
// be gathered or judged, and a lost row, are refusals, unless `--anyway` is given.
fn compare_next<R, D>(
    call: &StageCall<'_, R, D>,
    present: Present,
    next: JudgedManifest,
    lines: &mut Lines,
) -> Result<(), Stop>
where
    R: AllocGlobal + Clock + Net<Stream = TcpStream>,
    D: Disk,
    requires { AreAllJudged next }
    ensures { OnOk result (call.now.options.now.anyway ≡ false → IsUnrefused present) }
{
    match present {
        Present::Nothing => {
            drop(next);
            lines.text.push(NOTHING_IN_PLACE);
            Ok(())
        }
        Present::Manifest(present) => {
            compare_judged(call, present, next, lines)?;
            Ok(())
        }
        Present::Refused(stop) => {
            drop(next);
            lines.go_on_if(call.options.anyway, stop)?;
            Ok(())
        }
    }
}

// What is put in place, once it is judged, and compared with what is there.
fn planned_files<R, D, F>(
    call: &StageCall<'_, R, D>,
    folder: &F,
    manifest: &str,
    steps: &[StagingStep],
    lines: &mut Lines,
) -> Result<Vec<ReplacedFile>, Stop>
where
    R: AllocGlobal + Clock + Net<Stream = TcpStream>,
    D: Disk,
    F: StageFolder,
    ensures { IfOk result (λ files. PlansPut (D.known call.now.disk.now) call.now.manifest.now
        manifest.now (F.files folder.now) steps.now call.now.options.now.anyway files.items) }
{
    let alloc = call.rt.alloc();
    let next = collected_at(alloc, call.disk, manifest)?;
    let files = files_to_put(alloc, folder, &next.bytes, &next.sources.apps);
    let present = present_manifest(call, folder);
    let lifted = lifted_by(alloc, steps, &present, &next.sources.apps);
    let CollectedManifest { bytes, sources } = next;
    let next = judged_at(alloc, manifest, &bytes, sources)?;
    let files = files?;
    let lifted = lifted?;
    stop_if_lifted(alloc, lifted, call.options.anyway, lines)?;
    push_warnings_of(alloc, &next.apps, &files, lines);
    compare_next(call, present, next, lines)?;
    Ok(files)
}

// A step that is to be taken.
struct PutPlan {
    number: u32,
    action: StepAction,
    files: Vec<ReplacedFile>,
}

// The step that puts the manifest at a path in place.
fn plan_of<R, D, F>(
    call: &StageCall<'_, R, D>,
    folder: &F,
    manifest: &str,
    lines: &mut Lines,
) -> Result<PutPlan, Stop>
where
    R: AllocGlobal + Clock + Net<Stream = TcpStream>,
    D: Disk,
    F: StageFolder,
    ensures { IfOk result (IsPutPlan (D.known call.now.disk.now) call.now.manifest.now
        manifest.now call.now.options.now.anyway (F.records folder.now) (F.files folder.now)) }
{
    let alloc = call.rt.alloc();
    let owned = owned_text(alloc, manifest)?;
    let recorded = read_steps(alloc, folder)?;
    let number = number_in(alloc, folder)?;
    let files = planned_files(call, folder, manifest, &recorded.steps, lines)?;
    drop(recorded);
    Ok(PutPlan {
        number,
        action: StepAction::Put { manifest: owned },
        files,
    })
}

/// Puts the manifest at a path, and the files that it names, in place.
#[tactic(auto, using(crate::proofs::Left::unchanged))]
pub(crate) fn put<R, D, F>(
    call: &StageCall<'_, R, D>,
    folder: &mut F,
    manifest: &str,
    lines: &mut Lines,
) -> Result<(), Stop>
where
    R: AllocGlobal + Clock + Net<Stream = TcpStream>,
    D: Disk,
    F: StageFolder,
    ensures planned { OnOk result (HasPlan (ArePutFiles (D.known call.now.disk.now)
        call.now.manifest.now call.now.options.now (F.records folder.old) (F.files folder.old)
        manifest.now)) }
    ensures done { OnOk result (call.now.options.now.dry_run ≡ false
        → HasPut (D.known call.now.disk.now) call.now.manifest.now manifest.now
        call.now.options.now (F.records folder.old) (F.records folder.new)
        (F.files folder.old) (F.files folder.new)) }
    ensures stopped { IfErr result (λ stop. LeftBy (ArePutFiles (D.known call.now.disk.now)
        call.now.manifest.now call.now.options.now (F.records folder.old) (F.files folder.old)
        manifest.now) call.now.options.now (Put manifest.now) stop (F.records folder.old)
        (F.records folder.new) (F.files folder.old) (F.files folder.new)) }
    ensures unchanged { call.now.options.now.dry_run ≡ true → IsUnchanged (F.records folder.old)
        (F.records folder.new) (F.files folder.old) (F.files folder.new) }
{
    steps_leave();
    match plan_of(call, &*folder, manifest, lines) {
        Ok(
            PutPlan {
                number,
                action,
                files,
            },
        ) => match take_step(call, folder, number, action, files, lines) {
            Ok(()) => Ok(()),
            Err(stop) => Err(stop),
        },
        Err(stop) => Err(before_change(stop)),
    }
}
