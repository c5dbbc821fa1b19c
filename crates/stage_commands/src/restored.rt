//! What changes if a step is undone: the manifest in place, compared with the one before the step;
//! and which halts that lifts.

ghost use Rattle.std.specs.Prelude.{◌≡◌, IfOk, IfSome, OnOk, false, map, string_bytes};
ghost use Rattle.stage_commands.specs.Backs.{AreNamedByUndoing, UndoingLiftsNone};
ghost use Rattle.stage_commands.specs.Compared.{AreAllJudged};
ghost use Rattle.stage_rules.specs.Lifting.{HasAppOf};

use crate::comparison::compare;
use crate::gathered::collected_before;
use crate::judged::judged;
use crate::lifting::stop_if_lifted;
use crate::unlisted::lifted_or_unlisted;
use bounded_files::Disk;
use load::{CollectedManifest, JudgedManifest};
use stage_records::{StagingStep, StepAction};
use stage_rules::{app_of_any_halt, push_once};
use stage_servers::{Lines, StageCall, Stop, collected_now};
use std::alloc::{AllocError, Global};
use std::net::{Net, TcpStream};
use std::time::Clock;

/// What is said in place of a comparison.
pub(crate) const NOT_COMPARED: &str =
    "stage: a manifest is refused, so what changes isn't compared\n";

// ---- halts

// The app of an action's halt; none of another action.
#[tactic(auto, using(crate::proofs::Then::own_app, crate::proofs::Then::no_own_app))]
fn own_app(alloc: Global, action: &StepAction) -> Result<Vec<String>, AllocError>
    ensures { IfOk result (λ named. HasAppOf (map string_bytes named.items) action.now) }
{
    let mut named = Vec::new(alloc);
    match app_of_any_halt(action) {
        None => Ok(named),
        Some(appid) => match push_once(alloc, &mut named, appid) {
            Ok(()) => Ok(named),
            Err(_) => Err(AllocError),
        },
    }
}

// The apps of the halts in force that undoing a step lifts, or may lift, since their files weren't
// read. If a manifest can't be gathered, so that this isn't known, the step's own halt is taken to
// be lifted.
fn lifted_by_undoing(
    alloc: Global,
    steps: &[StagingStep],
    step: &StagingStep,
    present: &Option<CollectedManifest>,
    before: &Option<CollectedManifest>,
) -> Result<Vec<String>, AllocError>
    ensures { IfOk result (λ named. AreNamedByUndoing steps.now step.now present.now before.now
        (map string_bytes named.items)) }
{
    match (present, before) {
        (Some(present), Some(before)) => {
            match lifted_or_unlisted(alloc, steps, &present.sources.apps, before) {
                Ok(named) => Ok(named),
                Err(_) => Err(AllocError),
            }
        }
        _ => own_app(alloc, &step.action),
    }
}

// ---- the comparison

/// A manifest, judged, if it can be.
pub(crate) fn judged_if(
    alloc: Global,
    collected: Option<CollectedManifest>,
) -> Option<JudgedManifest>
    ensures { IfSome result AreAllJudged }
{
    let CollectedManifest { bytes, sources } = collected?;
    match judged(alloc, &bytes, sources) {
        Ok(judged) => Some(judged),
        Err(fault) => {
            drop(fault);
            None
        }
    }
}

// Prints what changes from one manifest to another, if both can be judged.
fn compare_if<R, D>(
    call: &StageCall<'_, R, D>,
    present: Option<CollectedManifest>,
    before: Option<CollectedManifest>,
    lines: &mut Lines,
) -> Result<(), Stop>
where
    R: AllocGlobal + Clock + Net<Stream = TcpStream>,
    D: Disk,
{
    let alloc = call.rt.alloc();
    let Some(old) = judged_if(alloc, present) else {
        drop(before);
        lines.stderr.push(NOT_COMPARED);
        return Ok(());
    };
    let Some(new) = judged_if(alloc, before) else {
        drop(old);
        lines.stderr.push(NOT_COMPARED);
        return Ok(());
    };
    compare(call, old, new, lines)
}

/// Prints what changes if one of these steps is undone. A halt that is lifted, a lost row, or an
/// app that isn't compared, is a refusal, unless `--anyway` is given. A manifest that a server
/// would refuse, as after a step that stopped in its middle, isn't compared, and doesn't stop it.
pub(crate) fn compare_restored<R, D>(
    call: &StageCall<'_, R, D>,
    steps: &[StagingStep],
    step: &StagingStep,
    lines: &mut Lines,
) -> Result<(), Stop>
where
    R: AllocGlobal + Clock + Net<Stream = TcpStream>,
    D: Disk,
    ensures { OnOk result (call.now.options.now.anyway ≡ false → UndoingLiftsNone
        (D.known call.now.disk.now) call.now.manifest.now steps.now step.now) }
{
    let (alloc, disk) = (call.rt.alloc(), call.disk);
    let present = match collected_now(alloc, disk, call.manifest) {
        Ok(present) => present,
        Err(stop) => return Err(stop),
    };
    let before = match collected_before(alloc, disk, call.manifest, &step.files) {
        Ok(before) => before,
        Err(stop) => {
            drop(present);
            return Err(stop);
        }
    };
    let Ok(lifted) = lifted_by_undoing(alloc, steps, step, &present, &before) else {
        drop(present);
        drop(before);
        return Err(Stop::Memory);
    };
    match stop_if_lifted(alloc, lifted, call.options.anyway, lines) {
        Ok(()) => {
            compare_if(call, present, before, lines)?;
            Ok(())
        }
        Err(stop) => {
            drop(present);
            drop(before);
            Err(stop)
        }
    }
}
