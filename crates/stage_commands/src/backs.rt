//! `stage back`: the last step that isn't undone is undone.

ghost use Rattle.std.specs.Prelude.{◌≡◌, IfErr, IfSome, OnOk, false, true};
ghost use Rattle.stage_commands.specs.Backs.{HasGoneBack, IsRestorable, PlansBack};
ghost use Rattle.stage_commands.specs.Backs.{LeftByBack, UndoingLiftsNone};
ghost use Rattle.stage_commands.specs.Taken.{IsUnchanged};
ghost use Rattle.stage_records.specs.Steps.{last_step};

use crate::restored::compare_restored;
use crate::step_stops::before_change;
use crate::stop_texts::NOTHING_TO_UNDO;
use crate::undoing::{stop_at_edit, undo_unless_dry};
use bounded_files::Disk;
use stage_folder::StageFolder;
use stage_records::{StagingStep, last_step};
use stage_servers::{Lines, StageCall, Stop, read_steps, refused};
use std::net::{Net, TcpStream};
use std::time::Clock;

// The last step that isn't undone, owned.
fn take_last(steps: Vec<StagingStep>) -> Option<StagingStep>
    ensures { result ≡ last_step steps.items }
{
    let mut left = steps;
    while let Some(step) = left.pop() {
        if !step.is_undone {
            return Some(step);
        }
    }
    None
}

// Prints what changes if the last of these steps is undone, unless a file of it was edited since.
fn compare_last<R, D, F>(
    call: &StageCall<'_, R, D>,
    folder: &F,
    steps: &[StagingStep],
    lines: &mut Lines,
) -> Result<(), Stop>
where
    R: AllocGlobal + Clock + Net<Stream = TcpStream>,
    D: Disk,
    F: StageFolder,
    ensures lifts_none { OnOk result (call.now.options.now.anyway ≡ false
        → IfSome (last_step steps.now) (UndoingLiftsNone (D.known call.now.disk.now)
        call.now.manifest.now steps.now)) }
    ensures unedited { OnOk result
        (IfSome (last_step steps.now) (IsRestorable (F.files folder.now))) }
{
    match last_step(steps) {
        Some(step) => match stop_at_edit(call.rt.alloc(), folder, step) {
            Ok(()) => compare_restored(call, steps, step, lines),
            Err(stop) => Err(stop),
        },
        None => Err(refused(call.rt.alloc(), NOTHING_TO_UNDO)),
    }
}

/// Compares what changes, and then undoes the last step that isn't undone, even one that stopped in
/// its middle.
#[tactic(auto, using(crate::proofs::Left::unchanged))]
pub(crate) fn go_back<R, D, F>(
    call: &StageCall<'_, R, D>,
    folder: &mut F,
    lines: &mut Lines,
) -> Result<(), Stop>
where
    R: AllocGlobal + Clock + Net<Stream = TcpStream>,
    D: Disk,
    F: StageFolder,
    ensures planned { OnOk result (PlansBack (D.known call.now.disk.now) call.now.manifest.now
        call.now.options.now.anyway (F.records folder.old) (F.files folder.old)) }
    ensures done { OnOk result (call.now.options.now.dry_run ≡ false → HasGoneBack
        (D.known call.now.disk.now) call.now.manifest.now call.now.options.now.anyway
        (F.records folder.old) (F.records folder.new) (F.files folder.old)
        (F.files folder.new)) }
    ensures stopped { IfErr result (λ stop. LeftByBack (D.known call.now.disk.now)
        call.now.manifest.now call.now.options.now.anyway stop (F.records folder.old)
        (F.records folder.new) (F.files folder.old) (F.files folder.new)) }
    ensures unchanged { call.now.options.now.dry_run ≡ true → IsUnchanged (F.records folder.old)
        (F.records folder.new) (F.files folder.old) (F.files folder.new) }
{
    let alloc = call.rt.alloc();
    let recorded = match read_steps(alloc, folder) {
        Ok(recorded) => recorded,
        Err(stop) => return Err(before_change(stop)),
    };
    if let Err(stop) = compare_last(call, &*folder, &recorded.steps, lines) {
        return Err(before_change(stop));
    }
    let Some(step) = take_last(recorded.steps) else {
        return Err(refused(alloc, NOTHING_TO_UNDO));
    };
    let mut step = step;
    let gone_back = undo_unless_dry(alloc, folder, &mut step, call.options.dry_run, lines);
    drop(step);
    match gone_back {
        Ok(()) => Ok(()),
        Err(stop) => Err(stop),
    }
}
