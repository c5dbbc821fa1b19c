//! Undoing a step, and recording that.

ghost use Rattle.std.specs.Prelude.{◌≡◌, IfErr, IfSome, OnErr, OnOk, None, false, option_map, true};
ghost use Rattle.stage_commands.specs.Backs.{Undoes};
ghost use Rattle.stage_commands.specs.Taken.{IsUnchanged, LeftByUndo, MayChange, as_undone};
ghost use Rattle.stage_folder.specs.Recorded.{IsRecorded, MayBeRecorded};
ghost use Rattle.stage_folder.specs.Steps.{edited_place, undone};

use crate::step_stops::{before_change, maybe_noted, not_kept, not_noted, not_undone};
use crate::steps::name_at;
use crate::stop_texts::EDITED;
use stage_folder::{
    RecordFault, StageFolder, StepFault, UndoFault, edited_file, undo, write_record,
};
use stage_records::StagingStep;
use stage_servers::{Lines, Stop, in_folder, refusal_of};
use stage_text::push_step;
use std::alloc::Global;

// Restores the files of a step. After a stop none of them is edited (`stopped_is_undoable`), so it
// can be called again.
#[tactic(auto, using(crate::proofs::Left::unchanged, crate::proofs::Left::not_restored))]
fn restore_files<F: StageFolder>(
    alloc: Global,
    folder: &mut F,
    step: &StagingStep,
) -> Result<(), Stop>
    ensures unedited { OnOk result (IfSome (F.files folder.old)
        (λ known. edited_place step.now.files known ≡ None)) }
    ensures restored { OnOk result
        (F.files folder.new ≡ option_map (undone step.now.files) (F.files folder.old)) }
    ensures stopped { IfErr result (λ stop. LeftByUndo stop step.now (F.records folder.old)
        (F.records folder.new) (F.files folder.old) (F.files folder.new)) }
    ensures records { F.records folder.new ≡ F.records folder.old }
{
    match undo(folder, &step.files) {
        Ok(()) => Ok(()),
        Err(UndoFault::Edited { file }) => {
            Err(refusal_of(alloc, name_at(&step.files, file), EDITED))
        }
        Err(UndoFault::Stopped(StepFault { file, fault })) => {
            Err(not_undone(alloc, name_at(&step.files, file), fault))
        }
    }
}

// Records that a step is undone. If the record may not survive a crash, it is done all the same.
#[tactic(auto, using(crate::proofs::Left::may_be))]
fn note_undone<F: StageFolder>(
    alloc: Global,
    folder: &mut F,
    step: &mut StagingStep,
    lines: &mut Lines,
) -> Result<(), Stop>
    ensures recorded { OnOk result
        (IsRecorded (as_undone step.old) (F.records folder.old) (F.records folder.new)) }
    ensures says { IfErr result MayChange }
    ensures failed { OnErr result
        (MayBeRecorded (as_undone step.old) (F.records folder.old) (F.records folder.new)) }
    ensures files { F.files folder.new ≡ F.files folder.old }
{
    step.is_undone = true;
    let Err(fault) = write_record(alloc, folder, &*step) else {
        return Ok(());
    };
    match fault {
        RecordFault::NotMade(fault) => Err(not_noted(alloc, fault)),
        RecordFault::Unknown(fault) => Err(maybe_noted(alloc, fault)),
        RecordFault::NotKept(fault) => {
            lines.note_amiss(not_kept(alloc, fault));
            Ok(())
        }
    }
}

// Undoes a step, and records that.
#[tactic(auto, using(crate::proofs::Left::undoes))]
fn undo_step<F: StageFolder>(
    alloc: Global,
    folder: &mut F,
    step: &mut StagingStep,
    lines: &mut Lines,
) -> Result<(), Stop>
    ensures unedited { OnOk result (IfSome (F.files folder.old)
        (λ known. edited_place step.old.files known ≡ None)) }
    ensures done { OnOk result (Undoes step.old (F.records folder.old) (F.records folder.new)
        (F.files folder.old) (F.files folder.new)) }
    ensures stopped { IfErr result (λ stop. LeftByUndo stop step.old (F.records folder.old)
        (F.records folder.new) (F.files folder.old) (F.files folder.new)) }
{
    if let Err(stop) = restore_files(alloc, folder, &*step) {
        return Err(stop);
    }
    match note_undone(alloc, folder, step, lines) {
        Ok(()) => Ok(()),
        Err(stop) => Err(stop),
    }
}

/// Stops at a file that was edited since a step, or can't be read.
pub(crate) fn stop_at_edit<F: StageFolder>(
    alloc: Global,
    folder: &F,
    step: &StagingStep,
) -> Result<(), Stop>
    ensures { OnOk result (IfSome (F.files folder.now)
        (λ known. edited_place step.now.files known ≡ None)) }
{
    match edited_file(folder, &step.files) {
        Ok(None) => Ok(()),
        Ok(Some(file)) => Err(refusal_of(alloc, name_at(&step.files, file), EDITED)),
        Err(StepFault { file, fault }) => Err(in_folder(alloc, name_at(&step.files, file), fault)),
    }
}

// Prints a step that would be undone. A file that was edited since is a refusal.
fn print_undo<F: StageFolder>(
    alloc: Global,
    folder: &F,
    step: &StagingStep,
    lines: &mut Lines,
) -> Result<(), Stop>
    ensures { OnOk result (IfSome (F.files folder.now)
        (λ known. edited_place step.now.files known ≡ None)) }
{
    match stop_at_edit(alloc, folder, step) {
        Ok(()) => {
            push_step(alloc, &mut lines.text, "would undo", step);
            Ok(())
        }
        Err(stop) => Err(stop),
    }
}

/// Undoes a step, and records that. For `--dry-run` it only prints the step, unless that couldn't
/// be undone.
#[tactic(auto, using(crate::proofs::Left::unchanged))]
pub(crate) fn undo_unless_dry<F: StageFolder>(
    alloc: Global,
    folder: &mut F,
    step: &mut StagingStep,
    dry_run: bool,
    lines: &mut Lines,
) -> Result<(), Stop>
    ensures unedited { OnOk result (IfSome (F.files folder.old)
        (λ known. edited_place step.old.files known ≡ None)) }
    ensures done { OnOk result (dry_run ≡ false → Undoes step.old (F.records folder.old)
        (F.records folder.new) (F.files folder.old) (F.files folder.new)) }
    ensures stopped { IfErr result (λ stop. LeftByUndo stop step.old (F.records folder.old)
        (F.records folder.new) (F.files folder.old) (F.files folder.new)) }
    ensures unchanged { dry_run ≡ true → IsUnchanged (F.records folder.old)
        (F.records folder.new) (F.files folder.old) (F.files folder.new) }
{
    if dry_run {
        return match print_undo(alloc, &*folder, &*step, lines) {
            Ok(()) => Ok(()),
            Err(stop) => Err(before_change(stop)),
        };
    }
    if !lines.are_complete() {
        return Err(Stop::Memory);
    }
    match undo_step(alloc, folder, step, lines) {
        Ok(()) => {
            push_step(alloc, &mut lines.text, "undone", &*step);
            Ok(())
        }
        Err(stop) => Err(stop),
    }
}
