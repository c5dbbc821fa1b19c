//! Recording a step, and performing it.

ghost use Rattle.std.specs.Prelude.{◌≡◌, ◌≢◌, [], All, IfErr, IfOk, IfSome, OnErr, OnOk, false};
ghost use Rattle.std.specs.Prelude.{option_copied, option_map, option_to_list, true};
ghost use Rattle.stage_commands.specs.Taken.{IsNewNumber, IsUnchanged, LeftByFiles, LeftByTake};
ghost use Rattle.stage_commands.specs.Taken.{MayChange, Performs, RecordLeftBy, Takes};
ghost use Rattle.stage_folder.specs.Recorded.{IsRecorded};
ghost use Rattle.stage_folder.specs.Steps.{IsFoundBy, IsPartlyDone, done};
ghost use Rattle.stage_folder.specs.Steps.{has_distinct_names, is_change};

use crate::app_file::files_of;
use crate::step_stops::{not_recorded, stopped_at};
use crate::steps::{name_at, owned_some};
use printing::TextBuffer;
use stage_folder::{StageFolder, StepFault, perform, write_record};
use stage_records::{ReplacedFile, StagingStep, StepAction};
use stage_servers::{Lines, StageCall, Stop};
use stage_text::now_of;
use std::alloc::{AllocError, Global};
use std::time::Clock;

// A line for each file that is replaced, or would be.
fn push_files(text: &mut TextBuffer, verb: &str, files: &[ReplacedFile]) {
    for file in files {
        text.push(verb);
        text.push_printed(" ", file.name.as_str(), "\n");
    }
}

// Records a step that is about to be performed.
#[tactic(auto, using(crate::proofs::Left::record_left))]
fn record_step<F: StageFolder>(
    alloc: Global,
    folder: &mut F,
    step: &StagingStep,
) -> Result<(), Stop>
    ensures recorded { OnOk result
        (IsRecorded step.now (F.records folder.old) (F.records folder.new)) }
    ensures distinct { OnOk result (has_distinct_names step.now.files ≡ true) }
    ensures failed { IfErr result (λ stop.
        RecordLeftBy stop step.now (F.records folder.old) (F.records folder.new)) }
    ensures files { F.files folder.new ≡ F.files folder.old }
{
    match write_record(alloc, folder, step) {
        Ok(()) => Ok(()),
        Err(fault) => Err(not_recorded(alloc, step.number, fault)),
    }
}

// Replaces the files of a recorded step.
fn replace_files<F: StageFolder>(
    alloc: Global,
    folder: &mut F,
    step: &StagingStep,
) -> Result<(), Stop>
    ensures done { OnOk result
        (F.files folder.new ≡ option_map (done step.now.files) (F.files folder.old)) }
    ensures says { IfErr result MayChange }
    ensures stopped { OnErr result
        (IsPartlyDone step.now.files (F.files folder.old) (F.files folder.new)) }
    ensures records { F.records folder.new ≡ F.records folder.old }
{
    match perform(folder, &step.files) {
        Ok(()) => Ok(()),
        Err(StepFault { file, fault }) => {
            Err(stopped_at(alloc, name_at(&step.files, file), fault))
        }
    }
}

fn are_none(files: &[ReplacedFile]) -> bool
    ensures none { result ≡ true → files.now ≡ [] }
    ensures some { result ≡ false → files.now ≢ [] }
{
    files.is_empty()
}

// Records a step, unless it replaces no file, and performs it.
#[tactic(auto, using(crate::proofs::Left::performs_none))]
fn perform_step<F: StageFolder>(
    alloc: Global,
    folder: &mut F,
    step: &StagingStep,
) -> Result<(), Stop>
    ensures done { OnOk result (Performs step.now (F.records folder.old) (F.records folder.new)
        (F.files folder.old) (F.files folder.new)) }
    ensures stopped { IfErr result (λ stop. LeftByTake stop step.now (F.records folder.old)
        (F.records folder.new) (F.files folder.old) (F.files folder.new)) }
{
    if are_none(&step.files) {
        return Ok(());
    }
    match record_step(alloc, folder, step) {
        Ok(()) => match replace_files(alloc, folder, step) {
            Ok(()) => Ok(()),
            Err(stop) => Err(stop),
        },
        Err(stop) => Err(stop),
    }
}

// The same, and says which files are replaced; for `--dry-run` it only says so.
#[tactic(auto, using(crate::proofs::Left::unchanged))]
fn take<F: StageFolder>(
    alloc: Global,
    folder: &mut F,
    step: &StagingStep,
    dry_run: bool,
    lines: &mut Lines,
) -> Result<(), Stop>
    ensures done { OnOk result (dry_run ≡ false → Performs step.now (F.records folder.old)
        (F.records folder.new) (F.files folder.old) (F.files folder.new)) }
    ensures stopped { IfErr result (λ stop. LeftByTake stop step.now (F.records folder.old)
        (F.records folder.new) (F.files folder.old) (F.files folder.new)) }
    ensures unchanged { dry_run ≡ true → IsUnchanged (F.records folder.old)
        (F.records folder.new) (F.files folder.old) (F.files folder.new) }
{
    if step.files.is_empty() {
        lines.text.push("the files are so already\n");
    }
    if dry_run {
        push_files(&mut lines.text, "would replace", &step.files);
        return Ok(());
    }
    if !lines.are_complete() {
        return Err(Stop::Memory);
    }
    match perform_step(alloc, folder, step) {
        Ok(()) => {
            push_files(&mut lines.text, "replaced", &step.files);
            Ok(())
        }
        Err(stop) => Err(stop),
    }
}

// A step that is taken now, by the user of the options, for the reason that they give.
fn new_step<R: AllocGlobal + Clock, D>(
    call: &StageCall<'_, R, D>,
    number: u32,
    action: StepAction,
    files: Vec<ReplacedFile>,
) -> Result<StagingStep, AllocError>
    ensures number { IfOk result (λ step. step.number ≡ number) }
    ensures action { IfOk result (λ step. step.action ≡ action) }
    ensures user { IfOk result (λ step.
        step.user ≡ option_copied call.now.options.now.user) }
    ensures because { IfOk result (λ step.
        step.because ≡ option_copied call.now.options.now.because) }
    ensures files { IfOk result (λ step. step.files ≡ files.items) }
    ensures not_undone { IfOk result (λ step. step.is_undone ≡ false) }
{
    let alloc = call.rt.alloc();
    let user = owned_some(alloc, call.options.user)?;
    let because = owned_some(alloc, call.options.because)?;
    Ok(StagingStep {
        number,
        time: now_of(call.rt),
        user,
        because,
        action,
        files,
        is_undone: false,
    })
}

/// Records and performs a step of this new number that replaces these files, as they are in the
/// folder. It only prints for `--dry-run`, and records none that replaces no file.
#[tactic(auto, using(crate::proofs::Left::takes_by, crate::proofs::Left::unchanged))]
pub(crate) fn take_step<R, D, F>(
    call: &StageCall<'_, R, D>,
    folder: &mut F,
    number: u32,
    action: StepAction,
    files: Vec<ReplacedFile>,
    lines: &mut Lines,
) -> Result<(), Stop>
where
    R: AllocGlobal + Clock,
    F: StageFolder,
    requires is_new { IsNewNumber (F.records folder.old) number }
    requires found { IfSome (F.files folder.old) (IsFoundBy files.items) }
    requires changes { All (λ file. is_change file ≡ true) files.items }
    ensures done { OnOk result (call.now.options.now.dry_run ≡ false → Takes
        call.now.options.now number action files.items (F.records folder.old)
        (F.records folder.new) (F.files folder.old) (F.files folder.new)) }
    ensures stopped { IfErr result (λ stop. LeftByFiles call.now.options.now action
        files.items stop (F.records folder.old) (F.records folder.new) (F.files folder.old)
        (F.files folder.new)) }
    ensures unchanged { call.now.options.now.dry_run ≡ true → IsUnchanged (F.records folder.old)
        (F.records folder.new) (F.files folder.old) (F.files folder.new) }
{
    let step = match new_step(call, number, action, files) {
        Ok(step) => step,
        Err(_) => return Err(Stop::Memory),
    };
    let taken = take(call.rt.alloc(), folder, &step, call.options.dry_run, lines);
    drop(step);
    match taken {
        Ok(()) => Ok(()),
        Err(stop) => Err(stop),
    }
}

/// The same for at most one file.
#[tactic(auto, using(crate::proofs::Left::unchanged, crate::proofs::Left::takes_files))]
pub(crate) fn take_file<R, D, F>(
    call: &StageCall<'_, R, D>,
    folder: &mut F,
    number: u32,
    action: StepAction,
    file: Option<ReplacedFile>,
    lines: &mut Lines,
) -> Result<(), Stop>
where
    R: AllocGlobal + Clock,
    F: StageFolder,
    requires is_new { IsNewNumber (F.records folder.old) number }
    requires found { IfSome (F.files folder.old) (IsFoundBy (option_to_list file)) }
    requires changes { All (λ file. is_change file ≡ true) (option_to_list file) }
    ensures done { OnOk result (call.now.options.now.dry_run ≡ false → Takes
        call.now.options.now number action (option_to_list file) (F.records folder.old)
        (F.records folder.new) (F.files folder.old) (F.files folder.new)) }
    ensures stopped { IfErr result (λ stop. LeftByFiles call.now.options.now action
        (option_to_list file) stop (F.records folder.old) (F.records folder.new)
        (F.files folder.old) (F.files folder.new)) }
    ensures unchanged { call.now.options.now.dry_run ≡ true → IsUnchanged (F.records folder.old)
        (F.records folder.new) (F.files folder.old) (F.files folder.new) }
{
    match files_of(call.rt.alloc(), file) {
        Ok(files) => match take_step(call, folder, number, action, files, lines) {
            Ok(()) => Ok(()),
            Err(stop) => Err(stop),
        },
        Err(_) => {
            drop(action);
            Err(Stop::Memory)
        }
    }
}
