//! Files that were edited by hand since the steps: when an action looks at them, and stops.

// No contract says what is printed: rows compare it.

ghost use Rattle.std.specs.Prelude.{◌≡◌, All, OnOk, false, true};
ghost use Rattle.std.specs.List.{list_any};
ghost use Rattle.std.specs.Result.{OnErr};
ghost use Rattle.stage_servers.specs.Drift.{is_back, is_halt};
ghost use Rattle.stage_servers.specs.Unedited as specs;
ghost use Rattle.stage_servers.specs.Unedited.{AreFilesUnedited, AreUnedited};
ghost use Rattle.stage_servers.specs.Unedited.{IsLastLeft, IsUnedited};
ghost use Rattle.stage_servers.specs.Whole.{HasOnlySteps};

use crate::action_kinds::{is_back, is_halt};
use crate::comparing::depends_on_files;
use crate::edit_texts::{Serving, serving_last, unlike};
use crate::options::StageCall;
use crate::outcome::{Lines, Stop};
use crate::recorded::read_steps;
use crate::refusals::in_folder;
use crate::replaced_files::file_named;
use crate::serves::Surveyed;
use stage_folder::{StageFolder, state_in};
use stage_records::{FileState, ReplacedFile, StageAction, StagingStep, last_step};
use std::alloc::Global;

fn replaces(step: &StagingStep, name: &str) -> bool
    ensures { result ≡ specs.replaces name.now step.now }
{
    !step.is_undone && file_named(&step.files, name).is_some()
}

fn is_replaced(later: &[StagingStep], name: &str) -> bool
    ensures { result ≡ list_any (specs.replaces name.now) later.now }
{
    let mut left = later;
    while let [step, others @ ..] = left {
        if replaces(step, name) {
            return true;
        }
        left = others;
    }
    false
}

fn counts(is_back: bool, step: &StagingStep, later: &[StagingStep]) -> bool
    ensures { result ≡ specs.counts is_back step.now later.now }
{
    !step.is_undone && (!is_back || last_step(later).is_some())
}

// Stops at a file that isn't as this step left it, unless a later one replaced it.
#[tactic(auto, using(crate::proofs::Unedited::replaced, crate::proofs::Unedited::left))]
fn stop_unless_left<F: StageFolder>(
    alloc: Global,
    folder: &F,
    file: &ReplacedFile,
    number: u32,
    later: &[StagingStep],
    serving: Option<Serving>,
) -> Result<(), Stop>
    ensures { OnOk result (IsLastLeft (F.files folder.now) later.now file.now) }
{
    let name = file.name.as_str();
    if is_replaced(later, name) {
        return Ok(());
    }
    let state = match state_in(folder, file) {
        Ok(state) => state,
        Err(fault) => return Err(in_folder(alloc, name, fault)),
    };
    match state {
        FileState::After => Ok(()),
        FileState::Before | FileState::Edited => {
            let is_last = last_step(later).is_none();
            Err(unlike(alloc, name, number, is_last, state, serving))
        }
    }
}

// The same at each of these files.
#[tactic(auto, using(crate::proofs::Unedited::both_left, crate::proofs::Unedited::none_left))]
fn stop_unless_all_left<F: StageFolder>(
    alloc: Global,
    folder: &F,
    files: &[ReplacedFile],
    number: u32,
    later: &[StagingStep],
    serving: Option<Serving>,
) -> Result<(), Stop>
    ensures { OnOk result (All (IsLastLeft (F.files folder.now) later.now) files.now) }
{
    let [file, others @ ..] = files else {
        return Ok(());
    };
    if let Err(stop) = stop_unless_left(alloc, folder, file, number, later, serving) {
        return Err(stop);
    }
    match stop_unless_all_left(alloc, folder, others, number, later, serving) {
        Ok(()) => Ok(()),
        Err(stop) => Err(stop),
    }
}

// The same at the files of a step, if it counts before these later ones.
#[tactic(auto, using(crate::proofs::Unedited::none_counts))]
fn stop_unless_unedited<F: StageFolder>(
    alloc: Global,
    folder: &F,
    is_back: bool,
    step: &StagingStep,
    later: &[StagingStep],
    serving: Option<Serving>,
) -> Result<(), Stop>
    ensures { OnOk result
        (AreFilesUnedited is_back (F.files folder.now) step.now later.now) }
{
    if !counts(is_back, step, later) {
        return Ok(());
    }
    match stop_unless_all_left(alloc, folder, &step.files, step.number, later, serving) {
        Ok(()) => Ok(()),
        Err(stop) => Err(stop),
    }
}

// Stops at a file that isn't as the last of these steps left it that replaced it.
fn stop_if_some_edited<F: StageFolder>(
    alloc: Global,
    folder: &F,
    is_back: bool,
    steps: &[StagingStep],
    serving: Option<Serving>,
) -> Result<(), Stop>
    ensures { OnOk result (AreUnedited is_back (F.files folder.now) steps.now) }
{
    let [step, later @ ..] = steps else {
        return Ok(());
    };
    if let Err(stop) = stop_unless_unedited(alloc, folder, is_back, step, later, serving) {
        return Err(stop);
    }
    match stop_if_some_edited(alloc, folder, is_back, later, serving) {
        Ok(()) => Ok(()),
        Err(stop) => Err(stop),
    }
}

/// Stops before anything is changed, if a record can't be read; or if a file can't be read, or
/// isn't as the last step left it that replaced it and isn't undone, unless `--anyway` is given. It
/// looks if no server says what it serves, or if one serves what the last step left, and that isn't
/// in place. A halt doesn't stop; nor does a put at such a server, since its rows begin with what
/// is served. The files of the step that `back` is to undo are left to `undo`, which looks at them.
// open: which record or file it stops at, that it doesn't stop otherwise, and whether an allocation
// fails: rows.
pub fn stop_if_edited<R, D, F>(
    call: &StageCall<'_, R, D>,
    folder: &F,
    servers: &[Surveyed],
    action: &StageAction<'_>,
    lines: &mut Lines,
) -> Result<(), Stop>
where
    R: AllocGlobal,
    F: StageFolder,
    ensures read { OnOk result (specs.reads_records action.now servers.now ≡ true
        → HasOnlySteps (F.records folder.now)) }
    ensures unedited { OnOk result
        (specs.compares_files call.now.options.now action.now servers.now ≡ true
        → IsUnedited (is_back action.now) (F.records folder.now) (F.files folder.now)) }
    ensures halted { is_halt action.now ≡ true → OnErr result ⊥ }
    ensures apart { specs.depends_on_files action.now servers.now ≡ false → OnErr result ⊥ }
{
    if is_halt(action) || !depends_on_files(action, servers) {
        return Ok(());
    }
    let (alloc, serving) = (call.rt.alloc(), serving_last(servers));
    let recorded = match read_steps(alloc, folder) {
        Ok(recorded) => recorded,
        Err(stop) => return Err(stop),
    };
    let edited = stop_if_some_edited(alloc, folder, is_back(action), &recorded.steps, serving);
    drop(recorded);
    match edited {
        Ok(()) => Ok(()),
        Err(stop) => lines.go_on_if(call.options.anyway, stop),
    }
}
