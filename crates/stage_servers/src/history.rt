//! `stage history`: the recorded steps, and what became of each.

// No contract says what is printed: rows compare it.

ghost use Rattle.std.specs.Prelude.{◌≡◌, [], IfOk, true};
ghost use Rattle.stage_servers.specs.Whole.{HasOnlySteps};

use crate::options::StageCall;
use crate::outcome::{Lines, Stop};
use crate::refusals::{RECORDS, in_folder};
use printing::TextBuffer;
use stage_folder::{StageFolder, recorded_steps};
use stage_records::{StagingStep, StepAction};
use stage_text::{push_step, step_state};
use std::alloc::Global;

// Whether a step is about an app, or about all apps of a manifest.
fn is_about(step: &StagingStep, appid: Option<&str>) -> bool {
    let Some(wanted) = appid else {
        return true;
    };
    match &step.action {
        StepAction::Halt { appid } => appid.as_str() == wanted,
        StepAction::HaltRelease { appid, .. } => appid.as_str() == wanted,
        StepAction::Raise { appid, .. } => appid.as_str() == wanted,
        StepAction::Resume { appid, .. } => appid.as_str() == wanted,
        StepAction::Put { .. } => true,
    }
}

/// Adds a line for each of the last `most` steps. If an app is named, only those of it, and puts.
pub(crate) fn push_steps<F: StageFolder>(
    alloc: Global,
    folder: &F,
    steps: &[StagingStep],
    most: usize,
    appid: Option<&str>,
    text: &mut TextBuffer,
) {
    let mut left = steps;
    while let [step, later @ ..] = left {
        if later.len() < most && is_about(step, appid) {
            let word = step_state(folder, step, later).name();
            push_step(alloc, text, word, step);
        }
        left = later;
    }
}

/// Whether this list is empty.
pub(crate) fn are_none(numbers: &[u32]) -> bool
    ensures { result ≡ true → numbers.now ≡ [] }
{
    numbers.is_empty()
}

/// Adds a line for each record that isn't a step's.
pub(crate) fn push_unread(numbers: &[u32], stderr: &mut TextBuffer) {
    for number in numbers {
        stderr.push("stage: ");
        stderr.push(RECORDS);
        let end = ".json is no record of a step: move it away\n";
        stderr.push_number("/", *number as u64, end);
    }
}

/// Prints all steps, or those of one app and all puts. Returns whether each record is a step's.
// open: what is printed: rows.
pub fn push_history<R, D, F>(
    call: &StageCall<'_, R, D>,
    folder: &F,
    appid: Option<&str>,
    lines: &mut Lines,
) -> Result<bool, Stop>
where
    R: AllocGlobal,
    F: StageFolder,
    ensures { IfOk result (λ read. read ≡ true → HasOnlySteps (F.records folder.now)) }
{
    let alloc = call.rt.alloc();
    let recorded = match recorded_steps(alloc, folder) {
        Ok(recorded) => recorded,
        Err(fault) => return Err(in_folder(alloc, RECORDS, fault)),
    };
    push_steps(
        alloc,
        folder,
        &recorded.steps,
        usize::MAX,
        appid,
        &mut lines.text,
    );
    push_unread(&recorded.unread, &mut lines.stderr);
    let are_read = are_none(&recorded.unread);
    drop(recorded);
    Ok(are_read)
}
