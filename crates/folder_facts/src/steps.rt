//! The last steps of a folder, as a page shows them.

ghost use Rattle.std.specs.Prelude.{◌≡◌, ◌-◌, [], IfOk, length};
ghost use Rattle.folder_facts.specs.Digests.{AreLeft};
ghost use Rattle.folder_facts.specs.Shown.{AreStepsShown, AreTaken};
ghost use Rattle.folder_facts.specs.Shown as specs;

use crate::left::{LeftDigests, MOST_STEPS, Recorded, left_digests, no_digests};
use crate::unread::{no_record, no_records};
use attrs::Text;
use bounded_files::Disk;
use printing::TextBuffer;
use report_page::TakenStep;
use stage_folder::{RecordedSteps, StageFolder, recorded_steps};
use stage_records::{StagingStep, StepAction};
use stage_text::{push_action, step_state, time_of};
use std::alloc::{AllocError, Global};

/// The steps that are shown, the newest first, and a sentence for each record that can't be read.
#[derive(Drop)]
pub(crate) struct ShownSteps {
    pub(crate) steps: Vec<TakenStep>,
    /// How many steps were taken before these.
    pub(crate) earlier: u64,
    pub(crate) left: LeftDigests,
    pub(crate) unread: Vec<String>,
}

fn action_text(alloc: Global, action: &StepAction) -> Result<String, AllocError> {
    let mut text = TextBuffer::new(alloc);
    push_action(&mut text, action);
    text.finish()
}

// What a step did to its app, in few words, such as `raise to 5 %`; and its state, unless it is
// done.
fn label_of(alloc: Global, action: &StepAction, state: &str) -> Result<String, AllocError> {
    let mut text = TextBuffer::new(alloc);
    match action {
        StepAction::Halt { .. } => text.push("halt"),
        StepAction::HaltRelease { version, .. } => text.push_printed("halt ", version.as_str(), ""),
        StepAction::Raise { buckets, .. } => push_share(&mut text, *buckets),
        StepAction::Resume { .. } => text.push("resume"),
        StepAction::Put { .. } => text.push("put"),
    }
    if state != "done" {
        text.push(", ");
        text.push(state);
    }
    text.finish()
}

// Adds to which share of all buckets an app is raised.
fn push_share(text: &mut TextBuffer, buckets: u32) {
    text.push_number("raise to ", u64::from(buckets / 100), "");
    let hundredths = buckets % 100;
    if hundredths > 0 {
        text.push_number(
            if hundredths < 10 { ".0" } else { "." },
            u64::from(hundredths),
            "",
        );
    }
    text.push(" %");
}

// The app that a step changed; empty if it put a manifest.
fn appid_of(action: &StepAction) -> &str {
    match action {
        StepAction::Halt { appid } => appid.as_str(),
        StepAction::HaltRelease { appid, .. } => appid.as_str(),
        StepAction::Raise { appid, .. } => appid.as_str(),
        StepAction::Resume { appid, .. } => appid.as_str(),
        StepAction::Put { .. } => "",
    }
}

// The same text; empty if there is none.
fn text_or_empty(alloc: Global, text: &Option<Text>) -> Result<String, AllocError> {
    match text {
        Some(text) => String::from_str(alloc, text.as_str()),
        None => Ok(String::new(alloc)),
    }
}

// A step, before these later ones.
fn taken_step<F: StageFolder>(
    alloc: Global,
    folder: &F,
    step: &StagingStep,
    later: &[StagingStep],
) -> Result<TakenStep, AllocError>
    ensures { IfOk result (λ taken. taken.number ≡ step.now.number) }
{
    let state = step_state(folder, step, later).name();
    Ok(TakenStep {
        number: u64::from(step.number),
        time: time_of(alloc, step.time)?,
        action: action_text(alloc, &step.action)?,
        appid: String::from_str(alloc, appid_of(&step.action))?,
        label: label_of(alloc, &step.action, state)?,
        who: text_or_empty(alloc, &step.user)?,
        why: text_or_empty(alloc, &step.because)?,
        state: String::from_str(alloc, state)?,
    })
}

// The last of these steps.
fn last_steps(steps: &[StagingStep]) -> &[StagingStep]
    ensures { result.now ≡ specs.last_steps steps.now }
{
    &steps[steps.len().saturating_sub(MOST_STEPS)..]
}

// The last of these steps, the newest first.
fn taken_steps<F: StageFolder>(
    alloc: Global,
    folder: &F,
    steps: &[StagingStep],
) -> Result<Vec<TakenStep>, AllocError>
    ensures { IfOk result (λ taken. AreTaken steps.now taken.items) }
{
    let mut taken = Vec::new(alloc);
    let mut left = last_steps(steps);
    while let [step, later @ ..] = left {
        taken.push(taken_step(alloc, folder, step, later)?)?;
        left = later;
    }
    taken.as_mut_slice().reverse();
    Ok(taken)
}

// A sentence for each record that isn't a step's.
fn unread_records(alloc: Global, numbers: &[u32]) -> Result<Vec<String>, AllocError>
    ensures { IfOk result (λ unread. length unread.items ≡ length numbers.now) }
{
    let mut unread = Vec::new(alloc);
    let mut left = numbers;
    while let [number, others @ ..] = left {
        unread.push(no_record(alloc, *number)?)?;
        left = others;
    }
    Ok(unread)
}

// The steps of these records.
fn shown_of<D: Disk, F: StageFolder>(
    alloc: Global,
    disk: &D,
    folder: &F,
    manifest: &str,
    recorded: &RecordedSteps,
) -> Result<ShownSteps, AllocError>
    ensures taken { IfOk result
        (λ shown. AreTaken recorded.now.steps.items shown.steps.items) }
    ensures unread { IfOk result
        (λ shown. length shown.unread.items ≡ length recorded.now.unread.items) }
    ensures earlier { IfOk result
        (λ shown. shown.earlier ≡ length recorded.now.steps.items - 20) }
    ensures left { IfOk result (λ shown. AreLeft (D.known disk.now) manifest.now
        recorded.now.steps.items shown.left.digests.items) }
{
    let steps = taken_steps(alloc, folder, &recorded.steps)?;
    let unread = unread_records(alloc, &recorded.unread)?;
    let earlier = recorded.steps.len().saturating_sub(MOST_STEPS) as u64;
    let left = left_if_read(alloc, disk, manifest, recorded)?;
    Ok(ShownSteps {
        steps,
        earlier,
        left,
        unread,
    })
}

// What the steps left, unless a record can't be read.
fn left_if_read<D: Disk>(
    alloc: Global,
    disk: &D,
    manifest: &str,
    recorded: &RecordedSteps,
) -> Result<LeftDigests, AllocError>
    ensures { IfOk result (λ left. AreLeft (D.known disk.now) manifest.now
        recorded.now.steps.items left.digests.items) }
{
    if !recorded.unread.is_empty() {
        return Ok(no_digests(alloc));
    }
    let steps = recorded.steps.as_slice();
    let recorded = Recorded {
        disk,
        manifest,
        steps,
    };
    left_digests(alloc, &recorded)
}

/// The last steps of a folder. If its records, or one of them, can't be opened, it has none, and a
/// sentence says why.
pub(crate) fn shown_steps<D: Disk, F: StageFolder>(
    alloc: Global,
    disk: &D,
    folder: &F,
    manifest: &str,
) -> Result<ShownSteps, AllocError>
    ensures { IfOk result (λ shown. shown.unread.items ≡ []
        → AreStepsShown (D.known disk.now) manifest.now (F.records folder.now)
        shown.steps.items shown.earlier shown.left.digests.items) }
{
    match recorded_steps(alloc, folder) {
        Ok(recorded) => {
            let shown = shown_of(alloc, disk, folder, manifest, &recorded);
            drop(recorded);
            shown
        }
        Err(fault) => {
            let sentence = no_records(alloc, fault)?;
            Ok(ShownSteps {
                steps: Vec::new(alloc),
                earlier: 0,
                left: no_digests(alloc),
                unread: Vec::from_array(alloc, [sentence])?,
            })
        }
    }
}
