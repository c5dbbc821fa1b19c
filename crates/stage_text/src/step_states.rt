//! What became of a step.

use stage_folder::StageFolder;
use stage_records::{FileState, ReplacedFile, StagingStep};

/// What became of a step.
#[derive(Clone, Copy, PartialEq, Eq)]
pub enum StepState {
    /// No file of it is known to be as it found it.
    Done,
    /// A file of it is as it found it.
    Stopped,
    /// It is undone.
    Undone,
}

impl StepState {
    /// Its name, as `stage history` prints it.
    // open: what it is: rows.
    pub fn name(self) -> &'static str {
        match self {
            StepState::Done => "done",
            StepState::Stopped => "stopped",
            StepState::Undone => "undone",
        }
    }
}

// The file of this name among those of a step.
fn same_file<'a>(files: &'a [ReplacedFile], name: &str) -> Option<&'a ReplacedFile> {
    files.iter().find(|file| file.name.as_str() == name)
}

// Whether a step left a file as it found it: the next step that replaces the file found it so, or
// else it is so now. A file that can't be read isn't.
fn is_left_alone<F: StageFolder>(folder: &F, file: &ReplacedFile, later: &[StagingStep]) -> bool {
    let name = file.name.as_str();
    for step in later {
        if let Some(next) = same_file(&step.files, name) {
            return file.state(next.before.as_deref()) == FileState::Before;
        }
    }
    match folder.read(name) {
        Ok(found) => file.state(found.as_deref()) == FileState::Before,
        Err(_) => false,
    }
}

// Whether a file of a step is as the step found it.
fn has_stopped<F: StageFolder>(folder: &F, step: &StagingStep, later: &[StagingStep]) -> bool {
    for file in &step.files {
        if is_left_alone(folder, file, later) {
            return true;
        }
    }
    false
}

/// What became of a step, before these later ones.
// open: whether a step that isn't undone has stopped: rows.
pub fn step_state<F: StageFolder>(
    folder: &F,
    step: &StagingStep,
    later: &[StagingStep],
) -> StepState {
    if step.is_undone {
        return StepState::Undone;
    }
    if has_stopped(folder, step, later) {
        return StepState::Stopped;
    }
    StepState::Done
}
