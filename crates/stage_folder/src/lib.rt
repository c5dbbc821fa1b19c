//! A folder whose files are replaced step by step, and the records of these steps.
//!
//! docs/OPERATING.md describes stages.
#![tactic(auto)]

// A step is recorded whole before its first file is replaced. So a step that fails in its middle,
// or whose process ends there, can be undone: each of its files is as the step found it, or as the
// step leaves it. The laws `undone_restores` and `performed_is_undoable` say this of a folder whose
// files are known, which a test has in memory. Nothing is known of the files of a device
// (`device_folder.rt`).

mod device_folder;
mod device_path;
mod distinct_names;
mod folder;
mod folder_fault;
mod laws;
mod note;
mod numbering;
mod performing;
mod record_folder;
mod records;
mod undoing;

pub use device_folder::DeviceFolder;
pub use folder::StageFolder;
pub use folder_fault::{FolderFault, RecordFault, StepFault, UndoFault};
pub use laws::{performed_is_undoable, steps_leave, undone_restores};
pub use note::{FolderNote, process_number};
pub use numbering::next_number;
pub use performing::perform;
pub use records::{RecordedSteps, recorded_steps, write_record};
pub use undoing::{edited_file, state_in, undo};
