//! Undoes a step: restores the files that it replaced, if nobody edited them since.

ghost use Rattle.std.specs.Prelude.{◌≡◌, ◌⊎◌, ◌+◌, ◌<◌, ◌^◌, IfErr, IfOk, IfSome, OnErr, OnOk};
ghost use Rattle.std.specs.Prelude.{length, option_map, None};
ghost use Rattle.stage_folder.specs.Folders.{put_known};
ghost use Rattle.stage_records.specs.FileStates.{state_of};
ghost use Rattle.stage_folder.specs.Steps.{IsEdited, IsPartlyUndone, NamesEdited, edited_place};
ghost use Rattle.stage_folder.specs.Steps.{undone};

use crate::folder::StageFolder;
use crate::folder_fault::{FolderFault, StepFault, UndoFault};
use stage_records::{FileState, ReplacedFile};

/// How a file that a step replaced is now.
// open: which fault is returned.
pub fn state_in<F: StageFolder>(folder: &F, file: &ReplacedFile) -> Result<FileState, FolderFault>
    ensures { IfOk result (λ state. IfSome (F.files folder.now)
        (λ known. state ≡ state_of file.now (known file.now.name))) }
{
    let found = folder.read(file.name.as_str())?;
    Ok(file.state(found.as_deref()))
}

/// The place of the first file, counted from 0, that is neither as the step left it nor as the step
/// found it. If there is one, `undo` changes none.
// open: which fault is returned.
pub fn edited_file<F: StageFolder>(
    folder: &F,
    files: &[ReplacedFile],
) -> Result<Option<usize>, StepFault>
    ensures { IfOk result (λ place. IfSome (F.files folder.now)
        (λ known. place ≡ edited_place files.now known)) }
{
    let mut left = files;
    let mut place = 0;
    while let [file, others @ ..] = left {
        match state_in(folder, file) {
            Ok(FileState::Edited) => return Ok(Some(place)),
            Ok(FileState::After | FileState::Before) => {}
            Err(fault) => return Err(StepFault { file: place, fault }),
        }
        left = others;
        place += 1;
    }
    Ok(None)
}

/// Undoes a step: gives each file its bytes `before`, or removes it if it is new, the last one
/// first. It looks at all files before it changes one, and changes none if one was edited since
/// (`Edited`). After another error each file is as the step found it, or as it was before the call;
/// so `undo` can be called again.
// open: which fault is returned.
pub fn undo<F: StageFolder>(folder: &mut F, files: &[ReplacedFile]) -> Result<(), UndoFault>
    ensures undone { OnOk result
        (F.files folder.new ≡ option_map (undone files.now) (F.files folder.old)) }
    ensures unedited { OnOk result (IfSome (F.files folder.old)
        (λ known. edited_place files.now known ≡ None)) }
    ensures edited { IfSome (F.files folder.old) (λ known. IfSome (edited_place files.now known)
        (λ _. F.files folder.new ≡ F.files folder.old)) }
    ensures refused { IfErr result (λ fault. IsEdited fault
        → F.files folder.new ≡ F.files folder.old) }
    ensures named { IfErr result (NamesEdited files.now (F.files folder.old)) }
    ensures failed { OnErr result
        (IsPartlyUndone files.now (F.files folder.old) (F.files folder.new)) }
    ensures records { F.records folder.new ≡ F.records folder.old }
{
    match edited_file(folder, files) {
        Ok(None) => match restore(folder, files, 0) {
            Ok(()) => Ok(()),
            Err(fault) => Err(UndoFault::Stopped(fault)),
        },
        Ok(Some(file)) => Err(UndoFault::Edited { file }),
        Err(fault) => Err(UndoFault::Stopped(fault)),
    }
}

// Gives the file at this place its bytes `before`, or removes it.
fn put_before<F: StageFolder>(
    folder: &mut F,
    file: &ReplacedFile,
    place: usize,
) -> Result<(), StepFault>
    ensures put { OnOk result (F.files folder.new
        ≡ put_known file.now.name file.now.before (F.files folder.old)) }
    ensures failed { OnErr result ((F.files folder.new ≡ F.files folder.old)
        ⊎ (F.files folder.new
        ≡ put_known file.now.name file.now.before (F.files folder.old))) }
    ensures records { F.records folder.new ≡ F.records folder.old }
{
    match folder.put(file.name.as_str(), file.before.as_deref()) {
        Ok(()) => Ok(()),
        Err(fault) => Err(StepFault { file: place, fault }),
    }
}

// Restores these files, the last one first; `place` is that of the first one in its step.
fn restore<F: StageFolder>(
    folder: &mut F,
    files: &[ReplacedFile],
    place: usize,
) -> Result<(), StepFault>
    requires { place + length files.now < 2 ^ 64 }
    ensures undone { OnOk result
        (F.files folder.new ≡ option_map (undone files.now) (F.files folder.old)) }
    ensures failed { OnErr result
        (IsPartlyUndone files.now (F.files folder.old) (F.files folder.new)) }
    ensures records { F.records folder.new ≡ F.records folder.old }
{
    let [file, others @ ..] = files else {
        return Ok(());
    };
    match restore(folder, others, place + 1) {
        Ok(()) => put_before(folder, file, place),
        Err(fault) => Err(fault),
    }
}
