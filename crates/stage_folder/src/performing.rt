//! Performs a step: replaces its files, one after the other.

ghost use Rattle.std.specs.Prelude.{◌≡◌, ◌⊎◌, OnErr, OnOk, option_map};
ghost use Rattle.stage_folder.specs.Folders.{put_known};
ghost use Rattle.stage_folder.specs.Steps.{IsPartlyDone, done};

use crate::folder::StageFolder;
use crate::folder_fault::{FolderFault, StepFault};
use stage_records::ReplacedFile;

// Replaces a file by its bytes `after`.
fn put_after<F: StageFolder>(folder: &mut F, file: &ReplacedFile) -> Result<(), FolderFault>
    ensures put { OnOk result (F.files folder.new
        ≡ put_known file.now.name (Some file.now.after) (F.files folder.old)) }
    ensures failed { OnErr result ((F.files folder.new ≡ F.files folder.old)
        ⊎ (F.files folder.new
        ≡ put_known file.now.name (Some file.now.after) (F.files folder.old))) }
    ensures records { F.records folder.new ≡ F.records folder.old }
{
    folder.put(file.name.as_str(), Some(file.after.as_slice()))
}

/// Replaces the files of a step in their order, each by its bytes `after`; the step has to be
/// recorded already. After an error the first files are replaced, maybe also that of the fault;
/// `undo` restores them.
// open: which fault is returned.
pub fn perform<F: StageFolder>(folder: &mut F, files: &[ReplacedFile]) -> Result<(), StepFault>
    ensures done { OnOk result
        (F.files folder.new ≡ option_map (done files.now) (F.files folder.old)) }
    ensures failed { OnErr result
        (IsPartlyDone files.now (F.files folder.old) (F.files folder.new)) }
    ensures records { F.records folder.new ≡ F.records folder.old }
{
    let mut left = files;
    let mut place = 0;
    while let [file, others @ ..] = left {
        if let Err(fault) = put_after(folder, file) {
            return Err(StepFault { file: place, fault });
        }
        left = others;
        place += 1;
    }
    Ok(())
}
