//! A law of steps and their undoing, for the crates above.

ghost use Rattle.std.specs.Prelude.{◌≡◌, ℕ, List, None, Some, filter, take, true};
ghost use Rattle.stage_records.specs.Steps.{ReplacedFile};
ghost use Rattle.stage_folder.specs.Folders.{Folder};
ghost use Rattle.stage_folder.specs.Steps.{DifferOnlyIn, IsFoundBy, done, undone};
ghost use Rattle.stage_folder.specs.Steps.{edited_place, has_distinct_names, is_change, left_by};

/// Law: undoing a step that was performed, whole or in part, gives the folder that the step found.
/// So does undoing it in any folder that differs from this one only in the step's files, as after
/// an `undo` that failed.
pub fn undone_restores()
    ensures performed { (files : List ReplacedFile) (folder : Folder) (count : ℕ)
        → IsFoundBy files folder → undone files (done (take count files) folder) ≡ folder }
    ensures any { (files : List ReplacedFile) (folder other : Folder) → IsFoundBy files folder
        → DifferOnlyIn files other folder → undone files other ≡ folder }
{}

/// Law: a step whose files have distinct names, performed whole or in part in the folder that it
/// found, has no edited file, so `undo` doesn't refuse it.
pub fn performed_is_undoable()
    ensures { (files : List ReplacedFile) (folder : Folder) (count : ℕ)
        → has_distinct_names files ≡ true → IsFoundBy files folder
        → edited_place files (done (take count files) folder) ≡ None }
{}

/// Law: a step whose files have distinct names leaves each the bytes that it names. Performing only
/// its changes in the folder that it found leaves the same folder.
pub fn steps_leave()
    ensures left { (files : List ReplacedFile) (folder : Folder) (name bytes : List ℕ)
        → has_distinct_names files ≡ true → left_by files name ≡ Some bytes
        → done files folder name ≡ Some bytes }
    ensures changes { (files : List ReplacedFile) (folder : Folder)
        → has_distinct_names files ≡ true → IsFoundBy files folder
        → done (filter is_change files) folder ≡ done files folder }
{}
