//! A law of a step whose undoing stopped.

ghost use Rattle.std.specs.Prelude.{◌≡◌, ℕ, List, None, drop, take, true};
ghost use Rattle.stage_records.specs.Steps.{ReplacedFile};
ghost use Rattle.stage_folder.specs.Folders.{Folder};
ghost use Rattle.stage_folder.specs.Steps.{IsFoundBy, done, edited_place, has_distinct_names};
ghost use Rattle.stage_folder.specs.Steps.{undone};

use stage_folder::performed_is_undoable;

/// Law: undoing some files of a step, up to its last, leaves no file edited if none was and their
/// names are distinct. So `back` can be called again after one that stopped, also at a step that
/// was performed in part.
pub fn stopped_is_undoable()
    ensures again { (files : List ReplacedFile) (folder : Folder) (more : ℕ)
        → has_distinct_names files ≡ true → edited_place files folder ≡ None
        → edited_place files (undone (drop more files) folder) ≡ None }
    ensures performed { (files : List ReplacedFile) (folder : Folder) (count more : ℕ)
        → has_distinct_names files ≡ true → IsFoundBy files folder
        → edited_place files (undone (drop more files) (done (take count files) folder)) ≡ None }
{
    performed_is_undoable();
}
