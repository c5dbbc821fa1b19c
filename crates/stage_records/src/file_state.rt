//! How a file that a step replaced is now.

ghost use Rattle.std.specs.Prelude.{◌≡◌, option_copied, option_map};
ghost use Rattle.stage_records.specs.FileStates as specs;

use crate::step::ReplacedFile;

/// How a file is, compared with what a step found and left. A step that failed in its middle left
/// its first files as `After` and the others as `Before`, and so may one that undoes it.
#[derive(Clone, Copy, PartialEq, Eq)]
pub enum FileState {
    /// As the step left it: undoing the step restores its bytes, or removes a new file.
    After,
    /// As the step found it: undoing the step leaves it.
    Before,
    /// Neither: the step isn't undone.
    Edited,
}

fn is_same_file(one: Option<&[u8]>, other: Option<&[u8]>) -> bool
    ensures { result ≡ specs.is_same_file (option_copied one.entry) (option_copied other.entry) }
{
    match (one, other) {
        (None, None) => true,
        (Some(bytes), Some(others)) => bytes == others,
        _ => false,
    }
}

impl ReplacedFile {
    /// Its state, by the bytes of the file that is there now, if there is one.
    pub fn state(&self, found: Option<&[u8]>) -> FileState
        ensures { result ≡ specs.state_of self.now (option_copied found.entry) }
    {
        if is_same_file(found, Some(self.after.as_slice())) {
            return FileState::After;
        }
        if is_same_file(found, self.before.as_deref()) {
            return FileState::Before;
        }
        FileState::Edited
    }
}
