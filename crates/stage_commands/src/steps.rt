//! The number of the next step, and what a step owns.

ghost use Rattle.std.specs.Prelude.{◌≡◌, IfOk, option_copied};
ghost use Rattle.stage_commands.specs.Taken.{IsNewNumber};

use crate::stop_texts::NO_NUMBER;
use attrs::Text;
use stage_folder::{StageFolder, next_number};
use stage_records::ReplacedFile;
use stage_servers::{RECORDS, Stop, in_folder, refused};
use std::alloc::{AllocError, Global};

/// A text that a step owns.
pub(crate) fn owned_text(alloc: Global, text: &str) -> Result<Text, AllocError>
    ensures { IfOk result (λ owned. owned ≡ text.now) }
{
    Ok(Text::new(String::from_str(alloc, text)?))
}

/// The same of a text that may be missing.
pub(crate) fn owned_some(alloc: Global, text: Option<&str>) -> Result<Option<Text>, AllocError>
    ensures { IfOk result (λ owned. owned ≡ option_copied text.entry) }
{
    match text {
        Some(text) => {
            let owned = owned_text(alloc, text)?;
            Ok(Some(owned))
        }
        None => Ok(None),
    }
}

/// The number of the step that follows all recorded ones, of which none has to be readable.
#[tactic(auto, using(crate::proofs::Left::new_number))]
pub(crate) fn number_in<F: StageFolder>(alloc: Global, folder: &F) -> Result<u32, Stop>
    ensures { IfOk result (IsNewNumber (F.records folder.now)) }
{
    let next = match next_number(folder) {
        Ok(next) => next,
        Err(fault) => return Err(in_folder(alloc, RECORDS, fault)),
    };
    match next {
        Some(number) => Ok(number),
        None => Err(refused(alloc, NO_NUMBER)),
    }
}

/// The name of a step's file at a place.
pub(crate) fn name_at(files: &[ReplacedFile], place: usize) -> &str {
    match files.get(place) {
        Some(file) => file.name.as_str(),
        None => RECORDS,
    }
}
