//! The sentences of a refusal that many actions share.

ghost use Rattle.stage_servers.specs.Stops.{MayBeUnchanged};

use crate::outcome::Stop;
use load::PathFault;
use printing::TextBuffer;
use stage_folder::FolderFault;
use std::alloc::Global;

/// The name of the folder of the records, as it is printed.
pub const RECORDS: &str = ".stage";

/// A refusal with this sentence; or `Memory`, if an allocation failed.
// open: what the sentence is: bench/outside.
pub fn refusal(text: TextBuffer) -> Stop
    ensures { MayBeUnchanged result }
{
    match text.finish() {
        Ok(text) => Stop::Refused(text),
        Err(_) => Stop::Memory,
    }
}

/// A refusal in these words; or `Memory`, if an allocation failed.
// open: what the sentence is: bench/outside.
pub fn refused(alloc: Global, sentence: &str) -> Stop
    ensures { MayBeUnchanged result }
{
    let mut text = TextBuffer::new(alloc);
    text.push(sentence);
    refusal(text)
}

/// A refusal of something with this name: what follows the name in the sentence; or `Memory`, if an
/// allocation failed.
// open: what the sentence is: bench/outside.
pub fn refusal_of(alloc: Global, name: &str, rest: &str) -> Stop
    ensures { MayBeUnchanged result }
{
    let mut text = TextBuffer::new(alloc);
    text.push_printed("", name, rest);
    refusal(text)
}

/// A manifest can't be gathered, or can't be judged.
// open: what the sentence is: bench/outside.
pub fn no_manifest(alloc: Global, path: &str, fault: PathFault) -> Stop
    ensures { MayBeUnchanged result }
{
    let mut text = TextBuffer::new(alloc);
    text.push_printed("", path, " is refused (");
    text.push_value(&fault);
    text.push_printed("): call rollout check ", path, "");
    drop(fault);
    refusal(text)
}

/// A folder, or one of its files, can't be read or written.
// open: what the sentence is: bench/outside.
pub fn in_folder(alloc: Global, name: &str, fault: FolderFault) -> Stop
    ensures { MayBeUnchanged result }
{
    if fault == FolderFault::Memory {
        return Stop::Memory;
    }
    let mut text = TextBuffer::new(alloc);
    text.push_printed("", name, ": ");
    text.push_value(&fault);
    refusal(text)
}
