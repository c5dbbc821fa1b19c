//! The sentences about what of a folder can't be read.

use bounded_files::ResourceFault;
use load::{LoadFault, PathFault};
use printing::TextBuffer;
use stage_folder::FolderFault;
use std::alloc::{AllocError, Global};
use std::io::ErrorKind;

/// The folder of the records, as it is named in sentences.
const RECORDS: &str = ".stage";

/// The folder can't be read.
pub(crate) fn no_folder(
    alloc: Global,
    path: &str,
    fault: FolderFault,
) -> Result<String, AllocError> {
    if fault == FolderFault::Memory {
        return Err(AllocError);
    }
    let mut text = TextBuffer::new(alloc);
    text.push_printed("", path, ": ");
    text.push_value(&fault);
    text.finish()
}

/// The folder of the records can't be read.
pub(crate) fn no_records(alloc: Global, fault: FolderFault) -> Result<String, AllocError> {
    match fault {
        FolderFault::RecordsNotOwn | FolderFault::System(ErrorKind::PermissionDenied) => {
            let sentence = ".stage is another user's, or open to others: call this as its owner";
            String::from_str(alloc, sentence)
        }
        fault => no_folder(alloc, RECORDS, fault),
    }
}

/// The record of this number isn't a step's.
pub(crate) fn no_record(alloc: Global, number: u32) -> Result<String, AllocError> {
    let mut text = TextBuffer::new(alloc);
    text.push_all(&[RECORDS, "/"]);
    text.push_number(
        "",
        u64::from(number),
        ".json isn't a record of a step: mend it (",
    );
    text.push("once it is moved away, a halt in it is forgotten)");
    text.finish()
}

// Whether an allocation failed while a manifest was read.
fn is_memory(fault: &PathFault) -> bool {
    matches!(
        fault,
        PathFault::Resource(ResourceFault::Memory) | PathFault::Load(LoadFault::Memory)
    )
}

/// The manifest can't be read.
pub(crate) fn no_manifest(
    alloc: Global,
    path: &str,
    fault: &PathFault,
) -> Result<String, AllocError> {
    if is_memory(fault) {
        return Err(AllocError);
    }
    let mut text = TextBuffer::new(alloc);
    text.push_printed("", path, " is refused (");
    text.push_value(fault);
    text.push_printed("): call rollout check ", path, "");
    text.finish()
}

/// An app's file of this name can't be read.
pub(crate) fn no_file(alloc: Global, name: &str) -> Result<String, AllocError> {
    let mut text = TextBuffer::new(alloc);
    text.push_printed("", name, " can't be read, or is too long");
    text.finish()
}

/// The files of the last apps aren't read.
pub(crate) fn no_more_apps(alloc: Global, count: usize) -> Result<String, AllocError> {
    let mut text = TextBuffer::new(alloc);
    text.push_number("the files of ", count as u64, " further apps aren't read: ");
    text.push("those before are too long");
    text.finish()
}
