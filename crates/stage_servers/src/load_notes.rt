//! What each server loaded last by `stage`, which is noted next to the records of the steps. By it
//! a status says without a log whether a server serves what is in place.

// A line of the notes: the operator's port, the generation that the server replied to the load, and
// the digest of the manifest in place and of its files, as `8081 generation 31 9c10..`.
//
// No contract says what is noted: bench/outside tests it.

use printing::TextBuffer;
use stage_folder::{FolderNote, StageFolder};
use std::alloc::{AllocError, Global};
use std::str;

/// What is noted of a server's load.
#[derive(Clone, Copy)]
pub(crate) struct LoadNote<'a> {
    pub(crate) generation: &'a str,
    pub(crate) digest: &'a str,
}

/// The notes of a folder; empty if there are none that can be read.
pub(crate) fn read_notes<F: StageFolder>(alloc: Global, folder: &F) -> Result<String, AllocError> {
    match folder.read_note(FolderNote::Loads) {
        Ok(Some(bytes)) => String::from_str(alloc, str::from_utf8(&bytes).unwrap_or("")),
        _ => Ok(String::new(alloc)),
    }
}

// What follows a port in a line that begins with it.
fn after_port(line: &str, port: u16) -> Option<&str> {
    let (number, rest) = line.split_once(' ')?;
    match number.parse::<u16>() {
        Ok(found) if found == port => Some(rest),
        _ => None,
    }
}

/// What is noted of the server at an operator's port.
pub(crate) fn note_of<'a>(notes: &'a str, port: u16) -> Option<LoadNote<'a>> {
    for line in notes.lines() {
        if let Some(rest) = after_port(line, port) {
            let (generation, digest) = rest.rsplit_once(' ')?;
            return Some(LoadNote { generation, digest });
        }
    }
    None
}

/// The notes, with this one in place of the server's earlier one.
pub(crate) fn with_note(
    alloc: Global,
    notes: &str,
    port: u16,
    note: LoadNote<'_>,
) -> Result<String, AllocError> {
    let mut text = TextBuffer::new(alloc);
    for line in notes.lines() {
        if after_port(line, port).is_none() {
            text.push(line);
            text.push("\n");
        }
    }
    text.push_number("", port as u64, " ");
    text.push(note.generation);
    text.push(" ");
    text.push(note.digest);
    text.push("\n");
    text.finish()
}
