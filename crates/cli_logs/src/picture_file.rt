//! The file of a report's picture, which mustn't be one of the logs.

use crate::reporting::path_of;
use bounded_files::{ResourceFault, may_write_over, write_file};
use std::fs::{self, File, Metadata};
use std::os::unix::fs::MetadataExt;
use std::rt::Files;

/// The first bytes of a file that a picture may overwrite.
const BEGINNING: &[u8; 4] = b"<svg";

/// Refuses to draw into a file that is one of the logs, by whatever path, or that isn't empty and
/// isn't a picture.
pub(crate) fn require_drawable<R: Files>(
    rt: &R,
    logs: &[&str],
    file: Option<&str>,
) -> Result<(), ResourceFault> {
    let Some(path) = file else {
        return Ok(());
    };
    if is_among(rt, path, logs) || !may_write_over(rt, path, BEGINNING) {
        return Err(ResourceFault::File);
    }
    Ok(())
}

/// Writes a text into the named file, if there are both.
pub(crate) fn write_if<R: Files<File = File> + AllocGlobal>(
    rt: &R,
    file: Option<&str>,
    text: &Option<String>,
) -> Result<(), ResourceFault> {
    match (file, text) {
        (Some(path), Some(text)) => write_file(rt, path, text.as_bytes()),
        _ => Ok(()),
    }
}

/// Whether a path leads to one of the logs, links followed.
pub(crate) fn is_among<R: Files>(rt: &R, path: &str, logs: &[&str]) -> bool {
    let Ok(found) = fs::metadata(rt, path) else {
        return false;
    };
    for log in logs {
        if is_same(rt, &found, path_of(*log)) {
            return true;
        }
    }
    false
}

fn is_same<R: Files>(rt: &R, found: &Metadata, log: &str) -> bool {
    match fs::metadata(rt, log) {
        Ok(other) => other.dev() == found.dev() && other.ino() == found.ino(),
        Err(_) => false,
    }
}
