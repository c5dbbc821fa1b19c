//! The file of a report's page, which mustn't be one of the logs.

use crate::picture_file::is_among;
use crate::reporting::fault_of;
use bounded_files::ResourceFault;
use report_page::PAGE_BEGINNING;
use std::fs;
use std::io::{self, Read};
use std::rt::Files;

/// Refuses to write a page into a file that is one of the logs, by whatever path, or that isn't
/// empty and isn't such a page.
pub(crate) fn require_page<R: Files + AllocGlobal>(
    rt: &R,
    logs: &[&str],
    file: Option<&str>,
) -> Result<(), ResourceFault> {
    let Some(path) = file else {
        return Ok(());
    };
    if is_among(rt, path, logs) || !may_be_page(rt, path)? {
        return Err(ResourceFault::File);
    }
    Ok(())
}

/// Whether a page may be written at a path: nothing is there, or no regular file, or one that is
/// empty or begins as a page does. Returns B3 if such a file can't be read, and B4 if an allocation
/// fails.
// open: what it returns: rows.
pub fn may_be_page<R: Files + AllocGlobal>(rt: &R, path: &str) -> Result<bool, ResourceFault> {
    match fs::metadata(rt, path) {
        Ok(found) if found.is_file() => { is_page(rt, path).map_err(|error| fault_of(&error)) }
        _ => Ok(true),
    }
}

// Whether a file is empty, or begins as a page does.
fn is_page<R: Files + AllocGlobal>(rt: &R, path: &str) -> io::Result<bool> {
    let file = fs::open(rt, path)?;
    let mut first = Vec::new(rt.alloc());
    file.take(PAGE_BEGINNING.len() as u64)
        .read_to_end(&mut first)?;
    Ok(first.is_empty() || first.as_slice() == PAGE_BEGINNING.as_bytes())
}
