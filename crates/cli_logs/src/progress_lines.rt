//! The progress of reading logs, on standard error.

use report::LogOnlooker;
use std::fs;
use std::os::unix::fs::FileTypeExt;
use std::rt::Files;
use std::time::{Clock, Instant};

/// The bytes of a MiB.
const MEBIBYTE: u64 = 0x10_0000;

/// The file of standard error.
const STANDARD_ERROR: &str = "/dev/stderr";

/// Prints at most once a second how much of a log has been read. It prints nothing if standard
/// error is a file or a pipe (as a timer's is), or if the clock can't be read.
#[derive(Drop)]
pub(crate) struct ProgressLines<'a, R> {
    rt: &'a R,
    printed_at: Option<Instant>,
}

impl<'a, R: Files + Clock + Eprint> ProgressLines<'a, R> {
    /// For a read that begins now.
    pub(crate) fn new(rt: &'a R) -> ProgressLines<'a, R> {
        let printed_at = if is_watched(rt) {
            Instant::now(rt).ok()
        } else {
            None
        };
        ProgressLines { rt, printed_at }
    }
}

// Whether standard error is a terminal, or another device of characters.
fn is_watched<R: Files>(rt: &R) -> bool {
    match fs::metadata(rt, STANDARD_ERROR) {
        Ok(found) => found.file_type().is_char_device(),
        Err(_) => false,
    }
}

impl<'a, R: Clock + Eprint> LogOnlooker for ProgressLines<'a, R> {
    fn read(&mut self, bytes: u64) {
        let (Some(printed_at), Ok(now)) = (self.printed_at, Instant::now(self.rt)) else {
            return;
        };
        if now.saturating_duration_since(printed_at).as_secs() > 0 {
            self.printed_at = Some(now);
            let read = bytes / MEBIBYTE;
            let _printed = eprintln!(self.rt; "read {read} MiB");
        }
    }
}
