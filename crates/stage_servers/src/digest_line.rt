//! The digest of what a server judged last, by its log.

use std::alloc::Global;
use std::io::{self, BufRead, BufReader};
use std::rt::Files;
use std::{fs, str};

/// The bytes that are read of a log at a time.
const PIECE: usize = 0x1_0000;

/// What is before a digest in a line of a log. No text of a client has it, since its quotation
/// marks are escaped.
const MEMBER: &str = "\"digest\":\"";

// The digest in a line, if it has one.
fn digest_in(line: &[u8]) -> Option<&str> {
    let Ok(text) = str::from_utf8(line) else {
        return None;
    };
    let Some((_, after)) = text.split_once(MEMBER) else {
        return None;
    };
    match after.split_once('"') {
        Some((digest, _)) => Some(digest),
        None => None,
    }
}

// The last digest in the lines that are left.
fn last_in<B: BufRead>(alloc: Global, reader: &mut B) -> io::Result<Option<String>> {
    let mut line = Vec::new(alloc);
    let mut last = None;
    for _ in 0..u64::MAX {
        line.clear();
        match reader.read_until(b'\n', &mut line) {
            Ok(0) => break,
            Ok(_) => {}
            Err(error) => return Err(error),
        }
        if let Some(digest) = digest_in(&line) {
            last = Some(String::from_str(alloc, digest)?);
        }
    }
    Ok(last)
}

/// The last digest in a log, which is that of the last load, or of a start that was about to serve;
/// None if it has none.
pub(crate) fn last_digest<R>(rt: &R, log: &str) -> io::Result<Option<String>>
where
    R: Files + AllocGlobal,
{
    let alloc = rt.alloc();
    let mut reader = BufReader::with_capacity(alloc, PIECE, fs::open(rt, log)?)?;
    last_in(alloc, &mut reader)
}
