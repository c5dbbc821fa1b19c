//! What is in place, compared with what a log's server loaded last.

// No contract says what is printed: bench/outside tests it.

use crate::collected::digest_text;
use crate::digest_line::last_digest;
use crate::options::StageCall;
use crate::outcome::Lines;
use load::CollectedManifest;
use printing::TextBuffer;
use std::alloc::Global;
use std::rt::Files;

// Adds whether a digest, that of what is in place, is the last one of a log, and returns it.
fn push_digests(text: &mut TextBuffer, log: &str, in_place: &str, last: Option<&str>) -> bool {
    let Some(last) = last else {
        text.push_printed("", log, ": no load yet\n");
        return false;
    };
    let is_same = last == in_place;
    let end = if is_same {
        ", what is in place was loaded last\n"
    } else {
        ", it wasn't loaded last\n"
    };
    text.push_printed("", log, ": digest ");
    text.push(in_place);
    text.push(end);
    is_same
}

// The same for a manifest.
fn push_last(
    alloc: Global,
    collected: &CollectedManifest,
    log: &str,
    last: Option<&str>,
    text: &mut TextBuffer,
) -> bool {
    match digest_text(alloc, collected) {
        Ok(in_place) => push_digests(text, log, in_place.as_str(), last),
        Err(_) => {
            text.leave_out();
            false
        }
    }
}

/// Adds whether what is in place is what the log's server loaded last, and returns it, if a log is
/// named. If the log can't be read, it isn't.
pub(crate) fn push_log<R, D>(
    call: &StageCall<'_, R, D>,
    collected: &CollectedManifest,
    lines: &mut Lines,
) -> Option<bool>
where
    R: Files + AllocGlobal,
{
    let Some(log) = call.options.log else {
        return None;
    };
    match last_digest(call.rt, log) {
        Ok(last) => {
            let alloc = call.rt.alloc();
            Some(push_last(alloc, collected, log, last.as_deref(), &mut lines.text))
        }
        Err(error) => {
            let (reason, stderr) = (error.kind(), &mut lines.stderr);
            stderr.push_printed("stage: ", log, " can't be read (");
            stderr.push_value(&reason);
            stderr.push("): name a server's log\n");
            Some(false)
        }
    }
}
