//! What a command prints, and what a row wants it to print.

use crate::marks::Mark;
use std::alloc::{AllocError, Global};
use std::str;

/// A status, and the bytes of standard output and of standard error.
#[derive(Drop)]
pub(crate) struct Printed {
    pub(crate) status: u8,
    pub(crate) out: Vec<u8>,
    pub(crate) err: Vec<u8>,
}

impl Printed {
    /// These bytes on standard output, with status 0.
    pub(crate) fn of(alloc: Global, out: Vec<u8>) -> Printed {
        Printed {
            status: 0,
            out,
            err: Vec::new(alloc),
        }
    }

    /// Status 0 and no output.
    pub(crate) fn nothing(alloc: Global) -> Printed {
        Printed::of(alloc, Vec::new(alloc))
    }
}

/// The text that these bytes spell.
pub(crate) fn text_of(bytes: &[u8]) -> &str {
    str::from_utf8(bytes).unwrap_or("(no UTF-8)\n")
}

/// A command with its line, and what it is to print: a whole output, and texts that are somewhere
/// in it.
#[derive(Drop)]
pub(crate) struct Row {
    pub(crate) line: usize,
    pub(crate) mark: Mark,
    /// The text after the mark.
    pub(crate) words: String,
    /// Whether the output is compared; if not, only the status is.
    pub(crate) is_compared: bool,
    pub(crate) wanted: Printed,
    /// The texts, each a line.
    pub(crate) parts: Vec<u8>,
}

impl Row {
    /// Wants one line and nothing else: a refusal is on standard error, with status 1, and `usage`
    /// is an error of the words, with status 2.
    pub(crate) fn want_line(&mut self, line: &str) -> Result<(), AllocError> {
        if line == "usage" {
            self.wanted.status = 2;
            push_line(&mut self.wanted.err, "error: ...")
        } else if line.starts_with("refused ") {
            self.wanted.status = 1;
            push_line(&mut self.wanted.err, line)
        } else {
            push_line(&mut self.wanted.out, line)
        }
    }

    /// Whether a command that printed this did what is wanted.
    pub(crate) fn is_met(&self, printed: &Printed) -> bool {
        let is_output_wanted = !self.is_compared
            || (is_wanted(&printed.out, &self.wanted.out)
                && is_wanted(&printed.err, &self.wanted.err)
                && has_parts(printed, text_of(&self.parts)));
        is_output_wanted && printed.status == self.wanted.status
    }
}

/// Whether each of these lines is somewhere in the output.
fn has_parts(printed: &Printed, parts: &str) -> bool {
    let (out, err) = (text_of(&printed.out), text_of(&printed.err));
    for part in parts.lines() {
        if !out.contains(part) && !err.contains(part) {
            return false;
        }
    }
    true
}

/// Whether the bytes are the wanted ones, in which `...` at the end of a line is any text: what is
/// before it and what is after it are two parts of the bytes.
fn is_wanted(bytes: &[u8], wanted: &[u8]) -> bool {
    let Ok(text) = str::from_utf8(bytes) else {
        return false;
    };
    let wanted = text_of(wanted);
    match wanted.rsplit_once("...\n") {
        Some((beginning, end)) => match text.strip_prefix(beginning) {
            Some(after) => after.ends_with(end),
            None => false,
        },
        None => text == wanted,
    }
}

/// Appends a line.
pub(crate) fn push_line(bytes: &mut Vec<u8>, line: &str) -> Result<(), AllocError> {
    bytes.extend_from_slice(line.as_bytes())?;
    bytes.extend_from_slice(b"\n")
}
