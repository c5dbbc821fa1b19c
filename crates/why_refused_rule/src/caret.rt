//! A place in a rule's text: its line and column, and the printed line with a caret.

use crate::place::{front, line_at, line_text, pad_at};
use printing::PrintedLines;
use std::alloc::Global;
use std::str;

/// A sentence about a place, and its line with a caret. Columns are counted in characters. Returns
/// `None` if an allocation fails.
pub(crate) fn message_at(
    alloc: Global,
    text: &str,
    place: usize,
    sentence: &str,
) -> Option<String> {
    let before = str::from_utf8(front(text.as_bytes(), place)).ok()?;
    let line = line_at(before.as_bytes());
    let ahead = pad_at(alloc, before).ok()?;
    let column = ahead.len() + 1;
    let shown = PrintedLines(line_text(line, text));
    let printed = PrintedLines(before).to_string(alloc).ok()?;
    let pad = pad_at(alloc, printed.as_str()).ok()?;
    format!(in alloc; "line {line}, column {column}: {sentence}\n  {shown}\n  {pad}^\n").ok()
}
