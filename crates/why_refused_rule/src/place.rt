//! Places in a text, each given by the bytes before it.

ghost use Rattle.std.specs.Prelude.{◌≡◌, ◌≤◌, ◌+◌, length};
ghost use Rattle.why_refused_rule.specs.Followers as specs;

use std::alloc::{AllocError, Global};

/// The first `count` bytes, or all if there are fewer.
pub(crate) fn front(text: &[u8], count: usize) -> &[u8] {
    if count < text.len() {
        &text[..count]
    } else {
        text
    }
}

/// The text of a line, counted from 1; empty after the last line.
// open: which text: rows.
pub fn line_text(number: usize, text: &str) -> &str {
    text.lines().nth(number.saturating_sub(1)).unwrap_or("")
}

/// The line of a place, from 1.
pub(crate) fn line_at(before: &[u8]) -> usize
    ensures line { result ≡ specs.line_at before.now }
    ensures within { result ≤ 1 + length before.now }
{
    let mut line = 1;
    let mut left = before;
    while let [c, rest @ ..] = left {
        if *c == b'\n' {
            line += 1;
        }
        left = rest;
    }
    line
}

/// Blanks for the characters before a place in its line; tabs are kept.
pub(crate) fn pad_at(alloc: Global, before: &str) -> Result<String, AllocError> {
    let mut pad = String::new(alloc);
    for c in before.chars() {
        match c {
            '\n' => pad.clear(),
            '\t' => pad.push_str("\t")?,
            _ => pad.push_str(" ")?,
        }
    }
    Ok(pad)
}
