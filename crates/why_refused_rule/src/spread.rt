//! A rule's text with each lexeme on its own line, and the place of a lexeme in the text.

use crate::lexeme::{Lexeme, begins_lexeme, byte_at, is_kept, is_lone, lexeme_after};
use std::alloc::{AllocError, Global};

/// The text with a line end before each lexeme and after the last. So lexeme k, from 0, is in line
/// k + 2, and the text's end is one line later.
pub(crate) fn spread(alloc: Global, text: &[u8]) -> Result<Vec<u8>, AllocError> {
    let mut rows = Vec::new(alloc);
    let mut kind = Lexeme::Blank;
    for place in 0..text.len() {
        let c = text[place];
        let before = kind;
        kind = lexeme_after(before, c, byte_at(text, place + 1));
        if begins_lexeme(before, kind) {
            rows.push(b'\n')?;
        }
        if is_kept(kind) {
            rows.push(c)?;
        }
        if is_lone(kind, c) {
            rows.push(b' ')?;
        }
    }
    rows.push(b'\n')?;
    Ok(rows)
}

/// How many bytes come before the lexeme with this number, from 0; all, if there are fewer lexemes.
pub(crate) fn lexeme_start(number: usize, text: &[u8]) -> usize {
    let mut left = number;
    let mut kind = Lexeme::Blank;
    for place in 0..text.len() {
        let before = kind;
        kind = lexeme_after(before, text[place], byte_at(text, place + 1));
        if begins_lexeme(before, kind) {
            if left == 0 {
                return place;
            }
            left -= 1;
        }
    }
    text.len()
}
