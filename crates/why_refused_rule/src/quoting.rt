//! How a lexeme is printed: in quotation marks, or by the code point of its first character. No
//! clause says how; rows compare it.

use crate::lexeme::byte_at;
use printing::Printed;
use std::alloc::AllocError;
use std::fmt::Write;

fn continued_by(n: u32, c: u8) -> u32 {
    (n << 6) | u32::from(c % 64)
}

/// The code point of the first character of a text.
pub(crate) fn character_code(text: &[u8]) -> u32 {
    let first = byte_at(text, 0);
    let a = u32::from(first);
    let b = byte_at(text, 1);
    let c = byte_at(text, 2);
    if a < 192 {
        a
    } else if a < 224 {
        continued_by(a % 32, b)
    } else if a < 240 {
        continued_by(continued_by(a % 16, b), c)
    } else {
        continued_by(continued_by(continued_by(a % 8, b), c), byte_at(text, 3))
    }
}

/// Adds a lexeme, or "the text's end".
pub(crate) fn push_lexeme(text: &mut String, lexeme: &str) -> Result<(), AllocError> {
    match byte_at(lexeme.as_bytes(), 0) {
        0 if lexeme.is_empty() => text.push_str("the text's end"),
        b'"' => {
            let printed = Printed(lexeme);
            write!(text, "{printed}")
        }
        b' '..=b'~' => write!(text, "\"{lexeme}\""),
        _ => {
            let code = character_code(lexeme.as_bytes());
            write!(text, "U+{code:04X}")
        }
    }
}
