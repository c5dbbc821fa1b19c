//! Hints on what to write instead of an unknown or misplaced lexeme, if that is obvious. No clause
//! says which; rows compare them.

use crate::lexeme::{byte_at, is_relation, is_word};
use crate::quoting::character_code;
use attrs::{attribute_named, flag_named};
use std::alloc::{AllocError, Global};

/// What to write instead of an unknown lexeme; empty if that isn't obvious.
pub(crate) fn hint(lexeme: &str) -> &'static str {
    let text = lexeme.as_bytes();
    let c = byte_at(text, 0);
    if 128 <= c {
        return character_hint(character_code(text));
    }
    if is_relation(c) {
        return ": the comparisons are <, <=, ==, !=, >= and >";
    }
    if is_word(c) {
        return ": a version is one to four numbers, joined by dots";
    }
    match c {
        b'"' => ": a text ends in its line, and has at most 64 characters of ASCII, without \\",
        b'%' => ": 1 percent is 100 buckets",
        b'&' | b'|' => ": conditions are joined by and, or and not",
        b'-' => {
            ": a number has no sign, and a day is one, counted from 2007-01-01: 2026-12-01 is 7274"
        }
        b'/' => ": a remark begins with #",
        b'\'' => ": a text is written in \"\"",
        _ => "",
    }
}

fn character_hint(n: u32) -> &'static str {
    match n {
        0xfeff => ": a byte order mark",
        0x2018..=0x201f => ": a text is written in \"\"",
        _ => "",
    }
}

/// What to write instead of the misplaced lexeme `found` at a place; empty if that isn't obvious.
/// `is_test`: a test is expected, and perhaps there is only the name of a flag or an attribute.
pub(crate) fn misplaced_hint(
    alloc: Global,
    text: &[u8],
    place: usize,
    found: &str,
    is_test: bool,
) -> Result<String, AllocError> {
    if is_test && flag_named(found).is_some() {
        return format!(in alloc; ": a flag is tested by flag {found}");
    }
    if is_test && attribute_named(found).is_some() {
        return format!(in alloc; ": an attribute is tested by attr {found} is \"..\"");
    }
    let hint = if is_test {
        ""
    } else if parts_digits(text, place) {
        ": a number has no comma"
    } else if found == "else" {
        ": a rule ends with otherwise none;"
    } else {
        ""
    };
    String::from_str(alloc, hint)
}

// Whether there is a comma between two digits.
fn parts_digits(text: &[u8], place: usize) -> bool {
    byte_at(text, place) == b','
        && byte_at(text, place.saturating_sub(1)).is_ascii_digit()
        && byte_at(text, place.saturating_add(1)).is_ascii_digit()
}
