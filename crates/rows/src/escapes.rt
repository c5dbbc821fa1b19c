//! Texts of one line: what their escapes spell, and the words of a command.

ghost use Rattle.std.specs.Prelude.{◌≤◌, IfSome};

use crate::printed::text_of;
use std::alloc::{AllocError, Global};
use std::io::{self, Error};

/// The value of a hexadecimal digit.
fn digit(byte: u8) -> Option<u8>
    ensures { IfSome result (λ value. value ≤ 15) }
{
    match byte {
        b'0'..=b'9' => Some(byte - b'0'),
        b'a'..=b'f' => Some(byte - b'a' + 10),
        b'A'..=b'F' => Some(byte - b'A' + 10),
        _ => None,
    }
}

/// The byte that two hexadecimal digits spell.
fn byte_of(high: u8, low: u8) -> Option<u8> {
    let high = digit(high)?;
    let low = digit(low)?;
    Some(16 * high + low)
}

/// The first byte that a text spells, and the bytes after it: ` / ` and `\n` are a line feed; `\r`,
/// `\t`, `\\` and `\xHH` are one byte each. None after a backslash with anything else.
fn spelled(left: &[u8]) -> Option<(u8, &[u8])> {
    match left {
        [] => None,
        [b'\\', b'n', after @ ..] => Some((b'\n', after)),
        [b'\\', b'r', after @ ..] => Some((b'\r', after)),
        [b'\\', b't', after @ ..] => Some((b'\t', after)),
        [b'\\', b'\\', after @ ..] => Some((b'\\', after)),
        [b'\\', b'x', high, low, after @ ..] => match byte_of(*high, *low) {
            Some(byte) => Some((byte, after)),
            None => None,
        },
        [b'\\', ..] => None,
        [b' ', b'/', b' ', after @ ..] => Some((b'\n', after)),
        [byte, after @ ..] => Some((*byte, after)),
    }
}

/// The bytes that a text spells.
pub(crate) fn unescape(alloc: Global, text: &str) -> io::Result<Vec<u8>> {
    let mut bytes = Vec::new(alloc);
    let mut left = text.as_bytes();
    for _ in 0..text.len() {
        if left.is_empty() {
            break;
        }
        let Some((byte, after)) = spelled(left) else {
            return Err(Error::other("it has an unknown escape"));
        };
        bytes.push(byte)?;
        left = after;
    }
    Ok(bytes)
}

/// Appends a word.
fn push_word(alloc: Global, words: &mut Vec<String>, word: &str) -> Result<(), AllocError> {
    let word = String::from_str(alloc, word)?;
    Ok(words.push(word)?)
}

/// Appends the word that a quoted text spells.
fn push_spelled(alloc: Global, words: &mut Vec<String>, text: &str) -> io::Result<()> {
    let word = unescape(alloc, text)?;
    Ok(push_word(alloc, words, text_of(&word))?)
}

/// Appends the words that spaces divide.
fn push_divided(alloc: Global, words: &mut Vec<String>, text: &str) -> Result<(), AllocError> {
    for word in text.split_whitespace() {
        push_word(alloc, words, word)?;
    }
    Ok(())
}

/// Appends the words of a command: spaces divide them, and two single quotes enclose one word.
fn push_words(alloc: Global, words: &mut Vec<String>, line: &str) -> io::Result<()> {
    push_word(alloc, words, "rollout")?;
    let mut is_quoted = false;
    for text in line.split('\'') {
        if is_quoted {
            push_spelled(alloc, words, text)?;
        } else {
            push_divided(alloc, words, text)?;
        }
        is_quoted = !is_quoted;
    }
    if is_quoted {
        return Ok(());
    }
    Err(Error::other("it has a quote without its second one"))
}

/// The words of a command, after the name of a program.
pub(crate) fn words_of(alloc: Global, line: &str) -> io::Result<Vec<String>> {
    let mut words = Vec::new(alloc);
    push_words(alloc, &mut words, line)?;
    Ok(words)
}
