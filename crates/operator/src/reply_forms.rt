//! The forms of replies: the line of a generation, and lines `NAME[INDEX] VALUE` of cells. Lines
//! are cut at their line feeds, and a cell's line at its first `[` and at the first `]` after it.

ghost use Rattle.std.specs.Prelude.{◌≡◌, ◌==◌};
ghost use Rattle.std.specs.Char.{is_ascii_digit};
ghost use Rattle.std.specs.List.{list_all, position, before_first, after_first};
ghost use Rattle.lexing.specs.Letter.{is_word_byte};
ghost use Rattle.operator.specs.Replies as specs;

use cells::ArrayName;
use lexing::{is_letter, is_word_byte};

/// Whether the bytes are the line of a generation.
pub(crate) fn is_loaded(bytes: &[u8]) -> bool
    ensures { result ≡ specs.is_ended specs.is_generation_line bytes.now }
{
    bytes.ends_with(b"\n") && is_generation_line(&bytes[..bytes.len() - 1])
}

/// Whether the bytes are lines, of which the first is that of a generation.
pub(crate) fn begins_with_generation(bytes: &[u8]) -> bool
    ensures { result ≡ specs.begins_with_generation bytes.now }
{
    let (line, _rest) = parts_at(bytes, b'\n');
    bytes.ends_with(b"\n") && is_generation_line(line)
}

/// Whether the bytes are lines of cells, or empty.
pub(crate) fn are_cells(bytes: &[u8]) -> bool
    ensures { result ≡ specs.are_cells bytes.now }
{
    bytes.is_empty() || bytes.ends_with(b"\n") && are_cell_lines(&bytes[..bytes.len() - 1])
}

/// Whether the bytes are lines, of which the first is that of a generation and the last is `end`.
pub(crate) fn is_state(bytes: &[u8]) -> bool
    ensures { result ≡ specs.is_state bytes.now }
{
    begins_with_generation(bytes) && bytes.ends_with(b"\nend\n")
}

fn is_generation_line(text: &[u8]) -> bool
    ensures { result ≡ specs.is_generation_line text.now }
{
    text.starts_with(b"generation ") && is_decimal(&text[11..])
}

fn are_cell_lines(text: &[u8]) -> bool
    ensures { result ≡ specs.are_cell_lines text.now }
{
    text.split(|byte| *byte == b'\n')
        .all(|line| is_cell_line(line))
}

// NAME[INDEX] VALUE
fn is_cell_line(text: &[u8]) -> bool
    ensures { result ≡ specs.is_cell_line text.now }
{
    let (name, rest) = parts_at(text, b'[');
    is_array_name(name) && is_index_and_value(rest)
}

// INDEX] VALUE
fn is_index_and_value(text: &[u8]) -> bool
    ensures { result ≡ specs.is_index_and_value text.now }
{
    let (index, rest) = parts_at(text, b']');
    is_decimal(index) && is_blank_and_decimal(rest)
}

fn is_blank_and_decimal(text: &[u8]) -> bool
    ensures { result ≡ specs.is_blank_and_decimal text.now }
{
    match text {
        [first, rest @ ..] => *first == b' ' && is_decimal(rest),
        [] => false,
    }
}

fn is_array_name(text: &[u8]) -> bool
    ensures { result ≡ specs.is_array_name text.now }
{
    match text {
        [first, rest @ ..] => {
            is_letter(*first) && are_word_bytes(rest) && text.len() <= ArrayName::MOST_BYTES
        }
        [] => false,
    }
}

fn are_word_bytes(bytes: &[u8]) -> bool
    ensures { result ≡ list_all is_word_byte bytes.now }
{
    bytes.iter().all(|byte| is_word_byte(*byte))
}

fn is_decimal(text: &[u8]) -> bool
    ensures { result ≡ specs.is_decimal text.now }
{
    0 < text.len() && has_only_digits(text)
}

fn has_only_digits(text: &[u8]) -> bool
    ensures { result ≡ list_all is_ascii_digit text.now }
{
    text.iter().all(|byte| byte.is_ascii_digit())
}

// The bytes before the first occurrence of `at`, and those after it.
fn parts_at(bytes: &[u8], at: u8) -> (&[u8], &[u8])
    ensures before { result.0.now ≡ before_first (λ b. b == at) bytes.now }
    ensures after { result.1.now ≡ after_first (λ b. b == at) bytes.now }
{
    match first_at(bytes, at) {
        Some(i) => (&bytes[..i], &bytes[i + 1..]),
        None => (bytes, b""),
    }
}

// The index of the first occurrence of `at`.
fn first_at(bytes: &[u8], at: u8) -> Option<usize>
    ensures { result ≡ position (λ b. b == at) bytes.now }
{
    bytes.iter().position(|byte| *byte == at)
}
