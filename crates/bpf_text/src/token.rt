//! The tokens of a line: words, numbers with their sign, and the marks `,` `:` `[` `]`. Spaces and
//! tabs separate tokens, and a comment goes from `;` to the line's end.

ghost use Rattle.std.specs.Prelude.{
  ◌≡◌,
  ◌∷◌,
  ⊤,
  ◌+◌,
  [],
  ◌≤◌,
  ◌<◌,
  length,
  map,
  IfOk,
  Some,
  None,
  Option,
  if◌then◌else◌,
  option_map,
  nat_lt,
};
ghost use Rattle.std.specs.Char.{digit_value};
ghost use Rattle.std.specs.List.{list_all, prefix_len};
ghost use Rattle.lexing.specs.Letter.{is_word_byte};
ghost use Rattle.bpf_text.specs.Names.{token_named, tokens_if};
ghost use Rattle.bpf_text.specs.Tokens.{
  is_blank,
  is_mark,
  mark_of,
  word_goes_on,
  pieces,
  is_numeral,
  numeral,
  unsigned_number,
  token_of,
  tokens_of,
  piece_len,
};

use lexing::{digit_value, is_letter, is_word_byte, magnitude};
use std::alloc::AllocError;

/// The sign before a number.
#[derive(Clone, Copy)]
pub enum Sign {
    Absent,
    Minus,
    Plus,
}

/// A number as written. Its magnitude is `None` if it exceeds 64 bits.
#[derive(Clone, Copy)]
pub struct Figure {
    pub sign: Sign,
    pub magnitude: Option<u64>,
}

/// One token of a line, with names of type `N`: bytes of the text in code, lists in definitions.
pub enum AsmToken<N> {
    Word(N),
    Number(Figure),
    Comma,
    Colon,
    Open,
    Close,
}

impl<N: Copy> Clone for AsmToken<N> {
    ghost is_clone = { λ x y. y ≡ x };

    ghost is_infallible = { λ _. ⊤ };

    fn clone(&self) -> Result<AsmToken<N>, AllocError> {
        Ok(*self)
    }
}

impl<N: Copy> Copy for AsmToken<N> {}

fn is_blank(c: u8) -> bool
    ensures { result ≡ is_blank c }
{
    c == b' ' || c == b'\t'
}

fn is_mark(c: u8) -> bool
    ensures { result ≡ is_mark c }
{
    c == b',' || c == b':' || c == b'[' || c == b']'
}

fn mark_of<'a>(c: u8) -> Option<AsmToken<&'a [u8]>>
    ensures { option_map token_named result ≡ mark_of c }
{
    match c {
        b',' => Some(AsmToken::Comma),
        b':' => Some(AsmToken::Colon),
        b'[' => Some(AsmToken::Open),
        b']' => Some(AsmToken::Close),
        _ => None,
    }
}

fn are_digits(radix: u8, bytes: &[u8]) -> bool
    ensures { result ≡ list_all (λ c. nat_lt (digit_value c) radix) bytes.now }
{
    bytes.iter().all(|c| digit_value(*c) < radix)
}

fn is_numeral(radix: u8, digits: &[u8]) -> bool
    ensures { result ≡ is_numeral radix digits.now }
{
    !digits.is_empty() && are_digits(radix, digits)
}

fn numeral<'a>(sign: Sign, radix: u8, digits: &[u8]) -> Option<AsmToken<&'a [u8]>>
    requires { 1 ≤ radix }
    ensures { option_map token_named result ≡ numeral sign radix digits.now }
{
    if is_numeral(radix, digits) {
        let magnitude = magnitude(radix, digits);
        Some(AsmToken::Number(Figure { sign, magnitude }))
    } else {
        None
    }
}

fn unsigned_number<'a>(piece: &[u8]) -> Option<AsmToken<&'a [u8]>>
    ensures { option_map token_named result ≡ unsigned_number piece.now }
{
    if piece.len() >= 2 && piece[0] == b'0' && piece[1] == b'x' {
        if piece.len() <= 18 {
            numeral(Sign::Absent, 16, &piece[2..])
        } else {
            None
        }
    } else {
        numeral(Sign::Absent, 10, piece)
    }
}

fn token_of<'a>(piece: &'a [u8]) -> Option<AsmToken<&'a [u8]>>
    ensures { option_map token_named result ≡ token_of piece.now }
{
    let (first, rest) = piece.split_first()?;
    let first = *first;
    if is_mark(first) {
        mark_of(first)
    } else if is_letter(first) {
        if piece.len() <= 32 {
            Some(AsmToken::Word(piece))
        } else {
            None
        }
    } else if first == b'-' {
        numeral(Sign::Minus, 10, rest)
    } else if first == b'+' {
        numeral(Sign::Plus, 10, rest)
    } else {
        unsigned_number(piece)
    }
}

// The number of letters, digits and underscores at the front.
fn name_length(s: &[u8]) -> usize
    ensures is { result ≡ prefix_len is_word_byte s.now }
    ensures within { result ≤ length s.now }
{
    let mut n = 0;
    while n < s.len() && is_word_byte(s[n]) {
        n += 1;
    }
    n
}

// The length of the piece at the front.
fn piece_length(first: u8, rest: &[u8]) -> usize
    ensures is { result ≡ piece_len first rest.now }
    ensures within { result ≤ length rest.now + 1 }
{
    if is_mark(first) {
        1
    } else {
        1 + name_length(rest)
    }
}

/// Replaces `tokens` by the tokens of a line, and returns whether the whole line is tokens.
pub fn read_tokens<'a>(
    tokens: &mut Vec<AsmToken<&'a [u8]>>,
    line: &'a [u8],
) -> Result<bool, AllocError>
    ensures { IfOk result (λ whole. tokens_of line.now ≡ tokens_if whole tokens.new.items) }
{
    tokens.clear();
    let mut rest = line;
    while let Some((first, after)) = rest.split_first() {
        if *first == b';' {
            return Ok(true);
        }
        if is_blank(*first) {
            rest = after;
            continue;
        }
        let (piece, behind) = rest.split_at(piece_length(*first, after));
        let Some(token) = token_of(piece) else {
            return Ok(false);
        };
        tokens.push(token)?;
        rest = behind;
    }
    Ok(true)
}
