//! The tokens of a rule's text. At each place the longest possible token counts.

ghost use Rattle.std.specs.Prelude.{◌≡◌, ◌≤◌, ◌∷◌, ⊤, take, length, option_map, true};
ghost use Rattle.std.specs.List.{prefix_len};
ghost use Rattle.rule_lang.specs.Named.{piece_named};
ghost use Rattle.rule_lang.specs.Tokens as tokens;
ghost use Rattle.rule_lang.specs.declared.token.Class.TheVariants.{Number as number};

use crate::keyword::{Keyword, keyword_named};
use crate::test::Comparison;
use lexing::{is_letter, is_word_byte};
use std::alloc::AllocError;

/// One token. The texts of names, numbers and literals have type `N`: slices of the text here,
/// lists of bytes in definitions.
pub enum Token<N> {
    Keyword(Keyword),
    Name(N),
    /// One number.
    Number(N),
    /// Two to four numbers, joined by dots.
    Version(N),
    /// The text between quotation marks.
    Text(N),
    Comparison(Comparison),
    Semicolon,
    Comma,
    OpenBracket,
    CloseBracket,
    Open,
    Close,
    /// The end of the text.
    End,
}

impl<N: Copy> Clone for Token<N> {
    ghost is_clone = { λ x y. y ≡ x };

    ghost is_infallible = { λ _. ⊤ };

    fn clone(&self) -> Result<Token<N>, AllocError> {
        Ok(*self)
    }
}

impl<N: Copy> Copy for Token<N> {}

/// A blank, a line's end or a token, with its number of bytes.
#[derive(Drop)]
pub enum Piece<N> {
    Blank(usize),
    LineEnd(usize),
    Token(Token<N>, usize),
}

/// A class of bytes.
#[derive(Clone, Copy)]
pub enum Class {
    Name,
    Digit,
    /// Digits and dots.
    Number,
    Literal,
    /// All bytes but the line's end; the only class that isn't only ASCII.
    Line,
}

fn is_in(class: Class, c: u8) -> bool
    ensures { result ≡ tokens.is_in class c }
{
    match class {
        Class::Name => is_word_byte(c),
        Class::Digit => c.is_ascii_digit(),
        Class::Number => c.is_ascii_digit() || c == b'.',
        Class::Literal => b' ' <= c && c <= b'~' && c != b'"' && c != b'\\',
        Class::Line => c != b'\n',
    }
}

// How many bytes at the front are in the class.
fn run_length(class: Class, s: &[u8]) -> usize
    ensures is { result ≡ prefix_len (tokens.is_in class) s.now }
    ensures within { result ≤ length s.now }
{
    let mut n = 0;
    while n < s.len() && is_in(class, s[n]) {
        n += 1;
    }
    n
}

// The first `n` bytes, or all if there are fewer.
fn front(s: &[u8], n: usize) -> &[u8]
    ensures { result.now ≡ take n s.now }
{
    if n < s.len() { &s[..n] } else { s }
}

// Whether the byte at this place is `c`.
fn has_at(s: &[u8], place: usize, c: u8) -> bool
    ensures { result ≡ tokens.has_at s.now place c }
{
    place < s.len() && s[place] == c
}

// The first `n` bytes of a run of ASCII, as a text.
fn text_in(class: Class, s: &[u8], n: usize) -> &str
    requires ascii { tokens.is_ascii class ≡ true }
    requires run { n ≤ prefix_len (tokens.is_in class) s.now }
    requires within { n ≤ length s.now }
    ensures { result.now ≡ take n s.now }
{
    match str::from_utf8(&s[..n]) {
        Ok(text) => text,
        Err(_) => unreachable!(),
    }
}

// The word at the front of `s`. The caller passes at most 32 bytes, since no word is longer.
fn word_of<'a>(s: &'a [u8]) -> Piece<&'a str>
    ensures { piece_named result ≡ tokens.word_of s.now }
{
    let n = run_length(Class::Name, s);
    let word = text_in(Class::Name, s, n);
    match keyword_named(word) {
        Some(keyword) => Piece::Token(Token::Keyword(keyword), n),
        None => Piece::Token(Token::Name(word), n),
    }
}

// The length of a dot with digits after it, which continues a number.
fn part_length(s: &[u8]) -> usize
    ensures is { result ≡ tokens.part_len s.now }
    ensures within { result ≤ length s.now }
{
    match s {
        [b'.', rest @ ..] => {
            let digits = run_length(Class::Digit, rest);
            if digits == 0 { 0 } else { 1 + digits }
        }
        _ => 0,
    }
}

// The length of a number's first n bytes and one more part.
fn with_part(s: &[u8], n: usize) -> usize
    requires within { n ≤ length s.now }
    requires run { n ≤ prefix_len (tokens.is_in number) s.now }
    ensures is { result ≡ tokens.with_part s.now n }
    ensures within { result ≤ length s.now }
    ensures run { result ≤ prefix_len (tokens.is_in number) s.now }
{
    let (_, rest) = s.split_at(n);
    n + part_length(rest)
}

// One to four numbers, joined by dots.
#[tactic(auto, using(crate::proofs::Runs::digits_run))]
fn number_at<'a>(s: &'a [u8]) -> Piece<&'a str>
    ensures { piece_named result ≡ tokens.number_at s.now }
{
    let one = run_length(Class::Digit, s);
    let n = with_part(s, with_part(s, with_part(s, one)));
    let text = text_in(Class::Number, s, n);
    if n == one {
        Piece::Token(Token::Number(text), n)
    } else {
        Piece::Token(Token::Version(text), n)
    }
}

// A literal, after its opening quotation mark.
fn text_at<'a>(rest: &'a [u8]) -> Option<Piece<&'a str>>
    ensures { option_map piece_named result ≡ tokens.text_at rest.now }
{
    let s = front(rest, 64);
    let n = run_length(Class::Literal, s);
    if has_at(rest, n, b'"') {
        let text = text_in(Class::Literal, s, n);
        Some(Piece::Token(Token::Text(text), n + 2))
    } else {
        None
    }
}

// The comparison with this first character, which may be followed by an equals sign.
fn comparison_at<'a>(c: u8, equals: bool) -> Option<Piece<&'a str>>
    ensures { option_map piece_named result ≡ tokens.comparison_at c equals }
{
    match (c, equals) {
        (b'<', true) => Some(Piece::Token(Token::Comparison(Comparison::Le), 2)),
        (b'<', false) => Some(Piece::Token(Token::Comparison(Comparison::Lt), 1)),
        (b'>', true) => Some(Piece::Token(Token::Comparison(Comparison::Ge), 2)),
        (b'>', false) => Some(Piece::Token(Token::Comparison(Comparison::Gt), 1)),
        (b'=', true) => Some(Piece::Token(Token::Comparison(Comparison::Eq), 2)),
        (b'!', true) => Some(Piece::Token(Token::Comparison(Comparison::Ne), 2)),
        _ => None,
    }
}

fn mark_at<'a>(c: u8) -> Option<Piece<&'a str>>
    ensures { option_map piece_named result ≡ tokens.mark_at c }
{
    match c {
        b';' => Some(Piece::Token(Token::Semicolon, 1)),
        b',' => Some(Piece::Token(Token::Comma, 1)),
        b'[' => Some(Piece::Token(Token::OpenBracket, 1)),
        b']' => Some(Piece::Token(Token::CloseBracket, 1)),
        b'(' => Some(Piece::Token(Token::Open, 1)),
        b')' => Some(Piece::Token(Token::Close, 1)),
        _ => None,
    }
}

fn symbol_at<'a>(c: u8, equals: bool) -> Option<Piece<&'a str>>
    ensures { option_map piece_named result ≡ tokens.symbol_at c equals }
{
    match mark_at(c) {
        Some(piece) => Some(piece),
        None => comparison_at(c, equals),
    }
}

/// The blank, line's end or token at the front of a text, if there is one. The text is passed
/// whole, and also as its first byte and the rest.
pub fn piece_of<'a>(s: &'a [u8], c: u8, rest: &'a [u8]) -> Option<Piece<&'a str>>
    requires { s.now ≡ c ∷ rest.now }
    ensures { option_map piece_named result ≡ tokens.piece_of s.now c rest.now }
{
    if c == b' ' || c == b'\t' {
        Some(Piece::Blank(1))
    } else if c == b'#' {
        Some(Piece::Blank(1 + run_length(Class::Line, rest)))
    } else if c == b'\n' {
        Some(Piece::LineEnd(1))
    } else if c == b'\r' && has_at(rest, 0, b'\n') {
        Some(Piece::LineEnd(2))
    } else if is_letter(c) {
        Some(word_of(front(s, 32)))
    } else if c.is_ascii_digit() {
        Some(number_at(s))
    } else if c == b'"' {
        text_at(rest)
    } else {
        symbol_at(c, has_at(rest, 0, b'='))
    }
}
