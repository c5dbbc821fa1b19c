//! The lexemes of a rule's text, byte by byte: the kind of each byte, and at which a lexeme begins.

/// The kind of lexeme that a byte belongs to.
#[derive(Clone, Copy)]
pub(crate) enum Lexeme {
    /// No lexeme: a blank or a line end.
    Blank,
    /// No lexeme: a comment, from `#` to the line's end.
    Remark,
    /// Letters, digits, `_` and dots.
    Word,
    /// `<`, `=`, `>` and `!`.
    Relation,
    /// A text, from its first quotation mark on.
    Quoted,
    /// The second quotation mark of a text.
    Unquote,
    /// Characters outside ASCII.
    Foreign,
    /// Another character, which is a whole lexeme.
    Mark,
}

/// A byte of a text, or 0 after its end.
pub(crate) fn byte_at(text: &[u8], place: usize) -> u8 {
    match text.get(place) {
        Some(c) => *c,
        None => 0,
    }
}

fn divides(c: u8, next: u8) -> bool {
    c == b' ' || c == b'\t' || c == b'\n' || (c == b'\r' && next == b'\n')
}

/// A letter, a digit, `_` or a dot.
pub(crate) fn is_word(c: u8) -> bool {
    c.is_ascii_alphabetic() || c == b'_' || c.is_ascii_digit() || c == b'.'
}

/// A character of a comparison.
pub(crate) fn is_relation(c: u8) -> bool {
    c == b'<' || c == b'=' || c == b'>' || c == b'!'
}

fn fresh(c: u8, next: u8) -> Lexeme {
    if divides(c, next) {
        Lexeme::Blank
    } else if c == b'#' {
        Lexeme::Remark
    } else if is_word(c) {
        Lexeme::Word
    } else if is_relation(c) {
        Lexeme::Relation
    } else if c == b'"' {
        Lexeme::Quoted
    } else if 128 <= c {
        Lexeme::Foreign
    } else {
        Lexeme::Mark
    }
}

/// The kind of byte `c`, given the kind of the byte before it and the byte after it.
pub(crate) fn lexeme_after(before: Lexeme, c: u8, next: u8) -> Lexeme {
    match before {
        Lexeme::Remark => if c == b'\n' {
            Lexeme::Blank
        } else {
            Lexeme::Remark
        },
        Lexeme::Quoted => quoted_after(c),
        _ => fresh(c, next),
    }
}

fn quoted_after(c: u8) -> Lexeme {
    match c {
        b'"' => Lexeme::Unquote,
        b'\n' => Lexeme::Blank,
        _ => Lexeme::Quoted,
    }
}

/// Whether a lexeme begins at a byte of kind `now` after a byte of kind `before`.
pub(crate) fn begins_lexeme(before: Lexeme, now: Lexeme) -> bool {
    match (before, now) {
        (_, Lexeme::Blank | Lexeme::Remark | Lexeme::Unquote) => false,
        (Lexeme::Word, Lexeme::Word) => false,
        (Lexeme::Relation, Lexeme::Relation) => false,
        (Lexeme::Quoted, Lexeme::Quoted) => false,
        (Lexeme::Foreign, Lexeme::Foreign) => false,
        _ => true,
    }
}

/// Whether a byte is a carriage return without a line feed.
pub(crate) fn is_lone(now: Lexeme, c: u8) -> bool {
    match now {
        Lexeme::Mark => c == b'\r',
        _ => false,
    }
}

/// Whether a byte belongs to a lexeme.
pub(crate) fn is_kept(now: Lexeme) -> bool {
    match now {
        Lexeme::Blank | Lexeme::Remark => false,
        _ => true,
    }
}
