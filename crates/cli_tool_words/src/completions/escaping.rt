//! Texts as the shells and the manual quote them.

use printing::TextBuffer;

/// Between apostrophes in zsh, there also between brackets, or between apostrophes in fish; or in
/// roff.
#[derive(Clone, Copy)]
pub(crate) enum Escaping {
    Zsh,
    ZshOption,
    Fish,
    Roff,
}

impl Escaping {
    /// What a character becomes; `None` if it stays.
    pub(crate) fn escaped(self, c: char) -> Option<&'static str> {
        match self {
            Escaping::Zsh => zsh_escaped(c),
            Escaping::ZshOption => match c {
                '[' => Some("\\["),
                ']' => Some("\\]"),
                _ => zsh_escaped(c),
            },
            Escaping::Fish => fish_escaped(c),
            Escaping::Roff => roff_escaped(c),
        }
    }
}

/// Appends a piece, escaped.
pub(crate) fn push_escaped(text: &mut TextBuffer, escaping: Escaping, piece: &str) {
    for c in piece.chars() {
        match escaping.escaped(c) {
            Some(escaped) => text.push(escaped),
            None => text.push_char(c),
        }
    }
}

fn zsh_escaped(c: char) -> Option<&'static str> {
    match c {
        '\'' => Some("'\\''"),
        '\n' => Some(" "),
        _ => None,
    }
}

fn fish_escaped(c: char) -> Option<&'static str> {
    match c {
        '\'' => Some("\\'"),
        '\\' => Some("\\\\"),
        '\n' => Some(" "),
        _ => None,
    }
}

// A line may not begin with a full stop or an apostrophe, so each begins with `\&`.
fn roff_escaped(c: char) -> Option<&'static str> {
    match c {
        '\'' => Some("\\(aq"),
        '`' => Some("\\(ga"),
        '-' => Some("\\-"),
        '\\' => Some("\\e"),
        '\n' => Some("\n\\&"),
        _ => None,
    }
}
