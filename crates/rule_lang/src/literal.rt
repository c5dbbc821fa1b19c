//! The texts that rules compare attributes with.

ghost use Rattle.std.specs.Prelude.{◌≡◌, IfOk};
ghost use Rattle.std.specs.List.{list_all};
ghost use Rattle.rule_lang.specs.Literals.{IsLiteral};
ghost use Rattle.rule_lang.specs.Literals as literals;

use std::alloc::{AllocError, Global};
use std::marker::Model;

/// A text of at most 64 bytes of printable ASCII, without quotation marks and backslashes.
#[derive(Drop)]
pub struct Literal {
    text: String,
}

impl Model for Literal {
    ghost use Rattle.std.specs.Prelude.{List, ℕ, string_bytes};
    ghost use Rattle.rule_lang.specs.Literals.{IsLiteral};

    ghost Value = { List ℕ };

    ghost view = { λ l. string_bytes l.text };

    ghost invariant = { λ l. IsLiteral (string_bytes l.text) };
}

// The most bytes of a literal.
const MOST_BYTES: usize = 64;

fn is_literal_byte(c: u8) -> bool
    ensures { result ≡ literals.is_literal_byte c }
{
    b' ' <= c && c <= b'~' && c != b'"' && c != b'\\'
}

fn are_literal(bytes: &[u8]) -> bool
    ensures { result ≡ list_all literals.is_literal_byte bytes.now }
{
    bytes.iter().all(|c| is_literal_byte(*c))
}

impl Literal {
    /// Whether a text has the form of a literal.
    pub fn is_literal(text: &str) -> bool
        ensures { result ≡ literals.is_literal text.now }
    {
        let bytes = text.as_bytes();
        are_literal(bytes) && bytes.len() <= MOST_BYTES
    }

    /// A literal with this text.
    // open: whether an allocation fails.
    pub fn of(alloc: Global, text: &str) -> Result<Literal, AllocError>
        requires { IsLiteral text.now }
        ensures { IfOk result (λ l. l ≡ text.now) }
    {
        let text = String::from_str(alloc, text)?;
        Ok(Literal { text })
    }

    /// The text.
    pub fn as_str(&self) -> &str
        ensures text { result.now ≡ self.now }
        ensures literal { IsLiteral result.now }
    {
        self.text.as_str()
    }
}
