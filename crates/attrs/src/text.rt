//! A text of a request; in contracts, its bytes.

ghost use Rattle.std.specs.Prelude.{◌≡◌, string_bytes, option_copied};

use std::marker::Model;

/// The text of a member of a request, as it was read.
#[derive(Drop)]
pub struct Text {
    text: String,
}

impl Model for Text {
    ghost use Rattle.std.specs.Prelude.{ℕ, List, string_bytes};

    ghost Value = { List ℕ };

    ghost view = { λ t. string_bytes t.text };
}

impl Text {
    /// The text of this string. It allocates nothing.
    pub fn new(text: String) -> Text
        ensures { result ≡ string_bytes text }
    {
        Text { text }
    }

    /// The text as a `&str`.
    pub fn as_str(&self) -> &str
        ensures { result.now ≡ self.now }
    {
        self.text.as_str()
    }

    /// The text as the `String` that it was made of.
    pub fn into_string(self) -> String
        ensures { string_bytes result ≡ self }
    {
        self.text
    }
}

/// A text that may be absent, as a `&str`.
pub(crate) fn lent(text: &Option<Text>) -> Option<&str>
    ensures { option_copied result ≡ text.now }
{
    match text {
        Some(text) => Some(text.as_str()),
        None => None,
    }
}
