//! The ASCII bytes of words.

ghost use Rattle.std.specs.Prelude.{◌≡◌};
ghost use Rattle.lexing.specs.Letter as specs;

/// A letter or `_`.
pub fn is_letter(byte: u8) -> bool
    ensures { result ≡ specs.is_letter byte }
{
    byte.is_ascii_alphabetic() || byte == b'_'
}

/// A letter, a digit or `_`.
pub fn is_word_byte(byte: u8) -> bool
    ensures { result ≡ specs.is_word_byte byte }
{
    is_letter(byte) || byte.is_ascii_digit()
}
