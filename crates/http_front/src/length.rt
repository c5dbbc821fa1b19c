//! The length of a body, from the values that give it. Numbers of any length are compared by their
//! significant digits.

ghost use Rattle.std.specs.Prelude.{◌≡◌};
ghost use Rattle.std.specs.List.{list_all};
ghost use Rattle.std.specs.Char.{is_ascii_digit};
ghost use Rattle.http_front.specs.Length.{is_decimal, significant, writes, number_within};

/// The most bytes that a body may have.
const BODY_LIMIT: usize = 1_048_576;

/// The digits from the first nonzero digit on.
pub fn significant(mut text: &[u8]) -> &[u8]
    ensures { result.now ≡ significant text.now }
{
    while let [b'0', rest @ ..] = text {
        text = rest;
    }
    text
}

// Whether all bytes are digits.
fn has_only_digits(text: &[u8]) -> bool
    ensures { result ≡ list_all is_ascii_digit text.now }
{
    text.iter().all(|c| c.is_ascii_digit())
}

// One or more digits.
fn is_decimal(text: &[u8]) -> bool
    ensures { result ≡ is_decimal text.now }
{
    0 < text.len() && has_only_digits(text)
}

/// Whether the text is a number with these significant digits.
pub fn writes(digits: &[u8], text: &[u8]) -> bool
    ensures { result ≡ writes digits.now text.now }
{
    is_decimal(text) && significant(text) == digits
}

/// The number with these digits, if a body may be that long.
pub fn number_of(digits: &[u8]) -> Option<usize>
    ensures { result ≡ number_within digits.now }
{
    let mut n = 0;
    for c in digits {
        n = n * 10 + c.saturating_sub(b'0') as usize;
        if n > BODY_LIMIT {
            return None;
        }
    }
    Some(n)
}
