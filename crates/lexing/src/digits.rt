//! Numbers in a radix up to 36.

ghost use Rattle.std.specs.Prelude.{◌≡◌, ◌+◌, ◌*◌, ◌≤◌};
ghost use Rattle.std.specs.Char as char;
ghost use Rattle.lexing.specs.Digits as specs;

/// The value of a digit or letter, 36 for any other byte.
pub fn digit_value(c: u8) -> u8
    ensures { result ≡ char.digit_value c }
{
    match c {
        b'0'..=b'9' => c - b'0',
        b'A'..=b'Z' => c - b'A' + 10,
        b'a'..=b'z' => c - b'a' + 10,
        _ => 36,
    }
}

/// The number with these digits, if it fits in 64 bits.
pub fn magnitude(radix: u8, digits: &[u8]) -> Option<u64>
    requires { 1 ≤ radix }
    ensures { result ≡ specs.magnitude radix digits.now }
{
    let mut n = 0u64;
    for c in digits {
        n = with_digit(n, radix, digit_value(*c))?;
    }
    Some(n)
}

// The number with one more digit, if it fits in 64 bits.
fn with_digit(n: u64, radix: u8, digit: u8) -> Option<u64>
    ensures { result ≡ specs.number_if_small (n * radix + digit) }
{
    n.checked_mul(u64::from(radix))?
        .checked_add(u64::from(digit))
}
