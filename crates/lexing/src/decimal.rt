//! Decimal numbers: one ASCII digit or more, with no sign. Leading zeros are allowed.

ghost use Rattle.std.specs.Prelude.{◌≡◌, ◌≤◌, IfSome};
ghost use Rattle.lexing.specs.Decimal as specs;

/// A decimal number from `from` to `to`.
pub fn decimal_within(text: &str, from: u64, to: u64) -> Option<u64>
    ensures number { result ≡ specs.decimal_within from to text.now }
    ensures within { IfSome result (λ n. n ≤ to) }
{
    let number = long_number(text)?;
    if from <= number && number <= to {
        Some(number)
    } else {
        None
    }
}

// A number of 64 bits. `parse` would also allow a leading plus.
fn long_number(text: &str) -> Option<u64>
    ensures { result ≡ specs.long_number text.now }
{
    if text.starts_with('+') {
        return None;
    }
    text.parse().ok()
}
