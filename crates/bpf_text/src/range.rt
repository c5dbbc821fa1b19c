//! Whether a number fits its field, and the value that the field then has.

ghost use Rattle.std.specs.Prelude.{◌≡◌};
ghost use Rattle.bpf_text.specs.Ranges.{imm_of, wide_of, short_of, long_of};

use crate::token::{Figure, Sign};

/// A 32-bit number, signed or not, as an imm: -2147483648 to 4294967295, modulo 2 to the 32.
pub fn imm_of(figure: Figure) -> Option<i32>
    ensures { result ≡ imm_of figure }
{
    let n = figure.magnitude?;
    match figure.sign {
        Sign::Absent if n < 0x1_0000_0000 => Some((n as u32).cast_signed()),
        Sign::Minus if n <= 0x8000_0000 => Some((-(n as i64)) as i32),
        _ => None,
    }
}

/// A 64-bit number, signed or not: -2^63 to 2^64 - 1, modulo 2 to the 64.
pub fn wide_of(figure: Figure) -> Option<u64>
    ensures { result ≡ wide_of figure }
{
    let n = figure.magnitude?;
    match figure.sign {
        Sign::Absent => Some(n),
        Sign::Minus if n <= 0x8000_0000_0000_0000 => Some(0u64.wrapping_sub(n)),
        _ => None,
    }
}

/// A 16-bit offset or distance, with its sign.
pub fn short_of(figure: Figure) -> Option<i16>
    ensures { result ≡ short_of figure }
{
    let n = figure.magnitude?;
    match figure.sign {
        Sign::Plus if n < 0x8000 => Some(n as i16),
        Sign::Minus if n <= 0x8000 => Some((-(n as i32)) as i16),
        _ => None,
    }
}

/// A 32-bit distance, with its sign.
pub fn long_of(figure: Figure) -> Option<i32>
    ensures { result ≡ long_of figure }
{
    let n = figure.magnitude?;
    match figure.sign {
        Sign::Plus if n < 0x8000_0000 => Some(n as i32),
        Sign::Minus if n <= 0x8000_0000 => Some((-(n as i64)) as i32),
        _ => None,
    }
}
