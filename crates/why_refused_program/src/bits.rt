//! The known bits of a number, if they say more than its range.

ghost use Rattle.std.specs.Prelude.{◌≡◌, ◌<◌, ◌≤◌, OnOk};
ghost use Rattle.bpf_text.specs.Listing.{Appends};
ghost use Rattle.why_refused_program.specs.Values as specs;

use abs_value::Number;
use std::alloc::AllocError;

// Whether the bit is known and doesn't follow from the range.
fn adds_to_range(number: Number, bit: u32) -> bool
    requires { bit < 64 }
    ensures { result ≡ specs.adds_to_range number bit }
{
    let unknown = number.bits.has ^ number.bits.may_have;
    (unknown >> bit) % 2 == 0 && number.range.lo >> bit != number.range.hi >> bit
}

// How many bits there are up to the highest one that says more.
#[tactic(auto, using(crate::proofs::Top::here, crate::proofs::Top::next, crate::proofs::Top::last))]
fn bits_beyond_range(number: Number) -> u32
    ensures bits { result ≡ specs.bits_beyond_range number 64 }
    ensures most { result ≤ 64 }
{
    let mut left = 64;
    while left > 0 {
        if adds_to_range(number, left - 1) {
            return left;
        }
        left -= 1;
    }
    0
}

fn bit_text(number: Number, bit: u32) -> &'static str
    requires { bit < 64 }
    ensures { result.now ≡ specs.bit_text number bit }
{
    let unknown = number.bits.has ^ number.bits.may_have;
    if (unknown >> bit) % 2 == 1 {
        "x"
    } else if (number.bits.has >> bit) % 2 == 1 {
        "1"
    } else {
        "0"
    }
}

fn push_lowest(text: &mut String, number: Number, count: u32) -> Result<(), AllocError>
    requires { count ≤ 64 }
    ensures { OnOk result (Appends text.old text.new (specs.lowest_bits number count)) }
{
    let mut left = count;
    while left > 0 {
        left -= 1;
        text.push_str(bit_text(number, left))?;
    }
    Ok(())
}

fn push_up_to(text: &mut String, number: Number, count: u32) -> Result<(), AllocError>
    requires { count ≤ 64 }
    ensures { OnOk result (Appends text.old text.new (specs.bits_text number count)) }
{
    if count == 0 {
        return Ok(());
    }
    text.push_str(" bits ")?;
    push_lowest(text, number, 8 * ((count + 7) / 8))?;
    Ok(())
}

/// Writes the low bytes' known bits, up to the highest byte with a bit that doesn't follow from the
/// range.
pub fn push_bits(text: &mut String, number: Number) -> Result<(), AllocError>
    ensures { OnOk result (Appends text.old text.new
        (specs.bits_text number (specs.bits_beyond_range number 64))) }
{
    push_up_to(text, number, bits_beyond_range(number))
}
