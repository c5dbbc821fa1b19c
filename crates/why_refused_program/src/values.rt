//! What is known about a value, in words.

ghost use Rattle.std.specs.Prelude.{OnOk};
ghost use Rattle.bpf_text.specs.Listing.{Appends};
ghost use Rattle.why_refused_program.specs.Values as specs;

use crate::arrays::{push_array, push_counter, push_found};
use crate::bits::push_bits;
use abs_value::{Abs, Number, Origin, Places};
use bpf_semantics::STACK_SIZE;
use cells::Shape;
use std::alloc::AllocError;
use std::fmt::Write;

fn push_range(text: &mut String, lo: u64, hi: u64) -> Result<(), AllocError>
    ensures { OnOk result (Appends text.old text.new (specs.range_text lo hi)) }
{
    if lo == hi {
        write!(text, "{lo}")
    } else if lo == 0 && hi == u64::MAX {
        text.push_str("any number")
    } else {
        write!(text, "{lo} to {hi}")
    }
}

fn push_number(text: &mut String, number: Number) -> Result<(), AllocError>
    ensures { OnOk result (Appends text.old text.new (specs.number_text number)) }
{
    push_range(text, number.range.lo, number.range.hi)?;
    push_bits(text, number)
}

fn push_places(text: &mut String, places: Places) -> Result<(), AllocError>
    ensures { OnOk result (Appends text.old text.new (specs.place_text places.lo places.hi)) }
{
    let Places { lo, hi } = places;
    if lo == hi {
        write!(text, "context+{lo}")
    } else {
        write!(text, "context+{lo} to {hi}")
    }
}

fn push_stack(text: &mut String, place: u16) -> Result<(), AllocError>
    ensures { OnOk result (Appends text.old text.new (specs.stack_place_text place)) }
{
    let below = STACK_SIZE.saturating_sub(place);
    write!(text, "stack-{below}")
}

/// Writes what is known about a value.
pub fn push_value(text: &mut String, shape: &Shape, value: Abs) -> Result<(), AllocError>
    ensures { OnOk result (Appends text.old text.new (specs.value_text shape.now value)) }
{
    match value {
        Abs::Unusable => text.push_str("unusable"),
        Abs::Num(number) => push_number(text, number),
        Abs::Ctx(places) => push_places(text, places),
        Abs::Stk { place } => push_stack(text, place),
        Abs::Map { index } => {
            text.push_str("map ")?;
            push_array(text, shape, index)
        }
        Abs::MayCell(lookup) => {
            text.push_str("0 or ")?;
            push_found(text, shape, lookup)
        }
        Abs::Cell(Origin::Found(lookup)) => push_found(text, shape, lookup),
        Abs::Cell(Origin::Fixed(cell)) => push_counter(text, shape, cell),
    }
}
