//! Arrays and counters by name.

ghost use Rattle.std.specs.Prelude.{◌≡◌, OnOk, option_copied};
ghost use Rattle.std.specs.List.{find};
ghost use Rattle.bpf_text.specs.Listing.{Appends};
ghost use Rattle.why_refused_program.specs.Values as specs;

use abs_value::Lookup;
use cells::{CellArray, Shape};
use std::alloc::AllocError;
use std::fmt::Write;

/// Writes the name of an array, or its number if there is no such array.
pub fn push_array(text: &mut String, shape: &Shape, index: u32) -> Result<(), AllocError>
    ensures { OnOk result (Appends text.old text.new (specs.array_text shape.now index)) }
{
    match shape.arrays().get(index as usize) {
        Some(array) => text.push_str(array.name.as_str()),
        None => write!(text, "{index}"),
    }
}

/// Writes what a lookup returns.
pub fn push_found(text: &mut String, shape: &Shape, lookup: Lookup) -> Result<(), AllocError>
    ensures { OnOk result (Appends text.old text.new (specs.found_text shape.now lookup)) }
{
    text.push_str("a cell of ")?;
    push_array(text, shape, lookup.array)?;
    let slot = lookup.slot;
    write!(text, " by slot {slot}")
}

/// Writes a counter, such as `q[0]`.
// open: whether an allocation fails.
pub fn push_counter(text: &mut String, shape: &Shape, cell: u16) -> Result<(), AllocError>
    ensures { OnOk result (Appends text.old text.new (specs.counter_text shape.now cell)) }
{
    shape.invariant_law();
    match array_of(shape.arrays(), cell) {
        Some(array) => {
            let name = array.name.as_str();
            let index = cell.saturating_sub(array.base);
            write!(text, "{name}[{index}]")
        }
        None => write!(text, "cell {cell}"),
    }
}

// The array that contains a counter.
fn array_of(arrays: &[CellArray], cell: u16) -> Option<&CellArray>
    ensures { option_copied result ≡ find (specs.holds_cell cell) arrays.now }
{
    let mut left = arrays;
    while let [array, rest @ ..] = left {
        if holds_cell(array, cell) {
            return Some(array);
        }
        left = rest;
    }
    None
}

fn holds_cell(array: &CellArray, cell: u16) -> bool
    ensures { result ≡ specs.holds_cell cell array.now }
{
    array.base <= cell && (cell as u32) < array.base as u32 + array.length as u32
}
