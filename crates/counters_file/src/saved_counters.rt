//! The text of a file of counters.

ghost use Rattle.std.specs.Prelude.{◌≡◌, ◌++◌, All, IfOk, OnOk, map, flat_map, string_bytes};
ghost use Rattle.std.specs.Prelude.{◌+◌, slice_index};
ghost use Rattle.cells.specs.Names.{IsName};
ghost use Rattle.declarations.specs.Texts.{width_text};
ghost use Rattle.counters_file.specs.Halts.{IsText};
ghost use Rattle.counters_file.specs.Lines as lines;
ghost use Rattle.counters_file.specs.Text as specs;

use crate::halted::push_halted;
use cells::{CellArray, CellWidth, Directory};
use std::alloc::{AllocError, Global};
use std::fmt::Write;

/// The text of these halted apps, arrays and values, which a server has that was stopped, or else
/// serves. A cell of no array has no line.
// open: whether an allocation fails.
pub fn file_text(
    alloc: Global,
    was_stopped: bool,
    halted: &[String],
    directory: &Directory,
    values: &[u64],
) -> Result<String, AllocError>
    ensures text { let counters = lines.counters directory.now values.now in
        let halted = map string_bytes halted.now in
        IfOk result (λ text. string_bytes text ≡ specs.file_text
        (record { was_stopped = was_stopped; halted = halted; counters = counters })) }
    ensures texts { IfOk result (λ _. All IsText (map string_bytes halted.now)) }
    ensures names { IfOk result (λ _. All (λ a. IsName a.name) directory.now) }
{
    let mut text = String::from_str(alloc, "rollout counters 1\n")?;
    text.push_str(state_line(was_stopped))?;
    push_halted(&mut text, halted)?;
    push_arrays(&mut text, directory.arrays())?;
    push_counters(&mut text, directory.arrays(), values)?;
    text.push_str("end\n")?;
    Ok(text)
}

fn state_line(was_stopped: bool) -> &'static str
    ensures { result.now ≡ specs.ended (specs.state_line was_stopped) }
{
    if was_stopped {
        "stopped\n"
    } else {
        "serving\n"
    }
}

fn push_arrays(text: &mut String, arrays: &[CellArray]) -> Result<(), AllocError>
    ensures text { OnOk result (string_bytes text.new ≡ string_bytes text.old
        ++ flat_map specs.ended (map lines.array_line arrays.now)) }
    ensures names { OnOk result (All (λ a. IsName a.name) arrays.now) }
{
    let mut left = arrays;
    while let [array, others @ ..] = left {
        push_array(text, array)?;
        left = others;
    }
    Ok(())
}

fn push_array(text: &mut String, array: &CellArray) -> Result<(), AllocError>
    ensures text { OnOk result (string_bytes text.new
        ≡ string_bytes text.old ++ specs.ended (lines.array_line array.now)) }
    ensures name { IsName array.now.name }
{
    let name = array.name.as_str();
    let width = width_text(array.width);
    let length = array.length;
    match array.quota {
        Some(quota) => writeln!(text, "array {name} {width} {length} {quota}"),
        None => writeln!(text, "array {name} {width} {length}"),
    }
}

fn width_text(width: CellWidth) -> &'static str
    ensures { result.now ≡ width_text width }
{
    match width {
        CellWidth::Bits64 => "64",
        CellWidth::Bits32 => "32",
    }
}

fn push_counters(text: &mut String, arrays: &[CellArray], values: &[u64]) -> Result<(), AllocError>
    ensures { OnOk result (string_bytes text.new ≡ string_bytes text.old
        ++ flat_map specs.ended (flat_map (specs.lines_of_array values.now) arrays.now)) }
{
    let mut left = arrays;
    while let [array, others @ ..] = left {
        push_counters_of(text, array, values)?;
        left = others;
    }
    Ok(())
}

fn push_counters_of(text: &mut String, array: &CellArray, values: &[u64]) -> Result<(), AllocError>
    ensures { OnOk result (string_bytes text.new ≡ string_bytes text.old
        ++ flat_map specs.ended (specs.lines_of_array values.now array.now)) }
{
    for index in 0..array.length {
        push_counter(text, array, index, value_at(values, array.base, index))?;
    }
    Ok(())
}

/// The value of a cell of an array.
pub(crate) fn value_at(values: &[u64], base: u16, index: u16) -> u64
    ensures { result ≡ slice_index values.now (base + index) }
{
    match values.get(base as usize + index as usize) {
        Some(value) => *value,
        None => 0,
    }
}

// Appends the line of a counter, unless its value is 0.
fn push_counter(
    text: &mut String,
    array: &CellArray,
    index: u16,
    value: u64,
) -> Result<(), AllocError>
    ensures { OnOk result (string_bytes text.new ≡ string_bytes text.old
        ++ flat_map specs.ended (specs.lines_of_counter array.now index value)) }
{
    if value == 0 {
        return Ok(());
    }
    let name = array.name.as_str();
    writeln!(text, "{name} {index} {value}")
}
