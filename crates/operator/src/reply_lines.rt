//! The lines that an operator requests: the ruleset's apps, and the counters, each as it was at the
//! moment of its own load.

ghost use Rattle.std.specs.Prelude.{◌≡◌, ◌+◌, ◌++◌, ◌≤◌, All, OnOk, OnErr, IfOk};
ghost use Rattle.std.specs.String.{string_bytes};
ghost use Rattle.cells.specs.Directory.{IsDirectory};
ghost use Rattle.hot_swap.specs.Latest.{latest};
ghost use Rattle.operator.specs.Counters.{Describes, IsLoad, ReadsArrays, ReadsCells};
ghost use Rattle.operator.specs.Texts.{cell_text, ruleset_text};
ghost use Rattle.cells.specs.Grown.{Grows};

use cells::{CellArray, CellNo, CellOp, CellSteps, growth};
use hot_swap::Generation;
use ruleset::{Ruleset, push_app_lines};
use std::alloc::{AllocError, Global};
use std::fmt::Write;

/// The generation, and a line for each app.
pub fn ruleset_lines(
    alloc: Global,
    generation: Generation,
    rules: &Ruleset,
) -> Result<String, AllocError>
    ensures { IfOk result
        (λ text. string_bytes text ≡ ruleset_text (latest generation rules.now)) }
{
    let mut text = format!(in alloc; "generation {generation}\n")?;
    push_app_lines(&mut text, rules.apps())?;
    Ok(text)
}

/// A line for each cell of the arrays that isn't 0. If an allocation fails, some cells were read.
pub fn counter_lines<C: CellSteps>(
    alloc: Global,
    arrays: &[CellArray],
    cells: &C,
    pass: &mut C::Pass,
) -> Result<String, AllocError>
    requires belongs { C.belongs cells.now pass.old }
    requires directory { IsDirectory arrays.now }
    ensures belongs { C.belongs cells.now pass.new }
    ensures written { IfOk result (λ text. Grows C.grew pass.old pass.new
        (λ events. ReadsArrays arrays.now events (string_bytes text))) }
    ensures unwritten { OnErr result (Grows C.grew pass.old pass.new (All IsLoad)) }
{
    growth::<C>();
    let mut text = String::new(alloc);
    for array in arrays {
        let Ok(()) = tell_cells(&mut text, array, cells, pass) else {
            return Err(AllocError);
        };
    }
    Ok(text)
}

// Appends the lines of an array's cells to a text.
fn tell_cells<C: CellSteps>(
    text: &mut String,
    array: &CellArray,
    cells: &C,
    pass: &mut C::Pass,
) -> Result<(), AllocError>
    requires belongs { C.belongs cells.now pass.old }
    requires within { array.now.base + array.now.length ≤ 8192 }
    ensures belongs { C.belongs cells.now pass.new }
    ensures written { OnOk result (Grows C.grew pass.old pass.new
        (Describes (ReadsCells array.now array.now.length)
        (string_bytes text.old) (string_bytes text.new))) }
    ensures unwritten { OnErr result (Grows C.grew pass.old pass.new (All IsLoad)) }
{
    growth::<C>();
    for index in 0..array.length {
        let cell = CellNo::new(array.base + index);
        let value = cells.act(pass, cell, CellOp::Load);
        let Ok(()) = tell_cell(text, array, index, value) else {
            return Err(AllocError);
        };
    }
    Ok(())
}

// Appends the line of a cell to a text, unless the cell is 0.
fn tell_cell(text: &mut String, array: &CellArray, index: u16, value: u64) -> Result<(), AllocError>
    ensures { OnOk result
        (string_bytes text.new ≡ string_bytes text.old ++ cell_text array.now index value) }
{
    if value == 0 {
        return Ok(());
    }
    let name = array.name.as_str();
    writeln!(text, "{name}[{index}] {value}")
}
