//! The arrays of a program's shape: which of them an instruction or an address names, the width of
//! their cells, and whether they have a quota.

ghost use Rattle.std.specs.Prelude.{◌≡◌, ◌+◌, ◌≤◌};
ghost use Rattle.std.specs.List.{list_any};
ghost use Rattle.bpf_checks.specs.Arrays as arrays;

use abs_value::{Abs, Number, Origin};
use bpf_insn::WideValue;
use cells::{CellArray, CellNo, CellWidth, Shape};

/// The cell at a byte offset from the array's first cell, if it belongs to the array.
fn cell_after(array: &CellArray, offset: u32) -> Option<u16>
    requires { array.now.base + array.now.length ≤ 8192 }
    ensures { result ≡ arrays.cell_after array.now offset }
{
    if offset % 8 == 0 && offset / 8 < array.length as u32 {
        Some(array.base + (offset / 8) as u16)
    } else {
        None
    }
}

/// The value of a wide load; `None` if the shape has no such array, or the array no such cell.
pub fn wide(shape: &Shape, value: WideValue) -> Option<Abs>
    ensures { result ≡ arrays.wide_abs shape.now value }
{
    match value {
        WideValue::Number(n) => Some(Abs::Num(Number::single(n))),
        WideValue::Map(map) => {
            let index = u32::try_from(map).ok()?;
            let _array = shape.arrays().get(index as usize)?;
            Some(Abs::Map { index })
        }
        WideValue::Cell { array, offset } => {
            shape.invariant_law();
            let array = shape.arrays().get(usize::try_from(array).ok()?)?;
            let cell = cell_after(array, u32::try_from(offset).ok()?)?;
            Some(Abs::Cell(Origin::Fixed(cell)))
        }
    }
}

fn width_bits(width: CellWidth) -> u16
    ensures { result ≡ arrays.width_bits width }
{
    match width {
        CellWidth::Bits32 => 32,
        CellWidth::Bits64 => 64,
    }
}

/// The number of bits of a cell, by the origin of its address.
pub fn origin_bits(shape: &Shape, origin: Origin) -> u16
    ensures { result ≡ arrays.origin_bits shape.now origin }
{
    match origin {
        Origin::Found(call) => match shape.arrays().get(call.array as usize) {
            Some(array) => width_bits(array.width),
            None => 0,
        },
        Origin::Fixed(cell) => { if cell < CellNo::FIRST_NARROW { 64 } else { 32 } }
    }
}

/// Whether the cell belongs to the array, and the array has a quota.
fn has_quota_cell(array: &CellArray, cell: u16) -> bool
    ensures { result ≡ arrays.has_quota_cell cell array.now }
{
    array.quota.is_some() && array.base <= cell && cell - array.base < array.length
}

/// Whether the cell belongs to an array that has a quota.
fn have_quota_cell(among: &[CellArray], cell: u16) -> bool
    ensures { result ≡ list_any (arrays.has_quota_cell cell) among.now }
{
    let mut left = among;
    while let [array, rest @ ..] = left {
        if has_quota_cell(array, cell) {
            return true;
        }
        left = rest;
    }
    false
}

/// Whether it is the address of a cell in an array that has a quota.
pub fn has_quota(shape: &Shape, origin: Origin) -> bool
    ensures { result ≡ arrays.has_quota shape.now origin }
{
    match origin {
        Origin::Found(call) => match shape.arrays().get(call.array as usize) {
            Some(array) => array.quota.is_some(),
            None => false,
        },
        Origin::Fixed(cell) => have_quota_cell(shape.arrays(), cell),
    }
}
