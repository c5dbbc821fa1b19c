//! One line of a file: the array that it declares, or the counter that it sets.

ghost use Rattle.std.specs.Prelude.{◌≡◌, ◌<◌, ◌==◌, IfOk, Some, None, map, nat_lt};
ghost use Rattle.std.specs.Prelude.{option_copied, if◌then◌else◌};
ghost use Rattle.std.specs.List.{slice_split};
ghost use Rattle.cells.specs.Directory as directories;
ghost use Rattle.cells.specs.Events.{AreCells, limit};
ghost use Rattle.declarations.specs.Spec.{of_fields};
ghost use Rattle.counters_file.specs.Lines as specs;

use crate::counting::can_count;
use cells::{CellArray, CellNo, CellsFault, Directory};
use declarations::{ArrayDeclaration, SpecFault, parts_of, read_fields};
use lexing::decimal_within;
use std::alloc::{AllocError, Global};

/// Adds what a line says to the arrays and values so far. Returns whether the line is right.
pub(crate) fn add_line(
    alloc: Global,
    line: &str,
    directory: &mut Directory,
    values: &mut [u64],
) -> Result<bool, AllocError>
    requires { AreCells values.old }
    ensures added { IfOk result
        (λ added. specs.with_line line.now (specs.counters directory.old values.old)
        ≡ (if added then Some (specs.counters directory.new values.new) else None)) }
    ensures cells { AreCells values.new }
{
    let fields = parts_of(alloc, line, ' ')?;
    add_fields(alloc, &fields, directory, values)
}

fn add_fields(
    alloc: Global,
    fields: &[&str],
    directory: &mut Directory,
    values: &mut [u64],
) -> Result<bool, AllocError>
    requires { AreCells values.old }
    ensures added { let old = specs.counters directory.old values.old in
        IfOk result (λ added. specs.with_fields (map (λ field. field.now) fields.now) old
        ≡ (if added then Some (specs.counters directory.new values.new) else None)) }
    ensures cells { AreCells values.new }
{
    if fields.len() == 3 {
        let index = decimal_within(fields[1], 0, u64::MAX);
        let value = decimal_within(fields[2], 0, u64::MAX);
        return Ok(set_counter(directory, fields[0], index, value, values));
    }
    let [word, others @ ..] = fields else {
        return Ok(false);
    };
    add_array_of(alloc, word, others, directory)
}

fn add_array_of(
    alloc: Global,
    word: &str,
    fields: &[&str],
    directory: &mut Directory,
) -> Result<bool, AllocError>
    ensures { IfOk result (λ added.
        specs.array_of word.now (map (λ field. field.now) fields.now) directory.old
        ≡ (if added then Some directory.new else None)) }
{
    if word == "array" {
        add_array(alloc, fields, directory)
    } else {
        Ok(false)
    }
}

// Declares the array with these fields, if it is a new one, and enough cells are left.
fn add_array(alloc: Global, fields: &[&str], directory: &mut Directory) -> Result<bool, AllocError>
    ensures { IfOk result (λ added.
        specs.array_added (of_fields (map (λ field. field.now) fields.now)) directory.old
        ≡ (if added then Some directory.new else None)) }
{
    match read_fields(alloc, fields) {
        Ok(declaration) => declare_new(alloc, &declaration, directory),
        Err(SpecFault::Malformed) => Ok(false),
        Err(SpecFault::Memory) => Err(AllocError),
    }
}

fn declare_new(
    alloc: Global,
    declaration: &ArrayDeclaration,
    directory: &mut Directory,
) -> Result<bool, AllocError>
    ensures { IfOk result (λ added. specs.array_declared declaration.now directory.old
        ≡ (if added then Some directory.new else None)) }
{
    if has_name(directory.arrays(), declaration.name()) {
        return Ok(false);
    }
    declaration.invariant_law();
    match directory.declare(
        alloc,
        declaration.name(),
        declaration.width(),
        declaration.length(),
        declaration.quota(),
    ) {
        Ok(_) => Ok(true),
        Err(CellsFault::Memory) => Err(AllocError),
        Err(CellsFault::CellsFull) => Ok(false),
        Err(CellsFault::Redefined) => Ok(false),
    }
}

fn has_name(arrays: &[CellArray], name: &str) -> bool
    ensures { result ≡ specs.has_name arrays.now name.now }
{
    let mut left = arrays;
    while let [array, others @ ..] = left {
        if array.name.as_str() == name {
            return true;
        }
        left = others;
    }
    false
}

// Sets the counter of an array, if there is one with this name and index, which is still 0, and
// the value fits.
fn set_counter(
    directory: &Directory,
    name: &str,
    index: Option<u64>,
    value: Option<u64>,
    values: &mut [u64],
) -> bool
    requires { AreCells values.old }
    ensures set { specs.counter_set directory.now name.now index value values.old
        ≡ (if result then Some values.new else None) }
    ensures cells { AreCells values.new }
{
    let Some(index) = index else {
        return false;
    };
    let Some(value) = value else {
        return false;
    };
    match array_named(directory.arrays(), name) {
        Some(array) => set_value(array, index, value, values),
        None => false,
    }
}

fn array_named<'a>(arrays: &'a [CellArray], name: &str) -> Option<&'a CellArray>
    ensures { option_copied result ≡ directories.array_named name.now arrays.now }
{
    let mut left = arrays;
    while let [array, others @ ..] = left {
        if array.name.as_str() == name {
            return Some(array);
        }
        left = others;
    }
    None
}

fn set_value(array: &CellArray, index: u64, value: u64, values: &mut [u64]) -> bool
    requires { AreCells values.old }
    ensures set { specs.value_set index value values.old array.now
        ≡ (if result then Some values.new else None) }
    ensures cells { AreCells values.new }
{
    if index >= array.length as u64 || !can_count(array.quota, value) {
        return false;
    }
    let cell = array.base as usize + index as usize;
    set_cell(cell, value, values)
}

fn set_cell(cell: usize, value: u64, values: &mut [u64]) -> bool
    requires { AreCells values.old }
    ensures set { specs.cell_set cell value values.old
        ≡ (if result then Some values.new else None) }
    ensures cells { AreCells values.new }
{
    if cell < CellNo::COUNT as usize && fits(cell, value) && values[cell] == 0 {
        values[cell] = value;
        return true;
    }
    false
}

// Whether a value has no more bits than the cell.
fn fits(cell: usize, value: u64) -> bool
    ensures { result ≡ nat_lt value (limit cell) }
{
    cell < CellNo::FIRST_NARROW as usize || value < 1 << 32
}
