//! One cell of an array, with its value.

ghost use Rattle.std.specs.Prelude.{◌≡◌, ◌≤◌, IfSome};
ghost use Rattle.cell_assignments.specs.Assignments as specs;

use lexing::decimal_within;
use std::marker::Model;

/// The greatest index of a cell in a text.
const LAST_INDEX: u64 = 65535;

/// A cell, by the name of its array and its index, and its value. The array may not exist.
#[derive(Drop)]
pub struct CellAssignment<'a> {
    array: &'a str,
    index: u16,
    value: u64,
}

impl<'a> Model for CellAssignment<'a> {
    ghost use Rattle.cell_assignments.specs.Assignments.{Assignment};

    ghost Value = { Assignment };

    ghost view = { λ c. record { array = c.array.now; index = c.index; value = c.value } };
}

impl<'a> CellAssignment<'a> {
    /// The cell of a text `NAME[INDEX]=VALUE`. The index is 0 to 65535, the value has 64 bits, both
    /// in decimal digits.
    pub fn assigned(text: &'a str) -> Option<CellAssignment<'a>>
        ensures { result ≡ specs.assigned text.now }
    {
        match text.split_once('=') {
            Some((cell, value)) => valued(cell, decimal_within(value, 0, u64::MAX)),
            None => None,
        }
    }

    /// The cell of a text `NAME[INDEX] VALUE`.
    pub fn listed(text: &'a str) -> Option<CellAssignment<'a>>
        ensures { result ≡ specs.listed text.now }
    {
        match text.split_once(' ') {
            Some((cell, value)) => valued(cell, decimal_within(value, 0, u64::MAX)),
            None => None,
        }
    }

    /// The name of its array.
    pub fn array(&self) -> &'a str
        ensures { result.now ≡ self.now.array }
    {
        self.array
    }

    /// Its index in the array.
    pub fn index(&self) -> u16
        ensures { result ≡ self.now.index }
    {
        self.index
    }

    /// Its value.
    pub fn value(&self) -> u64
        ensures { result ≡ self.now.value }
    {
        self.value
    }
}

fn valued<'a>(cell: &'a str, value: Option<u64>) -> Option<CellAssignment<'a>>
    ensures { result ≡ specs.valued cell.now value }
{
    match cell.split_once('[') {
        Some((array, rest)) => indexed(array, rest, value),
        None => None,
    }
}

fn indexed<'a>(array: &'a str, rest: &str, value: Option<u64>) -> Option<CellAssignment<'a>>
    ensures { result ≡ specs.indexed array.now rest.now value }
{
    match rest.split_once(']') {
        Some((index, behind)) => ended(array, behind, decimal_within(index, 0, LAST_INDEX), value),
        None => None,
    }
}

// Nothing follows the index.
fn ended<'a>(
    array: &'a str,
    behind: &str,
    index: Option<u64>,
    value: Option<u64>,
) -> Option<CellAssignment<'a>>
    requires { IfSome index (λ i. i ≤ 65535) }
    ensures { result ≡ specs.ended array.now behind.now index value }
{
    if behind.len() == 0 {
        of_parts(array, index, value)
    } else {
        None
    }
}

fn of_parts<'a>(
    array: &'a str,
    index: Option<u64>,
    value: Option<u64>,
) -> Option<CellAssignment<'a>>
    requires { IfSome index (λ i. i ≤ 65535) }
    ensures { result ≡ specs.of_parts array.now index value }
{
    match (index, value) {
        (Some(index), Some(value)) => Some(CellAssignment {
            array,
            index: index as u16,
            value,
        }),
        _ => None,
    }
}
