//! Arrays of cells, as they are declared: by name, each over cells of one width.

ghost use Rattle.std.specs.Prelude.{◌≡◌, ◌↔◌, IfOk, IsTrue};
ghost use Rattle.std.specs.List.{list_all};
ghost use Rattle.cells.specs.Arrays as array;
ghost use Rattle.cells.specs.Names.{IsName};
ghost use Rattle.cells.specs.Names as names;
ghost use Rattle.lexing.specs.Letter.{is_word_byte};

use lexing::{is_letter, is_word_byte};
use std::alloc::{AllocError, Global};
use std::marker::Model;

/// The width of an array's cells.
#[derive(Clone, Copy, PartialEq, Eq)]
pub enum CellWidth {
    Bits32,
    Bits64,
}

impl CellWidth {
    /// The number of cells of each width, which is also the most that an array has.
    pub const CELLS: u16 = 4096;
}

/// The first of the 4096 cells of a width.
pub fn first_cell(width: CellWidth) -> u16
    ensures { result ≡ array.first_cell width }
{
    match width {
        CellWidth::Bits64 => 0,
        CellWidth::Bits32 => CellWidth::CELLS,
    }
}

/// The name of an array: a letter or `_`, then letters, digits and `_`, at most 32 in all. Letters
/// and digits are ASCII.
#[derive(Drop)]
pub struct ArrayName {
    text: String,
}

impl Model for ArrayName {
    ghost use Rattle.std.specs.Prelude.{List, ℕ, string_bytes};
    ghost use Rattle.cells.specs.Names.{IsName};

    ghost Value = { List ℕ };

    ghost view = { λ n. string_bytes n.text };

    ghost invariant = { λ n. IsName (string_bytes n.text) };
}

impl ArrayName {
    /// The most bytes that a name has.
    pub const MOST_BYTES: usize = 32;

    /// Whether a text has the form of a name.
    pub fn is_name(text: &str) -> bool
        ensures { IsTrue result ↔ IsName text.now }
    {
        let bytes = text.as_bytes();
        bytes.len() <= ArrayName::MOST_BYTES && is_spelled(bytes)
    }

    /// A text as a name.
    // open: whether an allocation fails.
    pub fn of(alloc: Global, text: &str) -> Result<ArrayName, AllocError>
        requires { IsName text.now }
        ensures { IfOk result (λ n. n ≡ text.now) }
    {
        let text = String::from_str(alloc, text)?;
        Ok(ArrayName { text })
    }

    /// The text of the name.
    pub fn as_str(&self) -> &str
        ensures text { result.now ≡ self.now }
        ensures name { IsName result.now }
    {
        self.text.as_str()
    }
}

/// The number of an array in its directory, from 0.
#[derive(Clone, Copy, PartialEq, Eq)]
pub struct ArrayNo {
    pub number: usize,
}

/// An array of cells: the `length` cells from number `base` on. With a quota, each of its cells
/// grants that many takes, and no more.
#[derive(Drop)]
pub struct CellArray {
    pub name: ArrayName,
    pub width: CellWidth,
    pub base: u16,
    pub length: u16,
    pub quota: Option<u64>,
}

// A letter or `_`, and then letters, digits and `_`.
fn is_spelled(bytes: &[u8]) -> bool
    ensures { result ≡ names.is_spelled bytes.now }
{
    match bytes {
        [first, rest @ ..] => is_letter(*first) && goes_on(rest),
        [] => false,
    }
}

fn goes_on(bytes: &[u8]) -> bool
    ensures { result ≡ list_all is_word_byte bytes.now }
{
    bytes.iter().all(|byte| is_word_byte(*byte))
}

impl CellArray {
    /// The greatest quota, 2^63 - 1.
    pub const MOST_QUOTA: u64 = 9223372036854775807;

    /// A copy of the array, with a name of its own.
    // open: whether an allocation fails.
    pub fn copy(&self, alloc: Global) -> Result<CellArray, AllocError>
        ensures { IfOk result (λ a. a ≡ self.now) }
    {
        let name = ArrayName::of(alloc, self.name.as_str())?;
        Ok(CellArray {
            name,
            width: self.width,
            base: self.base,
            length: self.length,
            quota: self.quota,
        })
    }
}

/// Copies of the arrays, in their order.
pub(crate) fn copies(alloc: Global, arrays: &[CellArray]) -> Result<Vec<CellArray>, AllocError>
    ensures { IfOk result (λ v. v.items ≡ arrays.now) }
{
    let mut kept = Vec::with_capacity(alloc, arrays.len())?;
    for array in arrays {
        let Ok(()) = kept.push(array.copy(alloc)?) else {
            return Err(AllocError);
        };
    }
    Ok(kept)
}
