//! The arrays of a server, by name. An array is placed after the earlier ones of its width, and
//! stays there: the directory only grows.

ghost use Rattle.std.specs.Prelude.{◌≡◌, ◌≢◌, ◌↔◌, ◌+◌, ◌≤◌, [], All};
ghost use Rattle.std.specs.Prelude.{IfOk, IfErr, OnErr, IfSome, IfNone, IsTrue};
ghost use Rattle.cells.specs.Directory.{declaration, IsDeclaration, IsDirectory, IsNamed};
ghost use Rattle.cells.specs.Directory.{HasValues, IsNew, Declares, IsRefusedDeclaration};

use crate::array::{ArrayName, ArrayNo, CellArray, CellWidth, copies, first_cell};
use crate::cells_fault::CellsFault;
use std::alloc::{AllocError, Global};
use std::marker::Model;

/// Declared arrays with distinct names, in the order of their declarations.
#[derive(Drop)]
pub struct Directory {
    arrays: Vec<CellArray>,
    /// How many cells of each width the arrays have.
    taken_64: u16,
    taken_32: u16,
}

impl Model for Directory {
    ghost use Rattle.std.specs.Prelude.{List};
    ghost use Rattle.cells.specs.declared.array.CellArray.{CellArray};
    ghost use Rattle.cells.specs.Directory.{IsDirectoryState};

    ghost Value = { List CellArray };

    ghost view = { λ d. d.arrays.items };

    ghost invariant = { λ d. IsDirectoryState d.arrays.items d.taken_64 d.taken_32 };
}

impl Directory {
    ghost use Rattle.cells.specs.Directory.{taken};

    /// A directory of no arrays.
    pub fn new(alloc: Global) -> Directory
        ensures { result ≡ [] }
    {
        Directory {
            arrays: Vec::new(alloc),
            taken_64: 0,
            taken_32: 0,
        }
    }

    /// Declares an array of 1 to 4096 cells. A quota is allowed only for 64-bit cells, and is 1 to
    /// 2^63 - 1.
    ///
    /// If the name exists with the same values, returns that array. Otherwise a new array gets the
    /// lowest cells of its width that no array has. Returns N2 if the name exists with other
    /// values, N1 if the name is new and too few cells of the width are left, and N3 if an
    /// allocation fails.
    // open: whether an allocation fails (N3).
    pub fn declare(
        &mut self,
        alloc: Global,
        name: &str,
        width: CellWidth,
        length: u16,
        quota: Option<u64>,
    ) -> Result<ArrayNo, CellsFault>
        requires { IsDeclaration (declaration name.now width length quota) }
        ensures declares { let d = declaration name.now width length quota in
            IfOk result (λ no. Declares d self.old no.number self.new) }
        ensures refused { let d = declaration name.now width length quota in
            IfErr result (λ e. IsRefusedDeclaration d self.old e) }
        ensures same { OnErr result (self.new ≡ self.old) }
    {
        if let Some(number) = number_of(&self.arrays, name) {
            if is_as_declared(&self.arrays[number], width, length, quota) {
                return Ok(ArrayNo { number });
            }
            return Err(CellsFault::Redefined);
        }
        if length > CellWidth::CELLS - self.taken(width) {
            return Err(CellsFault::CellsFull);
        }
        let name = ArrayName::of(alloc, name)?;
        self.add(name, width, length, quota)
    }

    /// A copy of the directory. Returns N3 if an allocation fails.
    // open: whether an allocation fails (N3).
    pub fn copy(&self, alloc: Global) -> Result<Directory, CellsFault>
        ensures same { IfOk result (λ d. d ≡ self.now) }
        ensures memory { IfErr result (λ e. e ≡ CellsFault.Memory) }
    {
        let arrays = copies(alloc, &self.arrays)?;
        Ok(Directory {
            arrays,
            taken_64: self.taken_64,
            taken_32: self.taken_32,
        })
    }

    /// The arrays, in the order of their numbers.
    pub fn arrays(&self) -> &[CellArray]
        ensures arrays { result.now ≡ self.now }
        ensures directory { IsDirectory result.now }
    {
        &self.arrays
    }

    // Adds an array after the earlier ones of its width.
    fn add(
        &mut self,
        name: ArrayName,
        width: CellWidth,
        length: u16,
        quota: Option<u64>,
    ) -> Result<ArrayNo, CellsFault>
        requires declaration { IsDeclaration (declaration name width length quota) }
        requires new { IsNew (declaration name width length quota) self.old }
        requires cells_fit { taken width self.old + length ≤ 4096 }
        ensures declares { let d = declaration name width length quota in
            IfOk result (λ no. Declares d self.old no.number self.new) }
        ensures memory { IfErr result (λ e. e ≡ CellsFault.Memory) }
        ensures same { OnErr result (self.new ≡ self.old) }
    {
        let number = self.arrays.len();
        let array = CellArray {
            name,
            width,
            base: first_cell(width) + self.taken(width),
            length,
            quota,
        };
        let Ok(()) = self.arrays.push(array) else {
            return Err(CellsFault::Memory);
        };
        match width {
            CellWidth::Bits64 => self.taken_64 += length,
            CellWidth::Bits32 => self.taken_32 += length,
        }
        Ok(ArrayNo { number })
    }

    // How many cells of a width the arrays have.
    fn taken(&self, width: CellWidth) -> u16
        ensures value { result ≡ taken width self.now }
        ensures cells_fit { result ≤ 4096 }
    {
        match width {
            CellWidth::Bits64 => self.taken_64,
            CellWidth::Bits32 => self.taken_32,
        }
    }
}

// The number of the array of this name.
fn number_of(arrays: &[CellArray], name: &str) -> Option<usize>
    ensures found { IfSome result (IsNamed arrays.now name.now) }
    ensures none { IfNone result (All (λ a. a.name ≢ name.now) arrays.now) }
{
    for (number, array) in arrays.iter().enumerate() {
        if array.name.as_str() == name {
            return Some(number);
        }
    }
    None
}

// Whether an array has this width, length and quota.
fn is_as_declared(array: &CellArray, width: CellWidth, length: u16, quota: Option<u64>) -> bool
    ensures { IsTrue result ↔ HasValues array.now width length quota }
{
    array.width == width && array.length == length && array.quota == quota
}
