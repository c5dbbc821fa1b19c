//! Declaring a list, one declaration after another.

ghost use Rattle.std.specs.Prelude.{◌≡◌, ◌<◌, length, All};
ghost use Rattle.std.specs.Prelude.{IfOk, IfErr, OnOk, OnErr};
ghost use mathlib.Core.List.{IsPrefix};
ghost use Rattle.cells.specs.Directory.{IsRefusedDeclaration};
ghost use Rattle.declarations.specs.Order.{AreDeclared, DeclaresNext, IsRefusedArray};

use crate::declaration::ArrayDeclaration;
use cells::{ArrayNo, CellsFault, Directory};
use std::alloc::Global;

/// A refused array: its number in the list, from 1, and why.
#[derive(Clone, Copy, Debug)]
pub struct RefusedArray {
    pub number: usize,
    pub fault: CellsFault,
}

/// Declares the arrays in order, and returns their numbers; equal declarations have the same
/// number. Stops at the first that is refused, and keeps those before it.
// open: whether an allocation fails.
pub fn declare_all(
    alloc: Global,
    directory: &mut Directory,
    declarations: &[ArrayDeclaration],
) -> Result<Vec<ArrayNo>, RefusedArray>
    ensures declared { IfOk result (λ v.
        AreDeclared directory.old declarations.now v.items directory.new) }
    ensures within { IfOk result (λ v. All (λ no. no.number < length directory.new) v.items) }
    ensures grown { IsPrefix directory.old directory.new }
    ensures refused { IfErr result (λ e.
        IsRefusedArray directory.old declarations.now e.number e.fault directory.new) }
{
    let mut numbers = Vec::new(alloc);
    for (before, declaration) in declarations.iter().enumerate() {
        if let Err(fault) = declare_next(alloc, directory, declaration, &mut numbers) {
            return Err(RefusedArray {
                number: before + 1,
                fault,
            });
        }
    }
    Ok(numbers)
}

// Declares one more array.
fn declare_next(
    alloc: Global,
    directory: &mut Directory,
    declaration: &ArrayDeclaration,
    numbers: &mut Vec<ArrayNo>,
) -> Result<(), CellsFault>
    ensures declared { OnOk result (DeclaresNext declaration.now directory.old directory.new
        numbers.old.items numbers.new.items) }
    ensures refused { IfErr result (IsRefusedDeclaration declaration.now directory.old) }
    ensures same { OnErr result (directory.new ≡ directory.old) }
{
    numbers.reserve(1)?;
    declaration.invariant_law();
    let number = directory.declare(
        alloc,
        declaration.name(),
        declaration.width(),
        declaration.length(),
        declaration.quota(),
    )?;
    match numbers.push(number) {
        Ok(()) => Ok(()),
        Err(_) => Err(CellsFault::Memory),
    }
}
