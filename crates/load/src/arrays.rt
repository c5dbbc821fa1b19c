//! The arrays of a manifest are declared after the existing ones.

ghost use Rattle.std.specs.Prelude.{◌<◌, length, All, IfOk, IfErr};
ghost use mathlib.Core.List.{IsPrefix};
ghost use Rattle.declarations.specs.Order.{AreDeclared};
ghost use Rattle.load.specs.Load.{RefusesArrays};

use crate::load_fault::LoadFault;
use cells::{ArrayNo, CellsFault, Directory};
use declarations::{ArrayDeclaration, RefusedArray, declare_all};
use std::alloc::Global;

/// Declares the arrays of a manifest, in their order.
pub(crate) fn declare_arrays(
    alloc: Global,
    directory: &mut Directory,
    arrays: &[ArrayDeclaration],
) -> Result<Vec<ArrayNo>, LoadFault>
    ensures declared { IfOk result (λ v.
        AreDeclared directory.old arrays.now v.items directory.new) }
    ensures within { IfOk result (λ v. All (λ n. n.number < length directory.new) v.items) }
    ensures grown { IsPrefix directory.old directory.new }
    ensures fault { IfErr result (RefusesArrays directory.old arrays.now) }
{
    match declare_all(alloc, directory, arrays) {
        Ok(numbers) => Ok(numbers),
        Err(
            RefusedArray {
                fault: CellsFault::Memory,
                ..
            },
        ) => Err(LoadFault::Memory),
        Err(RefusedArray { number, fault }) => Err(LoadFault::Cells {
            array: number,
            fault,
        }),
    }
}
