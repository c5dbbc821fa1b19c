//! The faults of the arrays after one that can't be declared, each judged together with the
//! declarable arrays before it.

ghost use Rattle.std.specs.Prelude.{◌≡◌, ◌≢◌, ◌+◌, ◌^◌, ◌<◌, ◌++◌, length, IfOk, IfSome, OnOk};
ghost use Rattle.why_refused_manifest.specs.Undeclared.{AreFaultsOfArrays, AreUndeclared};
ghost use Rattle.why_refused_manifest.specs.Undeclared.{JudgesArray};
ghost use Rattle.why_refused_manifest.specs.Undeclared.{fault_of_array};

use cells::{CellsFault, Directory};
use declarations::{ArrayDeclaration, declare_all};
use load::LoadFault;
use std::alloc::{AllocError, Global};

/// The faults of the arrays after the one with this number; None if an allocation fails, or there
/// is no such array.
pub(crate) fn faults_after_array(
    alloc: Global,
    arrays: &[ArrayDeclaration],
    array: usize,
) -> Option<Vec<LoadFault>>
    ensures { IfSome result (λ v. AreUndeclared arrays.now array v.items) }
{
    if array == 0 || array > arrays.len() {
        return None;
    }
    let mut directory = Directory::new(alloc);
    let (before, _) = arrays.split_at(array - 1);
    let Ok(_) = declare_all(alloc, &mut directory, before) else {
        return None;
    };
    let (_, behind) = arrays.split_at(array);
    let Ok(faults) = faults_of_arrays(alloc, &mut directory, array + 1, behind) else {
        return None;
    };
    Some(faults)
}

// The faults of these arrays, the first of which has this number.
fn faults_of_arrays(
    alloc: Global,
    directory: &mut Directory,
    first: usize,
    arrays: &[ArrayDeclaration],
) -> Result<Vec<LoadFault>, AllocError>
    requires { first + length arrays.now < 2 ^ 64 }
    ensures { IfOk result (λ v. AreFaultsOfArrays first directory.old arrays.now v.items) }
{
    let mut faults = Vec::new(alloc);
    let mut number = first;
    let mut left = arrays;
    while let [array, others @ ..] = left {
        let judged = judge_array(alloc, directory, array)?;
        push_cells_fault(&mut faults, number, judged)?;
        number += 1;
        left = others;
    }
    Ok(faults)
}

fn push_cells_fault(
    faults: &mut Vec<LoadFault>,
    number: usize,
    judged: Option<CellsFault>,
) -> Result<(), AllocError>
    ensures { OnOk result
        (faults.new.items ≡ faults.old.items ++ fault_of_array number judged) }
{
    let Some(fault) = judged else {
        return Ok(());
    };
    faults.push(LoadFault::Cells {
        array: number,
        fault,
    })?;
    Ok(())
}

// Declares an array, or returns its fault.
fn judge_array(
    alloc: Global,
    directory: &mut Directory,
    array: &ArrayDeclaration,
) -> Result<Option<CellsFault>, AllocError>
    ensures { IfOk result (JudgesArray array.now directory.old directory.new) }
{
    array.invariant_law();
    match directory.declare(
        alloc,
        array.name(),
        array.width(),
        array.length(),
        array.quota(),
    ) {
        Ok(_) => Ok(None),
        Err(fault) => {
            let fault = unless_refused_memory(fault)?;
            Ok(Some(fault))
        }
    }
}

// Running out of memory isn't a fault of an array.
fn unless_refused_memory(fault: CellsFault) -> Result<CellsFault, AllocError>
    ensures same { IfOk result (λ found. found ≡ fault) }
    ensures other { IfOk result (λ found. found ≢ CellsFault.Memory) }
{
    match fault {
        CellsFault::Memory => Err(AllocError),
        CellsFault::CellsFull => Ok(CellsFault::CellsFull),
        CellsFault::Redefined => Ok(CellsFault::Redefined),
    }
}
