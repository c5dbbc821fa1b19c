//! `verify`: whether a file's program is accepted.

ghost use Rattle.std.specs.Prelude.{IfOk, IfErr};
ghost use Rattle.cli_programs.specs.Programs.{HasSlots, IsProgramRefusal};

use crate::program::program_of_file;
use crate::program_tool_fault::ProgramToolFault;
use bounded_files::Disk;
use cli_base::DeclaredShape;
use std::alloc::Global;

/// The number of slots of a file's program, if it is accepted.
// open: whether an allocation fails (N3, F9, V15); what a device's files contain.
pub fn verify_file<D: Disk>(
    alloc: Global,
    disk: &D,
    path: &str,
    shape: &DeclaredShape,
) -> Result<usize, ProgramToolFault>
    ensures slots { IfOk result (HasSlots (D.known disk.now) path.now shape.now) }
    ensures fault { IfErr result (IsProgramRefusal (D.known disk.now) path.now shape.now) }
{
    let program = program_of_file(alloc, disk, path, shape)?;
    Ok(program.len())
}
