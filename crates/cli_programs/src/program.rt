//! From a file and a declared shape to an accepted program.

ghost use Rattle.std.specs.Prelude.{IfOk, IfErr, Some};
ghost use Rattle.bounded_files.specs.Files.{Gives};
ghost use Rattle.cli_programs.specs.Programs.{IsProgramFor, IsProgramRefusal};
ghost use Rattle.cli_programs.specs.Programs.{IsShapeFor, IsShapeRefusal, IsUnreadProgram};

use crate::program_tool_fault::ProgramToolFault;
use acceptance::{ProgramFault, accept};
use bounded_files::Disk;
use bpf_verify::Verified;
use cells::{Directory, Shape};
use cli_base::DeclaredShape;
use declarations::declare_all;
use flow_check::{FlowFault, FlowRule};
use std::alloc::Global;

// The most bytes that a program can have, in the disk's type.
const MOST_PROGRAM: u32 = flow_check::MOST_PROGRAM as u32;

/// The program of a file, if it is accepted with the shape that the command line declares. The
/// shape is checked before the file is read.
// open: whether an allocation fails (N3, F9, V15); what a device's files contain.
pub fn program_of_file<D: Disk>(
    alloc: Global,
    disk: &D,
    path: &str,
    shape: &DeclaredShape,
) -> Result<Verified, ProgramToolFault>
    ensures program { IfOk result (IsProgramFor (D.known disk.now) path.now shape.now) }
    ensures fault { IfErr result (IsProgramRefusal (D.known disk.now) path.now shape.now) }
{
    let shape = declared_shape(alloc, shape)?;
    let bytes = match read_program(disk, path) {
        Ok(bytes) => bytes,
        Err(fault) => return Err(fault),
    };
    match accept(alloc, &bytes, &shape) {
        Ok(program) => Ok(program),
        Err(fault) => Err(ProgramToolFault::Program(fault)),
    }
}

/// The bytes of a program's file. Returns F7 at slot 0 if they are more than a program can have.
// open: whether an allocation fails (B4); what a device's files contain.
#[tactic(auto, using(crate::proofs::Unread::unread))]
pub fn read_program<D: Disk>(disk: &D, path: &str) -> Result<Vec<u8>, ProgramToolFault>
    ensures bytes { IfOk result (λ v. Gives (D.known disk.now) path.now (Some v.items)) }
    ensures fault { IfErr result (IsUnreadProgram (D.known disk.now) path.now) }
{
    match disk.read(path, MOST_PROGRAM) {
        Ok(Some(bytes)) => Ok(bytes),
        Ok(None) => Err(ProgramToolFault::Program(ProgramFault::Flow(FlowFault::Rule {
            slot: 0,
            rule: FlowRule::TooLong,
        }))),
        Err(fault) => Err(ProgramToolFault::Resource(fault)),
    }
}

/// The shape that the command line declares, with arrays of its own directory.
// open: whether an allocation fails (N3).
pub fn declared_shape(alloc: Global, shape: &DeclaredShape) -> Result<Shape, ProgramToolFault>
    ensures shape { IfOk result (IsShapeFor shape.now) }
    ensures fault { IfErr result (IsShapeRefusal shape.now) }
{
    let mut directory = Directory::new(alloc);
    let numbers = match declare_all(alloc, &mut directory, &shape.arrays) {
        Ok(numbers) => numbers,
        Err(refused) => return Err(ProgramToolFault::Arrays(refused.fault)),
    };
    Shape::of(alloc, shape.releases, &directory, &numbers).map_err(ProgramToolFault::Arrays)
}
