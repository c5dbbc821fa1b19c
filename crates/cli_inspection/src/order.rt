//! `order`: a program with its blocks in order.

ghost use Rattle.std.specs.Prelude.{IfOk, IfErr};
ghost use Rattle.cli_inspection.specs.Orders.{HasNoOrder, IsOrderedAs, IsOrderedFrom};
ghost use Rattle.cli_inspection.specs.Orders.{IsOrderRefusal, IsUnordered};

use acceptance::ProgramFault;
use block_order::ordered;
use bounded_files::{Disk, write_file};
use cli_programs::{ProgramToolFault, read_program};
use flow_check::FlowFault;
use std::alloc::Global;
use std::fs::File;
use std::rt::Files;

/// The program of a file, in order. It is written only if the whole program can be put in order.
// open: whether an allocation fails (F9, B4); what a device's files contain, and which bytes OUT
// got.
pub fn order_file<R: Files<File = File> + AllocGlobal, D: Disk>(
    rt: &R,
    disk: &D,
    path: &str,
    out: &str,
) -> Result<Vec<u8>, ProgramToolFault>
    ensures program { IfOk result (λ v. IsOrderedFrom (D.known disk.now) path.now v.items) }
    ensures fault { IfErr result (IsOrderRefusal (D.known disk.now) path.now) }
{
    let program = match order_of_file(rt.alloc(), disk, path) {
        Ok(program) => program,
        Err(fault) => return Err(fault),
    };
    match write_file(rt, out, &program) {
        Ok(()) => Ok(program),
        Err(fault) => Err(ProgramToolFault::Resource(fault)),
    }
}

// The program of a file, in order.
fn order_of_file<D: Disk>(alloc: Global, disk: &D, path: &str) -> Result<Vec<u8>, ProgramToolFault>
    ensures program { IfOk result (λ v. IsOrderedFrom (D.known disk.now) path.now v.items) }
    ensures fault { IfErr result (IsUnordered (D.known disk.now) path.now) }
{
    let bytes = match read_program(disk, path) {
        Ok(bytes) => bytes,
        Err(fault) => return Err(fault),
    };
    match order_of(alloc, &bytes) {
        Ok(program) => Ok(program),
        Err(fault) => Err(ProgramToolFault::Program(ProgramFault::Flow(fault))),
    }
}

// The program in these bytes, in order.
fn order_of(alloc: Global, bytes: &[u8]) -> Result<Vec<u8>, FlowFault>
    ensures program { IfOk result (λ v. IsOrderedAs bytes.now v.items) }
    ensures fault { IfErr result (HasNoOrder bytes.now) }
{
    match ordered(alloc, bytes) {
        Ok(program) => Ok(program),
        Err(fault) => Err(fault),
    }
}
