//! `list`: the instructions of a file's bytes.

ghost use Rattle.std.specs.Prelude.{IfOk, IfErr};
ghost use Rattle.std.specs.String.{string_bytes};
ghost use Rattle.cli_programs.specs.Assembly.{IsListedFrom, IsListingRefusal};

use crate::program_tool_fault::ProgramToolFault;
use bounded_files::{Disk, MOST_BYTES, ResourceFault, read_within};
use bpf_text::{ListFault, listing};
use std::alloc::Global;

/// The listing of a file's bytes.
// open: whether an allocation fails; what a device's files contain.
pub fn list_file<D: Disk>(alloc: Global, disk: &D, path: &str) -> Result<String, ProgramToolFault>
    ensures text { IfOk result
        (λ text. IsListedFrom (D.known disk.now) path.now (string_bytes text)) }
    ensures fault { IfErr result (IsListingRefusal (D.known disk.now) path.now) }
{
    let bytes = match read_within(disk, path, MOST_BYTES) {
        Ok(bytes) => bytes,
        Err(fault) => return Err(ProgramToolFault::Resource(fault)),
    };
    match listing(alloc, &bytes) {
        Ok(text) => Ok(text),
        Err(ListFault::Memory) => Err(ProgramToolFault::Resource(ResourceFault::Memory)),
        Err(fault) => Err(ProgramToolFault::Bytes(fault)),
    }
}
