//! `asm`: the bytes for a text of assembly.

ghost use Rattle.std.specs.Prelude.{IfOk, IfErr};
ghost use Rattle.cli_programs.specs.Assembly.{IsAssembled, IsAssembledFrom, IsAssemblyFault};
ghost use Rattle.cli_programs.specs.Assembly.{IsAssemblyRefusal, IsTextRefusal};

use crate::program_tool_fault::ProgramToolFault;
use bounded_files::{Disk, MOST_BYTES, read_within, write_file};
use bpf_text::{AsmFault, AsmFaultKind, assemble};
use std::alloc::Global;
use std::fs::File;
use std::rt::Files;
use std::str;

/// Assembles a file's text into a program. It is written only if the whole text can be assembled.
// open: whether an allocation fails (A7, B4); what a device's files contain, and which bytes OUT
// got.
pub fn assemble_file<R: Files<File = File> + AllocGlobal, D: Disk>(
    rt: &R,
    disk: &D,
    text: &str,
    out: &str,
) -> Result<Vec<u8>, ProgramToolFault>
    ensures program { IfOk result (λ v. IsAssembledFrom (D.known disk.now) text.now v.items) }
    ensures fault { IfErr result (IsAssemblyRefusal (D.known disk.now) text.now) }
{
    let program = match program_of_text(rt.alloc(), disk, text) {
        Ok(program) => program,
        Err(fault) => return Err(fault),
    };
    match write_file(rt, out, &program) {
        Ok(()) => Ok(program),
        Err(fault) => Err(ProgramToolFault::Resource(fault)),
    }
}

// The program that a file's text assembles to.
fn program_of_text<D: Disk>(
    alloc: Global,
    disk: &D,
    path: &str,
) -> Result<Vec<u8>, ProgramToolFault>
    ensures program { IfOk result (λ v. IsAssembledFrom (D.known disk.now) path.now v.items) }
    ensures fault { IfErr result (IsTextRefusal (D.known disk.now) path.now) }
{
    let bytes = match read_within(disk, path, MOST_BYTES) {
        Ok(bytes) => bytes,
        Err(fault) => return Err(ProgramToolFault::Resource(fault)),
    };
    match assembled(alloc, &bytes) {
        Ok(program) => Ok(program),
        Err(fault) => Err(ProgramToolFault::Text(fault)),
    }
}

// The program that the text in these bytes assembles to.
fn assembled(alloc: Global, bytes: &[u8]) -> Result<Vec<u8>, AsmFault>
    ensures program { IfOk result (λ v. IsAssembled v.items bytes.now) }
    ensures fault { IfErr result (IsAssemblyFault bytes.now) }
{
    let Ok(text) = str::from_utf8(bytes) else {
        return Err(AsmFault::At {
            line: 1,
            kind: AsmFaultKind::Token,
        });
    };
    assemble(alloc, text)
}
