//! `compile`: the program of a file's rule.

ghost use Rattle.std.specs.Prelude.{IfOk, IfErr};
ghost use Rattle.cli_programs.specs.Rules.{HasCompiled, IsCompileRefusal};
ghost use Rattle.cli_programs.specs.Rules.{IsRuleProgramFor, IsRuleRefusal};

use crate::program::declared_shape;
use crate::program_tool_fault::ProgramToolFault;
use acceptance::{RuleProgram, rule_program};
use bounded_files::{Disk, MOST_BYTES, read_within, write_file};
use bpf_verify::Verified;
use cli_base::DeclaredShape;
use std::alloc::Global;
use std::fs::File;
use std::rt::Files;

/// The number of slots of the program for a file's rule. The program is written only if the whole
/// rule has one.
// open: whether an allocation fails (L5, C2, N3, B4); what a device's files contain, and which
// bytes OUT got.
pub fn compile_file<R: Files<File = File> + AllocGlobal, D: Disk>(
    rt: &R,
    disk: &D,
    text: &str,
    shape: &DeclaredShape,
    out: &str,
) -> Result<usize, ProgramToolFault>
    ensures slots { IfOk result (HasCompiled (D.known disk.now) text.now shape.now) }
    ensures fault { IfErr result (IsCompileRefusal (D.known disk.now) text.now shape.now) }
{
    let program = match program_of_rule(rt.alloc(), disk, text, shape) {
        Ok(program) => program,
        Err(fault) => return Err(fault),
    };
    match write_file(rt, out, program.bytes()) {
        Ok(()) => Ok(program.len()),
        Err(fault) => Err(ProgramToolFault::Resource(fault)),
    }
}

// The program of a file's rule, with the shape that the command line declares. The shape is checked
// before the file is read.
fn program_of_rule<D: Disk>(
    alloc: Global,
    disk: &D,
    path: &str,
    shape: &DeclaredShape,
) -> Result<Verified, ProgramToolFault>
    ensures program { IfOk result (IsRuleProgramFor (D.known disk.now) path.now shape.now) }
    ensures fault { IfErr result (IsRuleRefusal (D.known disk.now) path.now shape.now) }
{
    let shape = declared_shape(alloc, shape)?;
    let bytes = match read_within(disk, path, MOST_BYTES) {
        Ok(bytes) => bytes,
        Err(fault) => return Err(ProgramToolFault::Resource(fault)),
    };
    match rule_program(alloc, bytes.as_slice(), &shape) {
        Ok(
            RuleProgram {
                program,
                rule: _rule,
            },
        ) => Ok(program),
        Err(fault) => Err(ProgramToolFault::Rule(fault)),
    }
}
