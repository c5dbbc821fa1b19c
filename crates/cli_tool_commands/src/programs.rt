//! `explain` and `trace`: the outputs of commands that show what a program does.

ghost use Rattle.std.specs.Prelude.{IfOk, IfErr};
ghost use Rattle.cli_tool_commands.specs.Outputs.{IsExplainedOutput, IsExplainedRefusal, IsOutput};
ghost use Rattle.cli_tool_commands.specs.Outputs.{IsRefused};

use crate::output::ToolOutput;
use crate::tool_fault::Fault;
use bounded_files::Disk;
use cli_base::{DeclaredShape, RunArgs};
use cli_inspection::{ExplainedProgram, explain_file, trace_file};
use cli_tool_words::ToolCommand;
use std::alloc::Global;

/// What is known about a program. If a rule refuses it, that is the fault, which has the text.
pub(crate) fn explained<D: Disk>(
    alloc: Global,
    disk: &D,
    path: &str,
    shape: &DeclaredShape,
) -> Result<ToolOutput, Fault>
    ensures output { IfOk result (IsExplainedOutput (D.known disk.now) path.now shape.now) }
    ensures fault { IfErr result (IsExplainedRefusal (D.known disk.now) path.now shape.now) }
{
    let ExplainedProgram { text, refused } = match explain_file(alloc, disk, path, shape) {
        Ok(explained) => explained,
        Err(fault) => return Err(Fault::Program(fault)),
    };
    match refused {
        None => Ok(ToolOutput::Explained { text }),
        Some(refused) => Err(Fault::Explained { text, refused }),
    }
}

/// The result of a run, preceded by a line for each instruction.
pub(crate) fn traced<D: Disk>(
    alloc: Global,
    disk: &D,
    run: &RunArgs<'_>,
) -> Result<ToolOutput, Fault>
    ensures output { IfOk result (IsOutput (D.known disk.now) (ToolCommand.Trace run.now)) }
    ensures fault { IfErr result (IsRefused (D.known disk.now) (ToolCommand.Trace run.now)) }
{
    let traced = match trace_file(alloc, disk, run) {
        Ok(traced) => traced,
        Err(fault) => return Err(Fault::Program(fault)),
    };
    Ok(ToolOutput::Traced {
        lines: traced.text,
        choice: traced.choice,
        instructions: traced.count,
    })
}
