//! From a command to its output.

ghost use Rattle.std.specs.Prelude.{IfOk, IfErr};
ghost use Rattle.cli_tool_commands.specs.Outputs.{IsOutput, IsRefused};

use crate::diffs::diffed;
use crate::dry_runs::dry_run_of;
use crate::logged_whys::logged_why_of;
use crate::output::ToolOutput;
use crate::programs::{explained, traced};
use crate::reports::{checked, reported};
use crate::simulations::simulated;
use crate::stages::{completed, staged};
use crate::tool_fault::Fault;
use bounded_files::Disk;
use cli_inspection::order_file;
use cli_tool_words::ToolCommand;
use std::fs::File;
use std::net::{Net, TcpStream};
use std::rt::Files;
use std::time::Clock;

/// Does what the command says, with files of the disk; output files are written by the runtime.
// open: which bytes a device's file gives: no contract can say what a device does, so the tests run
// each command on files.
pub(crate) fn output_of<R, D>(
    rt: &R,
    disk: &D,
    command: &ToolCommand<'_>,
) -> Result<ToolOutput, Fault>
where
    R: Files<File = File> + AllocGlobal + Clock + Eprint + Net<Stream = TcpStream>,
    D: Disk,
    ensures output { IfOk result (IsOutput (D.known disk.now) command.now) }
    ensures fault { IfErr result (IsRefused (D.known disk.now) command.now) }
{
    match command {
        ToolCommand::Ask(args) => dry_run_of(rt, disk, args),
        ToolCommand::Check(args) => checked(rt, disk, args),
        ToolCommand::Completion { shell } => completed(rt.alloc(), *shell),
        ToolCommand::Diff(args) => diffed(rt, disk, args),
        ToolCommand::Explain { path, shape } => explained(rt.alloc(), disk, path, shape),
        ToolCommand::Order { path, out } => match order_file(rt, disk, path, out) {
            Ok(program) => Ok(ToolOutput::Ordered { program }),
            Err(fault) => Err(Fault::Program(fault)),
        },
        ToolCommand::Report(args) => reported(rt, disk, args),
        ToolCommand::Simulate(args) => simulated(rt, disk, args),
        ToolCommand::Stage(args) => staged(rt, disk, args),
        ToolCommand::Trace(run) => traced(rt.alloc(), disk, run),
        ToolCommand::Why(args) => logged_why_of(rt, disk, args),
    }
}
