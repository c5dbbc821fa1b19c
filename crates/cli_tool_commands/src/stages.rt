//! `stage` and `completion`: steps that change what the servers of a folder serve, and what shells
//! and `man` read.

ghost use Rattle.std.specs.Prelude.{IfOk, IfErr};
ghost use Rattle.bounded_files.specs.Files.{KnownFiles};
ghost use Rattle.cli_tool_commands.specs.Outputs.{IsOutput, IsRefused};

use crate::output::ToolOutput;
use crate::tool_fault::Fault;
use bounded_files::{Disk, ResourceFault};
use cli_tool_words::{Shell, StageArgs, ToolCommand, completion_text};
use stage_commands::{StageOptions, stage};
use std::alloc::Global;
use std::fs::File;
use std::net::{Net, TcpStream};
use std::rt::Files;
use std::time::Clock;

/// What was done with the folder's files and servers, or why nothing was.
// open: what `stage` leaves open.
pub(crate) fn staged<R, D>(rt: &R, disk: &D, args: &StageArgs<'_>) -> Result<ToolOutput, Fault>
where
    R: Files<File = File> + AllocGlobal + Clock + Net<Stream = TcpStream>,
    D: Disk,
    ensures output { IfOk result (IsOutput (D.known disk.now) (ToolCommand.Stage args.now)) }
    ensures fault { IfErr result (IsRefused (D.known disk.now) (ToolCommand.Stage args.now)) }
{
    match stage(rt, disk, &args.action, &options_of(args)) {
        Ok(outcome) => Ok(ToolOutput::Staged(outcome)),
        Err(_) => Err(Fault::Resource(ResourceFault::Memory)),
    }
}

fn options_of<'x>(args: &'x StageArgs<'x>) -> StageOptions<'x> {
    StageOptions {
        operators: args.operators.as_slice(),
        folder: args.folder,
        log: args.log,
        user: args.user,
        because: args.because,
        no_load: args.no_load,
        dry_run: args.dry_run,
        anyway: args.anyway,
        other_server: args.other_server,
    }
}

/// The text for a shell or for `man`.
// open: what `completion_text` leaves open.
pub(crate) fn completed(alloc: Global, shell: Shell) -> Result<ToolOutput, Fault>
    ensures output { (known : KnownFiles)
        → IfOk result (IsOutput known (ToolCommand.Completion shell)) }
    ensures fault { (known : KnownFiles)
        → IfErr result (IsRefused known (ToolCommand.Completion shell)) }
{
    match completion_text(alloc, shell) {
        Ok(text) => Ok(ToolOutput::Completed { text }),
        Err(_) => Err(Fault::Resource(ResourceFault::Memory)),
    }
}
