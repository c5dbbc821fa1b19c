//! From a task to its output.

ghost use Rattle.std.specs.Prelude.{IfOk, IfErr};
ghost use Rattle.cli_tasks.specs.Outputs.{IsOutput, IsRefused};

use crate::output::TaskOutput;
use crate::replays::replay_script;
use crate::task_fault::TaskFault;
use bounded_files::Disk;
use cli_base::RunArgs;
use cli_programs::{assemble_file, compile_file, list_file, run_file, verify_file};
use cli_words::Task;
use operator::{ask_server, stop_and_wait};
use std::alloc::Global;
use std::fs::File;
use std::net::{Net, TcpStream};
use std::rt::Files;
use std::time::Clock;

/// Does a task, with files of the disk; output files are written by the runtime.
// open: which bytes a device's file gives: no contract can say what a device does, so the tests run
// each command on files.
pub fn output_of<R, D>(rt: &R, disk: &D, task: &Task<'_>) -> Result<TaskOutput, TaskFault>
where
    R: Files<File = File> + AllocGlobal + Clock + Net<Stream = TcpStream>,
    D: Disk,
    ensures output { IfOk result (IsOutput (D.known disk.now) task.now) }
    ensures fault { IfErr result (IsRefused (D.known disk.now) task.now) }
{
    let alloc = rt.alloc();
    match task {
        Task::Assemble { text, out } => match assemble_file(rt, disk, text, out) {
            Ok(program) => Ok(TaskOutput::Assembled { program }),
            Err(fault) => Err(TaskFault::Program(fault)),
        },
        Task::Compile { text, shape, out } => match compile_file(rt, disk, text, shape, out) {
            Ok(slots) => Ok(TaskOutput::Compiled { slots }),
            Err(fault) => Err(TaskFault::Program(fault)),
        },
        Task::List { path } => match list_file(alloc, disk, path) {
            Ok(text) => Ok(TaskOutput::Listed { text }),
            Err(fault) => Err(TaskFault::Program(fault)),
        },
        Task::Replay { manifest, script } => match replay_script(alloc, disk, manifest, script) {
            Ok(text) => Ok(TaskOutput::Replayed { text }),
            Err(fault) => Err(fault),
        },
        Task::Run(run) => chosen(alloc, disk, run),
        Task::Send { request, port } => match ask_server(rt, *request, *port) {
            Ok(text) => Ok(TaskOutput::Replied { text }),
            Err(fault) => Err(TaskFault::Ask(fault)),
        },
        Task::StopAndWait { port } => match stop_and_wait(rt, *port) {
            Ok(text) => Ok(TaskOutput::Replied { text }),
            Err(fault) => Err(TaskFault::Ask(fault)),
        },
        Task::Verify { path, shape } => match verify_file(alloc, disk, path, shape) {
            Ok(slots) => Ok(TaskOutput::Accepted { slots }),
            Err(fault) => Err(TaskFault::Program(fault)),
        },
    }
}

// The choice of a run.
fn chosen<D: Disk>(alloc: Global, disk: &D, run: &RunArgs<'_>) -> Result<TaskOutput, TaskFault>
    ensures output { IfOk result (IsOutput (D.known disk.now) (Task.Run run.now)) }
    ensures fault { IfErr result (IsRefused (D.known disk.now) (Task.Run run.now)) }
{
    match run_file(alloc, disk, run) {
        Ok((choice, instructions)) => Ok(TaskOutput::Chosen {
            choice,
            instructions,
        }),
        Err(fault) => Err(TaskFault::Program(fault)),
    }
}
