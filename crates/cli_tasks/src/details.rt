//! The second line of a refusal, with `--verbose`: the path or the port that it is about, and why.

use crate::task_fault::TaskFault;
use bounded_files::{Disk, ResourceFault};
use cli_programs::ProgramToolFault;
use cli_words::Task;
use operator::RequestFault;
use operator_request::OperatorRequest;
use refusal_details::{
    print_connect_fault, print_load_hint, print_program_fault, print_read_fault,
    print_unread_manifest, print_write_fault,
};
use std::io::Write;
use std::net::{Net, TcpStream};
use std::rt::Files;

/// Prints a line about what a refused task names, if looking at it again shows the cause.
// open: the line, and when there is one: rows.
pub fn print_details<R, D, E>(rt: &R, disk: &D, task: &Task<'_>, fault: &TaskFault, err: &mut E)
where
    R: Files + AllocGlobal + Net<Stream = TcpStream>,
    D: Disk,
    E: Write,
{
    let _printed = match task {
        Task::Assemble { text, out } | Task::Compile { text, out, .. } => {
            print_texts_fault(rt, text, out, fault, err)
        }
        Task::List { path } | Task::Verify { path, .. } => {
            print_program_fault(rt, disk, path, err)
        }
        Task::Replay { manifest, script } => {
            print_read_fault(rt, script, err) || print_unread_manifest(rt, disk, manifest, err)
        }
        Task::Run(run) => print_program_fault(rt, disk, run.path, err),
        Task::Send { request, port } => {
            print_request_fault(rt, disk, *request, *port, fault, err)
        }
        Task::StopAndWait { port } => {
            print_request_fault(rt, disk, OperatorRequest::Stop, *port, fault, err)
        }
    };
}

// The file from which a command reads a text, and the one to which it writes a program.
fn print_texts_fault<R: Files, E: Write>(
    rt: &R,
    text: &str,
    out: &str,
    fault: &TaskFault,
    err: &mut E,
) -> bool {
    if print_read_fault(rt, text, err) {
        return true;
    }
    match fault {
        TaskFault::Program(ProgramToolFault::Resource(ResourceFault::File)) => {
            print_write_fault(rt, out, err)
        }
        _ => false,
    }
}

// A server that doesn't reply, or that refuses a request.
fn print_request_fault<R, D, E>(
    rt: &R,
    disk: &D,
    request: OperatorRequest<'_>,
    port: u16,
    fault: &TaskFault,
    err: &mut E,
) -> bool
where
    R: Files + AllocGlobal + Net<Stream = TcpStream>,
    D: Disk,
    E: Write,
{
    let words = match fault {
        TaskFault::Ask(RequestFault::Connect) => return print_connect_fault(rt, port, err),
        TaskFault::Ask(RequestFault::Refused(words)) => words.as_str(),
        _ => return false,
    };
    match request {
        OperatorRequest::Load(path) => print_load_hint(rt, disk, words, path, err),
        OperatorRequest::Halt(_) | OperatorRequest::Resume(_) if words.starts_with("B8") => {
            writeln!(
                err,
                "rollout show --operator {port} prints the server's apps"
            )
            .is_ok()
        }
        _ => false,
    }
}
