//! The second line of a refusal: the path or the port that it is about, and why, or what exists
//! instead of what the words name.

use crate::manifest_names::{print_app_names, print_arrays};
use crate::subject::{Subject, subject_of};
use crate::tool_fault::Fault;
use bounded_files::{Disk, ResourceFault, may_write_over};
use cli_logs::{ReportFault, may_be_page};
use cli_tool_words::{ReportArgs, ToolCommand};
use operator::RequestFault;
use printing::Printed;
use refusal_details::{
    print_check_hint, print_connect_fault, print_program_fault, print_read_fault,
    print_unread_manifest, print_write_fault,
};
use std::fs;
use std::io::Write;
use std::net::{Net, TcpStream};
use std::path::Path;
use std::rt::Files;

/// Prints a line about what a refused command names, if looking at it again shows the cause.
// open: the line, and when there is one: rows.
pub(crate) fn print_details<R, D, E>(
    rt: &R,
    disk: &D,
    command: &ToolCommand<'_>,
    fault: &Fault,
    err: &mut E,
)
where
    R: Files + AllocGlobal + Net<Stream = TcpStream>,
    D: Disk,
    E: Write,
{
    if let ToolCommand::Report(args) = command {
        let _printed = print_report_fault(rt, args, fault, err);
        return;
    }
    let _printed = match subject_of(command, fault) {
        Subject::Manifest(Some(path)) => {
            print_unread_manifest(rt, disk, path, err) || print_check_hint(path, err)
        }
        Subject::Arrays(old, new) => {
            print_arrays(rt.alloc(), disk, old, err)
                && (old == new || print_arrays(rt.alloc(), disk, new, err))
        }
        Subject::Apps(old, new) => {
            print_app_names(rt.alloc(), disk, old, err)
                && (old == new || print_app_names(rt.alloc(), disk, new, err))
        }
        Subject::Program(path, None) => print_program_fault(rt, disk, path, err),
        Subject::Program(path, Some(out)) => {
            print_program_fault(rt, disk, path, err) || print_write_fault(rt, out, err)
        }
        Subject::Request(path) => print_read_fault(rt, path, err),
        Subject::Picture(Some(path)) => print_picture_fault(rt, path, err),
        Subject::Server(Some(port)) => print_connect_fault(rt, port, err),
        Subject::Logs(paths) => print_unread_log(rt, paths, err),
        _ => false,
    };
}

/// Prints a line for each manifest of a check that can't be read, or one of whose files can't.
/// Nothing is printed for any other command, or if the output is JSON.
// open: the lines: rows.
pub(crate) fn print_unread_checked<R, D, E>(
    rt: &R,
    disk: &D,
    command: &ToolCommand<'_>,
    err: &mut E,
)
where
    R: Files + AllocGlobal,
    D: Disk,
    E: Write,
{
    let ToolCommand::Check(args) = command else {
        return;
    };
    if args.json {
        return;
    }
    for path in args.manifests.as_slice() {
        let _printed = print_unread_manifest(rt, disk, *path, err);
    }
}

// Why no picture can be written at a path, if that shows: the file there isn't empty and isn't a
// picture in SVG, or what `print_write_fault` prints.
fn print_picture_fault<R: Files, E: Write>(rt: &R, path: &str, err: &mut E) -> bool {
    if may_write_over(rt, path, b"<svg") {
        return print_write_fault(rt, path, err);
    }
    let path = Printed(path);
    writeln!(
        err,
        "{path}: a file that isn't empty and isn't a picture in SVG"
    )
    .is_ok()
}

// Why no page can be written at a path, if that shows, likewise.
fn print_page_fault<R, E>(rt: &R, path: &str, err: &mut E) -> bool
where
    R: Files + AllocGlobal,
    E: Write,
{
    if !is_foreign(rt, path) {
        return print_write_fault(rt, path, err);
    }
    let path = Printed(path);
    writeln!(
        err,
        "{path}: a file that isn't empty and isn't a page of a report"
    )
    .is_ok()
}

// Whether there is a file that isn't a page; it was read.
fn is_foreign<R: Files + AllocGlobal>(rt: &R, path: &str) -> bool {
    matches!(may_be_page(rt, path), Ok(false))
}

// Whether a file may be replaced by a page; none that can't be read.
fn may_replace<R: Files + AllocGlobal>(rt: &R, path: &str) -> bool {
    matches!(may_be_page(rt, path), Ok(true))
}

// A server whose counters are requested and that doesn't reply.
fn print_server_fault<R, E>(rt: &R, port: Option<u16>, fault: &RequestFault, err: &mut E) -> bool
where
    R: Net<Stream = TcpStream>,
    E: Write,
{
    match (fault, port) {
        (RequestFault::Connect, Some(port)) => print_connect_fault(rt, port, err),
        _ => false,
    }
}

// The first log that can't be read.
fn print_unread_log<R: Files, E: Write>(rt: &R, logs: &[&str], err: &mut E) -> bool {
    for path in logs {
        if print_read_fault(rt, *path, err) {
            return true;
        }
    }
    false
}

// The first log that isn't a regular file, of which a report can't continue.
fn print_irregular_log<R: Files, E: Write>(rt: &R, logs: &[&str], err: &mut E) -> bool {
    for path in logs {
        if is_irregular(rt, *path) {
            let path = Printed(*path);
            return writeln!(err, "{path}: it is no regular file").is_ok();
        }
    }
    false
}

// Whether a log's file isn't regular; a hyphen is standard input.
fn is_irregular<R: Files>(rt: &R, log: &str) -> bool {
    let path = if log == "-" { "/dev/stdin" } else { log };
    match fs::metadata(rt, path) {
        Ok(found) => !found.is_file(),
        Err(_) => false,
    }
}

// The server that doesn't reply; or the first log that can't be read, or else the state, the
// picture or the page.
fn print_report_fault<R, E>(rt: &R, args: &ReportArgs<'_>, fault: &Fault, err: &mut E) -> bool
where
    R: Files + AllocGlobal + Net<Stream = TcpStream>,
    E: Write,
{
    if let Fault::Ask(fault) = fault {
        return print_server_fault(rt, args.operator, fault, err);
    }
    if print_unread_log(rt, args.logs.as_slice(), err) {
        return true;
    }
    match (fault, args.state) {
        (Fault::Report(ReportFault::Resource(ResourceFault::File)), Some(path)) => {
            print_irregular_log(rt, args.logs.as_slice(), err)
                || print_misplaced_output(rt, args, err)
                || print_write_fault(rt, path, err)
        }
        (Fault::Resource(ResourceFault::File), _) => print_output_fault(rt, args, err),
        _ => false,
    }
}

// A picture or a page whose place shows that it can't be written.
fn print_misplaced_output<R, E>(rt: &R, args: &ReportArgs<'_>, err: &mut E) -> bool
where
    R: Files + AllocGlobal,
    E: Write,
{
    if let Some(path) = args.picture {
        if !may_write_over(rt, path, b"<svg") || is_misplaced(rt, path) {
            return print_picture_fault(rt, path, err);
        }
    }
    match args.page {
        Some(path) if !may_replace(rt, path) || is_misplaced(rt, path) => {
            print_page_fault(rt, path, err)
        }
        _ => false,
    }
}

// Whether a path is a folder's, or has a folder that isn't there.
fn is_misplaced<R: Files>(rt: &R, path: &str) -> bool {
    match fs::metadata(rt, path) {
        Ok(found) => found.is_dir(),
        Err(_) => match Path::new(path).parent() {
            Some(folder) if folder.as_str() != "" => fs::metadata(rt, folder.as_str()).is_err(),
            _ => false,
        },
    }
}

// The picture that can't be written, or else the page.
fn print_output_fault<R, E>(rt: &R, args: &ReportArgs<'_>, err: &mut E) -> bool
where
    R: Files + AllocGlobal,
    E: Write,
{
    if let Some(path) = args.picture {
        if print_picture_fault(rt, path, err) {
            return true;
        }
    }
    match args.page {
        Some(path) => print_page_fault(rt, path, err),
        None => false,
    }
}
