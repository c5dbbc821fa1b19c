//! From a task to the status, with what is printed on the way.

ghost use Rattle.std.specs.Prelude.{◌≡◌, ◌≤◌};
ghost use Rattle.cli_base.specs.Printed.{IsGiven};
ghost use Rattle.cli_tasks.specs.Answered.{IsAnswered};

use crate::details::print_details;
use crate::halt_note::print_halt_note;
use crate::removed_apps::{apps_shown, print_removed_apps};
use crate::requests::output_of;
use crate::task_fault::TaskFault;
use bounded_files::Disk;
use cli_base::{print_output, refused};
use cli_words::Task;
use std::fs::File;
use std::io::Write;
use std::net::{Net, TcpStream};
use std::rt::Files;
use std::time::Clock;

/// Does a task, with files of the disk, and returns the status. The output goes to `out`, and only
/// a refusal to `err`, with a second line if `verbose`. The runtime itself then writes to standard
/// error which apps a load removed, if `verbose`, and how long a halt lasts. The status is 0 if the
/// task was done, and 1 if it was refused, or a write failed.
// open: the lines of a refusal; that the status isn't 1, since a read or a write may fail at any
// time: rows.
pub fn perform<R, D, O, E>(
    rt: &R,
    disk: &D,
    task: &Task<'_>,
    verbose: bool,
    out: &mut O,
    err: &mut E,
) -> u8
where
    R: Files<File = File> + AllocGlobal + Clock + Eprint + Net<Stream = TcpStream>,
    D: Disk,
    O: Write,
    E: Write,
    ensures within { result ≤ 1 }
    ensures done { result ≡ 0 → IsAnswered (D.known disk.now) task.now
        (O.contents out.old) (O.contents out.new) (IsGiven E.contents err.old err.new) }
{
    let before = apps_shown(rt, task, verbose);
    let status = answer(rt, disk, task, verbose, out, err);
    if status == 0 {
        print_removed_apps(rt, task, before.as_str());
        print_halt_note(rt, task);
    }
    status
}

// Does a task, and prints its output, or why it is refused.
fn answer<R, D, O, E>(
    rt: &R,
    disk: &D,
    task: &Task<'_>,
    verbose: bool,
    out: &mut O,
    err: &mut E,
) -> u8
where
    R: Files<File = File> + AllocGlobal + Clock + Eprint + Net<Stream = TcpStream>,
    D: Disk,
    O: Write,
    E: Write,
    ensures within { result ≤ 1 }
    ensures done { result ≡ 0 → IsAnswered (D.known disk.now) task.now
        (O.contents out.old) (O.contents out.new) (IsGiven E.contents err.old err.new) }
{
    match output_of(rt, disk, task) {
        // A value of many parts is dropped by one call. Left to the end of the arm, each of its
        // parts would be dropped by its own call.
        Ok(output) => {
            let status = print_output(&output, out, err);
            drop(output);
            status
        }
        Err(fault) => refuse(rt, disk, task, fault, verbose, err),
    }
}

// Prints why a task is refused, with the second line if `verbose`. Returns the status.
fn refuse<R, D, E>(
    rt: &R,
    disk: &D,
    task: &Task<'_>,
    fault: TaskFault,
    verbose: bool,
    err: &mut E,
) -> u8
where
    R: Files + AllocGlobal + Net<Stream = TcpStream>,
    D: Disk,
    E: Write,
    ensures { result ≡ 1 }
{
    let status = refused(err, &fault);
    if verbose {
        print_details(rt, disk, task, &fault, err);
    }
    drop(fault);
    status
}
