//! The status of a command, and what it prints: on standard output, or on standard error.

ghost use Rattle.std.specs.Prelude.{◌≡◌, ◌≤◌, map, true, OnOk, if◌then◌else◌};
ghost use Rattle.std.specs.Io.KnownBytes.{Appends};
ghost use Rattle.cli_base.specs.Printed.{IsGiven};
ghost use Rattle.cli_tool_commands.specs.Commands.{AreWrong, IsAnswered, IsDone, IsFaultPrinted};
ghost use Rattle.cli_tool_commands.specs.Texts.{output_text, passes, warnings_of};

use crate::details::{print_details, print_unread_checked};
use crate::output::ToolOutput;
use crate::requests::output_of;
use crate::tool_fault::Fault;
use bounded_files::{Disk, ResourceFault};
use cli_base::{print_lines, print_refusal, refused, usage};
use cli_tool_words::{ToolCommand, read_tool_words};
use std::convert::AsStr;
use std::fs::File;
use std::io::{self, Write};
use std::net::{Net, TcpStream};
use std::rt::Files;
use std::time::Clock;

/// Does what the words request, the first of which is the program's name, with files of the disk.
/// Results go to `out`; refusals, usage and the warnings of `check` go to `err`, and nothing else
/// does. A simulation or a report that takes over a second prints its progress by the runtime
/// itself. The status is 0 if the command was done; 1 if it was refused, a write failed, or a
/// check, a comparison or a simulation doesn't pass; and 2 for usage.
// open: `clap`'s texts; that the status isn't 1, since a read or a write may fail at any time: the
// tests compare each command's lines and status.
pub fn command<R, D, S, O, E>(rt: &R, disk: &D, words: &[S], out: &mut O, err: &mut E) -> u8
where
    R: Files<File = File> + AllocGlobal + Clock + Eprint + Net<Stream = TcpStream>,
    D: Disk,
    S: AsStr,
    O: Write,
    E: Write,
    ensures within { result ≤ 2 }
    ensures done { result ≡ 0 → IsDone (D.known disk.now) (map S.text words.now)
        (O.contents out.old) (O.contents out.new) (IsGiven E.contents err.old err.new) }
    ensures wrong { result ≡ 2 → AreWrong (map S.text words.now) }
    ensures usage { result ≡ 2 → out.new ≡ out.old }
{
    // A command and a fault are dropped by one call, as outputs are below.
    match read_tool_words(rt.alloc(), words) {
        Ok(command) => {
            let status = perform_whole(rt, disk, &command, out, err);
            drop(command);
            status
        }
        Err(fault) => {
            let status = usage(&fault, out, err);
            drop(fault);
            status
        }
    }
}

// Does what the command says. After a check that doesn't pass, prints which files can't be read.
fn perform_whole<R, D, O, E>(
    rt: &R,
    disk: &D,
    command: &ToolCommand<'_>,
    out: &mut O,
    err: &mut E,
) -> u8
where
    R: Files<File = File> + AllocGlobal + Clock + Eprint + Net<Stream = TcpStream>,
    D: Disk,
    O: Write,
    E: Write,
    ensures within { result ≤ 1 }
    ensures done { result ≡ 0 → IsAnswered (D.known disk.now) command.now
        (O.contents out.old) (O.contents out.new) (IsGiven E.contents err.old err.new) }
{
    let status = perform(rt, disk, command, out, err);
    if status != 0 {
        print_unread_checked(rt, disk, command, err);
    }
    status
}

// Does what the command says, and prints its output, or its refusal with a second line.
fn perform<R, D, O, E>(rt: &R, disk: &D, command: &ToolCommand<'_>, out: &mut O, err: &mut E) -> u8
where
    R: Files<File = File> + AllocGlobal + Clock + Eprint + Net<Stream = TcpStream>,
    D: Disk,
    O: Write,
    E: Write,
    ensures within { result ≤ 1 }
    ensures done { result ≡ 0 → IsAnswered (D.known disk.now) command.now
        (O.contents out.old) (O.contents out.new) (IsGiven E.contents err.old err.new) }
{
    match output_of(rt, disk, command) {
        // An output and a fault are dropped by one call. Left to the end of the arm, each of their
        // many parts would be dropped by its own call.
        Ok(output) => {
            let status = print_whole(&output, out, err);
            drop(output);
            status
        }
        Err(fault) => {
            let status = refused_for(&fault, out, err);
            print_details(rt, disk, command, &fault, err);
            drop(fault);
            status
        }
    }
}

// Prints an output, and its warnings.
fn print_whole<O: Write, E: Write>(output: &ToolOutput, out: &mut O, err: &mut E) -> u8
    ensures within { result ≤ 1 }
    ensures printed { result ≡ 0 → Appends (O.contents out.old) (O.contents out.new)
        (output_text output.now) }
    ensures warned { result ≡ 0 → IsGiven E.contents err.old err.new (warnings_of output.now) }
    ensures passed { result ≡ 0 → passes output.now ≡ true }
{
    match write!(out, "{output}") {
        Ok(()) => print_warnings(output.warnings(), output.passes(), err),
        Err(_) => refused(err, &ResourceFault::File),
    }
}

// Prints warnings, if there are any, and returns the status: whether the output passes.
fn print_warnings<E: Write>(warnings: &str, passes: bool, err: &mut E) -> u8
    ensures within { result ≤ 1 }
    ensures given { result ≡ 0 → IsGiven E.contents err.old err.new warnings.now }
    ensures passed { result ≡ 0 → passes ≡ true }
{
    if warnings.is_empty() {
        return passed(passes);
    }
    match print_lines(err, warnings) {
        Ok(()) => passed(passes),
        Err(_) => 1,
    }
}

// The status of an output that was printed.
fn passed(passes: bool) -> u8
    ensures { result ≡ (if passes then 0 else 1) }
{
    if passes { 0 } else { 1 }
}

// Prints a refusal. For a program that `explain` shows up to its fault, what is known is printed on
// standard output first.
fn refused_for<O: Write, E: Write>(fault: &Fault, out: &mut O, err: &mut E) -> u8
    ensures { result ≡ 1 }
{
    if let Fault::Explained { text, .. } = fault {
        let _printed = print_lines(out, text.as_str());
    }
    let _refused = print_fault(fault, err);
    1
}

// Prints a refusal, followed by the place and the reason of a manifest's refusal.
fn print_fault<E: Write>(fault: &Fault, err: &mut E) -> io::Result<()>
    ensures { OnOk result (IsFaultPrinted fault.now (E.contents err.old) (E.contents err.new)) }
{
    print_refusal(err, fault)?;
    print_lines(err, fault.reason())
}
