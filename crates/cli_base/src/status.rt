//! The status of a command, and what it prints: on standard output, or on standard error.

ghost use Rattle.std.specs.Prelude.{◌≡◌, ◌≤◌, OnOk, IfSome, if◌then◌else◌};
ghost use Rattle.std.specs.IoError.{error_kind};
ghost use Rattle.std.specs.Io.KnownBytes.{Appends};
ghost use Rattle.cli_base.specs.Faults.{IsHelp, IsWrong};
ghost use Rattle.cli_base.specs.Printed.{refused_line};

use crate::words_fault::WordsFault;
use bounded_files::ResourceFault;
use std::fmt::Display;
use std::io::{self, ErrorKind, Write};

/// The command did what was requested.
const DONE: u8 = 0;
/// The request is refused, or its output couldn't be written.
const REFUSED: u8 = 1;
/// The words are wrong.
const USAGE: u8 = 2;

/// Prints why words can't be read, and returns the status: out of memory, or a word isn't UTF-8.
// open: the text on `err`.
pub fn unreadable_words<E: Write>(error: &io::Error, err: &mut E) -> u8
    ensures within { (1 ≤ result) × (result ≤ 2) }
    ensures memory { error_kind error.now ≡ ErrorKind.OutOfMemory → result ≡ 1 }
{
    match error.kind() {
        ErrorKind::OutOfMemory => refused(err, &ResourceFault::Memory),
        _ => usage_status(writeln!(err, "error: a word isn't UTF-8").is_ok()),
    }
}

/// Prints why words make no command, and returns the status: 0 for help, 2 for wrong words, and 1
/// if memory or a write fails.
// open: the texts.
pub fn usage<O: Write, E: Write>(fault: &WordsFault, out: &mut O, err: &mut E) -> u8
    ensures within { result ≤ 2 }
    ensures help { result ≡ 0 → IsHelp fault.now }
    ensures silent { result ≡ 0 → err.new ≡ err.old }
    ensures wrong { result ≡ 2 → IsWrong fault.now }
    ensures usage { result ≡ 2 → out.new ≡ out.old }
{
    match fault {
        WordsFault::Help(_) => printed(err, write!(out, "{fault}").is_ok()),
        WordsFault::Memory => refused(err, &ResourceFault::Memory),
        _ => usage_status(write!(err, "{fault}").is_ok()),
    }
}

/// Prints an output, and returns the status: 1, with a refusal, if it can't be written.
pub fn print_output<T: Display, O: Write, E: Write>(output: &T, out: &mut O, err: &mut E) -> u8
    ensures within { result ≤ 1 }
    ensures printed { result ≡ 0 → IfSome (T.output output.now)
        (Appends (O.contents out.old) (O.contents out.new)) }
    ensures silent { result ≡ 0 → err.new ≡ err.old }
{
    match write!(out, "{output}") {
        Ok(()) => DONE,
        Err(_) => refused(err, &ResourceFault::File),
    }
}

// The status of what was to be printed. If it couldn't be written, that is refused.
fn printed<E: Write>(err: &mut E, written: bool) -> u8
    ensures status { result ≡ (if written then 0 else 1) }
    ensures within { result ≤ 1 }
    ensures silent { result ≡ 0 → err.new ≡ err.old }
{
    if written {
        return DONE;
    }
    refused(err, &ResourceFault::File)
}

/// Prints the line of a refusal, and returns the status.
pub fn refused<F: Display, E: Write>(err: &mut E, fault: &F) -> u8
    ensures { result ≡ 1 }
{
    let _printed = print_refusal(err, fault);
    REFUSED
}

/// Prints the line of a refusal.
pub fn print_refusal<F: Display, E: Write>(err: &mut E, fault: &F) -> io::Result<()>
    ensures { OnOk result (IfSome (F.output fault.now) (λ text.
        Appends (E.contents err.old) (E.contents err.new) (refused_line text))) }
{
    writeln!(err, "refused {fault}")
}

/// Prints lines, which have their line feeds, and flushes them.
pub fn print_lines<W: Write>(to: &mut W, lines: &str) -> io::Result<()>
    ensures { OnOk result (Appends (W.contents to.old) (W.contents to.new) lines.now) }
{
    to.write_all(lines.as_bytes())?;
    to.flush()
}

// The status of wrong words, whose fault was printed or couldn't be.
fn usage_status(written: bool) -> u8
    ensures { result ≡ (if written then 2 else 1) }
{
    if written { USAGE } else { REFUSED }
}
