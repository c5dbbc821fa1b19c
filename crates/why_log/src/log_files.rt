//! The lines of a machine in files.

ghost use Rattle.std.specs.Prelude.{IfOk, OnOk};
ghost use Rattle.why_log.specs.Found.{AreOf, Keeps};

use crate::finding::FoundLines;
use crate::log_reading::read_log;
use crate::machine::Machine;
use bounded_files::ResourceFault;
use std::fs;
use std::io::{self, Error, ErrorKind};
use std::rt::Files;

/// The file of standard input, which is read in blocks.
const STANDARD_INPUT: &str = "/dev/stdin";

/// The last `most` lines of a machine in logs, the oldest of which comes first. A log named `-` is
/// standard input. Returns B3 if a log can't be read, and B4 if an allocation fails.
// open: whether an allocation fails; what a device's files contain; that the newest lines are
// found: rows.
#[tactic(auto, using(crate::proofs::Kept::keeps_none))]
pub fn find_lines<R>(
    rt: &R,
    logs: &[&str],
    machine: &Machine<'_>,
    most: usize,
) -> Result<FoundLines, ResourceFault>
where
    R: Files + AllocGlobal,
    ensures { IfOk result (AreOf machine.now) }
{
    let mut found = FoundLines::new(rt.alloc(), most);
    match read_logs(rt, logs, machine, &mut found) {
        Ok(()) => Ok(found),
        Err(fault) => {
            drop(found);
            Err(fault)
        }
    }
}

#[tactic(auto, using(crate::proofs::Kept::keeps_all, crate::proofs::Kept::keeps_both))]
fn read_logs<R>(
    rt: &R,
    logs: &[&str],
    machine: &Machine<'_>,
    found: &mut FoundLines,
) -> Result<(), ResourceFault>
where
    R: Files + AllocGlobal,
    ensures { OnOk result (Keeps machine.now found.old found.new) }
{
    let mut left = logs;
    while let [log, others @ ..] = left {
        if let Err(error) = read_file(rt, *log, machine, found) {
            return Err(fault_of(&error));
        }
        left = others;
    }
    Ok(())
}

fn read_file<R>(rt: &R, log: &str, machine: &Machine<'_>, found: &mut FoundLines) -> io::Result<()>
where
    R: Files + AllocGlobal,
    ensures { OnOk result (Keeps machine.now found.old found.new) }
{
    let mut file = fs::open(rt, path_of(log))?;
    read_log(rt.alloc(), &mut file, machine, found)
}

// The path of a log; a hyphen is standard input.
fn path_of<'a>(log: &'a str) -> &'a str {
    if log == "-" { STANDARD_INPUT } else { log }
}

// Why a log can't be read.
fn fault_of(error: &Error) -> ResourceFault {
    match error.kind() {
        ErrorKind::OutOfMemory => ResourceFault::Memory,
        _ => ResourceFault::File,
    }
}
