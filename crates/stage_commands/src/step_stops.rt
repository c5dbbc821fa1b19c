//! The sentences that say why a stage stops at its folder or at a step, and what to do.

// No contract says what they are: bench/outside tests them. Those after which something may have
// changed don't say that nothing has.

ghost use Rattle.stage_commands.specs.Taken.{IsTrueAfter, MayChange};
ghost use Rattle.stage_servers.specs.Stops.{MayBeUnchanged};

use printing::TextBuffer;
use stage_folder::{FolderFault, RecordFault};
use stage_servers::{RECORDS, Stop, in_folder, refusal};
use std::alloc::Global;

/// Why an action stops before it changes a file or a record: it says so.
pub(crate) fn before_change(stop: Stop) -> Stop
    ensures { MayBeUnchanged result }
{
    match stop {
        Stop::Refused(reason) => Stop::Refused(reason),
        Stop::Failed(reason) => Stop::Refused(reason),
        Stop::Memory => Stop::Memory,
    }
}

/// Another call is at work in a folder: that of this note, if it isn't empty.
pub(crate) fn at_work(alloc: Global, folder: &str, holder: &str) -> Stop {
    let mut text = TextBuffer::new(alloc);
    text.push_printed("", folder, ": ");
    text.push_value(&FolderFault::Locked);
    if !holder.is_empty() {
        text.push_printed(" (", holder, ")");
    }
    refusal(text)
}

// What happened, and what to do.
fn failure(text: TextBuffer) -> Stop
    ensures { MayChange result }
{
    match text.finish() {
        Ok(text) => Stop::Failed(text),
        Err(_) => Stop::Memory,
    }
}

// A failure at a file: what happened to the step, and what to do.
fn failure_at(alloc: Global, what: &str, name: &str, fault: FolderFault, advice: &str) -> Stop
    ensures { MayChange result }
{
    let mut text = TextBuffer::new(alloc);
    text.push("the step ");
    text.push(what);
    text.push_printed(" at ", name, ": ");
    text.push_value(&fault);
    text.push("; call stage back ");
    text.push(advice);
    failure(text)
}

/// A step stopped at a file.
pub(crate) fn stopped_at(alloc: Global, name: &str, fault: FolderFault) -> Stop
    ensures { MayChange result }
{
    failure_at(alloc, "stopped", name, fault, "to undo it")
}

/// Undoing a step stopped at a file.
pub(crate) fn not_undone(alloc: Global, name: &str, fault: FolderFault) -> Stop
    ensures { MayChange result }
{
    failure_at(alloc, "isn't undone", name, fault, "again")
}

// ---- records

/// What to do if a new step may be recorded, though nothing else is done of it.
const IF_RECORDED: &str = " was made: call stage back if stage status has it as stopped";

// The record of a new step can't be written, but is there, or may be.
fn failure_at_record(alloc: Global, fault: FolderFault, known: &str, number: u32) -> Stop
    ensures { MayChange result }
{
    let mut text = TextBuffer::new(alloc);
    text.push_all(&[RECORDS, ": "]);
    text.push_value(&fault);
    text.push("; no file has changed, but ");
    text.push(known);
    text.push_number("the record of step ", number as u64, IF_RECORDED);
    failure(text)
}

/// Recording a new step failed: nothing has changed, or its record was made, or may have been.
pub(crate) fn not_recorded(alloc: Global, number: u32, fault: RecordFault) -> Stop
    ensures { IsTrueAfter fault result }
{
    match fault {
        RecordFault::NotMade(fault) => in_folder(alloc, RECORDS, fault),
        RecordFault::NotKept(fault) => failure_at_record(alloc, fault, "", number),
        RecordFault::Unknown(fault) => failure_at_record(alloc, fault, "maybe ", number),
    }
}

// The files of a step are restored: what is known of its record, the fault there, and what to do.
fn failure_after_undoing(alloc: Global, known: &str, fault: FolderFault, advice: &str) -> Stop
    ensures { MayChange result }
{
    let mut text = TextBuffer::new(alloc);
    text.push(known);
    text.push_value(&fault);
    text.push(advice);
    failure(text)
}

/// The files of a step are restored, but its record can't say so.
pub(crate) fn not_noted(alloc: Global, fault: FolderFault) -> Stop
    ensures { MayChange result }
{
    let known = "the files are restored, but .stage can't be written: ";
    let advice = "; mend that, and call stage back again";
    failure_after_undoing(alloc, known, fault, advice)
}

/// The files of a step are restored; whether its record says so isn't known.
pub(crate) fn maybe_noted(alloc: Global, fault: FolderFault) -> Stop
    ensures { MayChange result }
{
    let known = "the files are restored, but maybe .stage doesn't say so: ";
    let advice = "; call stage back again, unless stage status has the step as undone";
    failure_after_undoing(alloc, known, fault, advice)
}

/// A step is undone, but its record may not survive a crash.
pub(crate) fn not_kept(alloc: Global, fault: FolderFault) -> Stop {
    let known = "the step is undone, but its record may not last: ";
    failure_after_undoing(alloc, known, fault, "")
}
