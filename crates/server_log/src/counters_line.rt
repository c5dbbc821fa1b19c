//! The log line of a file of counters that can't be written, or that can be written again.

ghost use Rattle.std.specs.Prelude.{IfOk, IfSome};
ghost use Rattle.server_log.specs.Counters.{IsCountersLine};

use crate::clock::utc_now;
use crate::log_output::LogOutput;
use crate::log_queue::LogQueue;
use access_log::{LineHeader, LogEvent, Utc, log_line};
use std::alloc::{AllocError, Global};
use std::fmt::Display;
use std::sync::Wait;
use std::time::Clock;

/// Puts a line into the queue: with a refusal, that the file can't be written from now on; without
/// one, that it can be again. The line is lost if an allocation fails.
// open: that the line is written: no contract knows the contents of a queue. Tests.
pub fn note_counters<H>(rt: &H, queue: &LogQueue, refusal: Option<&str>)
where
    H: Wait + AllocGlobal + Clock,
{
    queue.note(rt, &LogEvent::Counters(refusal));
}

/// Writes the line of a file that couldn't be written at once, without a queue. The line is lost if
/// an allocation or standard error fails. `port` is the clients' port.
// open: that what is written is the line of `counters_line`: no contract knows what standard error
// takes. Tests.
pub fn write_counters<H, F>(rt: &H, port: u16, fault: &F)
where
    H: AllocGlobal + Clock + LogOutput,
    F: Display,
{
    if let Ok(line) = counters_line(rt.alloc(), &utc_now(rt), port, fault) {
        let _written = rt.write_lines(&line);
    }
}

/// The line of a file that couldn't be written.
// open: whether an allocation fails.
fn counters_line<F: Display>(
    alloc: Global,
    time: &Utc,
    port: u16,
    fault: &F,
) -> Result<Vec<u8>, AllocError>
    ensures { IfOk result (λ line. IfSome (F.output fault.now)
        (λ text. IsCountersLine time.now port text line.items)) }
{
    let text = fault.to_string(alloc)?;
    refused_line(alloc, time, port, text.as_str())
}

// The line with this refusal.
fn refused_line(alloc: Global, time: &Utc, port: u16, refusal: &str) -> Result<Vec<u8>, AllocError>
    ensures { IfOk result (λ line. IsCountersLine time.now port refusal.now line.items) }
{
    let event = LogEvent::Counters(Some(refusal));
    let header = LineHeader { time: *time, port };
    match log_line(alloc, &header, &event) {
        Ok(line) => Ok(line),
        Err(fault) => Err(fault),
    }
}
