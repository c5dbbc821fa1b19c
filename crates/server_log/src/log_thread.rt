//! The thread that writes a server's log. It is detached: a write may block forever if standard
//! error isn't read, and the server's end must not wait for it. The thread ends with the program at
//! the latest. Each minute, and at its end, it logs the totals of the connections. Nothing is
//! proved about threads and standard error.

ghost use Rattle.std.specs.Prelude.{◌≡◌, IfOk};

use crate::clock::{header_now, is_past, seconds_from_now};
use crate::log_output::LogOutput;
use crate::log_queue::{LogPiece, LogQueue};
use crate::tally::RunningTotals;
use access_log::{LogEvent, log_line};
use bounded_files::ResourceFault;
use crossbeam_channel::{Receiver, RecvTimeoutError, Sender, bounded};
use std::sync::{Arc, Wait};
use std::thread::{self, Threads};
use std::time::{Clock, Duration, Instant};

/// How long the end of a server waits for lines that are still to be written.
const END_SECONDS: u64 = 4;

/// The seconds from one line of totals to the next.
const TOTALS_SECONDS: u64 = 60;

/// Reports that the thread has ended.
#[derive(Drop)]
pub struct LogEnd {
    ended: Receiver<()>,
}

/// Starts the thread that writes the lines of a queue to standard error, until the queue is dropped
/// and empty. Each line has the port. Returns B4 if an allocation or the thread's start fails.
// open: all but the port and the line of an event, which is that of `log_line`: tests.
pub fn start_log<H>(rt: &H, port: u16) -> Result<(LogQueue, LogEnd), ResourceFault>
where
    H: Threads + Wait + AllocGlobal + Clock + LogOutput + Copy + Drop + Send + 'static,
    ensures { IfOk result (λ log. log.0.port ≡ port) }
{
    let Ok((queue, from)) = LogQueue::new(rt.alloc(), port) else {
        return Err(ResourceFault::Memory);
    };
    let Ok((ending, ended)) = bounded::<(), _>(rt.alloc(), 1) else {
        return Err(ResourceFault::Memory);
    };
    let Some(tally) = queue.shared_tally() else {
        return Err(ResourceFault::Memory);
    };
    let own = *rt;
    match thread::spawn(rt, move || write_pieces(own, port, from, tally, ending)) {
        Ok(_) => Ok((queue, LogEnd { ended })),
        Err(_) => Err(ResourceFault::Memory),
    }
}

// Writes each piece, and the totals each minute and at the end; last, how many lines couldn't be
// written.
fn write_pieces<H>(
    rt: H,
    port: u16,
    pieces: Receiver<LogPiece>,
    tally: Arc<RunningTotals>,
    ending: Sender<()>,
)
where
    H: Wait + AllocGlobal + Clock + LogOutput + Drop,
{
    let mut unwritten = 0;
    let mut minute = seconds_from_now(&rt, TOTALS_SECONDS);
    for _ in rt.forever() {
        match next_piece(&rt, &pieces, minute) {
            Ok(piece) => unwritten = write_piece(&rt, port, &piece, unwritten),
            Err(RecvTimeoutError::Timeout) => {
                minute = seconds_from_now(&rt, TOTALS_SECONDS);
                unwritten = write_totals(&rt, port, &tally, unwritten);
            }
            Err(RecvTimeoutError::Disconnected) => break,
        }
    }
    unwritten = write_totals(&rt, port, &tally, unwritten);
    if unwritten != 0 {
        let _told = report_unwritten(&rt, port, unwritten);
    }
    drop(ending);
}

// The next piece; a time-out once the minute is over, even if pieces keep coming. Without a clock
// the minute doesn't end.
fn next_piece<H>(
    rt: &H,
    pieces: &Receiver<LogPiece>,
    minute: Option<Instant>,
) -> Result<LogPiece, RecvTimeoutError>
where
    H: Wait + Clock,
{
    let Some(minute) = minute else {
        return pieces.recv(rt).map_err(|_| RecvTimeoutError::Disconnected);
    };
    if is_past(rt, minute) {
        return Err(RecvTimeoutError::Timeout);
    }
    pieces.recv_deadline(rt, minute)
}

// Writes the line of the totals, as a piece, and returns how many lines are then unwritten.
fn write_totals<H>(rt: &H, port: u16, tally: &RunningTotals, unwritten: u64) -> u64
where
    H: AllocGlobal + Clock + LogOutput,
{
    let event = LogEvent::Totals(tally.take());
    match log_line(rt.alloc(), &header_now(rt, port), &event) {
        Ok(text) => write_piece(rt, port, &LogPiece { text, lines: 1 }, unwritten),
        Err(_) => unwritten.saturating_add(1),
    }
}

// Writes a piece, after a line with the number of unwritten lines, if any (such as on a full disk).
// Returns how many are then unwritten; a piece that was written in part counts as a whole.
fn write_piece<H>(rt: &H, port: u16, piece: &LogPiece, unwritten: u64) -> u64
where
    H: AllocGlobal + Clock + LogOutput,
{
    if unwritten != 0 && !report_unwritten(rt, port, unwritten) {
        return unwritten.saturating_add(piece.lines);
    }
    match rt.write_lines(&piece.text) {
        Ok(()) => 0,
        Err(_) => piece.lines,
    }
}

// Logs how many lines couldn't be written, of which the last may be cut. Returns whether that was
// written.
fn report_unwritten<H>(rt: &H, port: u16, lines: u64) -> bool
where
    H: AllocGlobal + Clock + LogOutput,
{
    let header = header_now(rt, port);
    let Ok(line) = log_line(rt.alloc(), &header, &LogEvent::Lost(lines)) else {
        return false;
    };
    rt.write_lines(b"\n").is_ok() && rt.write_lines(&line).is_ok()
}

impl LogEnd {
    /// Waits until all lines are written, once their queue is dropped; for at most four seconds.
    pub fn wait<H: Wait + Clock>(self, rt: &H) {
        let _ended = self
            .ended
            .recv_timeout(rt, Duration::from_secs(END_SECONDS));
    }
}
