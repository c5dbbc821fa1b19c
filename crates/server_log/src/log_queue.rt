//! The queue between the threads of a server and the thread that writes its log. It has places for
//! 256 pieces, and no worker waits for one. If the log's reader is too slow, lines are lost, and a
//! line with their number precedes the next line that is written. No contract knows the contents of
//! a queue that threads share.

ghost use Rattle.std.specs.Prelude.{◌≡◌, IfOk};

use crate::clock::header_now;
use crate::tally::RunningTotals;
use access_log::{LineHeader, LogEvent, Totals, log_line};
use crossbeam_channel::{Receiver, Sender, bounded};
use std::alloc::{AllocError, Global};
use std::sync::atomic::{AtomicU64, Ordering};
use std::sync::{Arc, Wait};
use std::time::{Clock, Instant};

/// How many pieces may wait to be written.
const PLACES: usize = 256;

/// Some lines of the log, as they are queued.
#[derive(Drop)]
pub struct LogPiece {
    /// The bytes, each line with its line feed.
    pub text: Vec<u8>,
    /// The number of lines. For the line that reports lost lines, how many were lost.
    pub lines: u64,
}

/// The queue into which a server's threads put lines, and the totals of their connections.
pub struct LogQueue {
    /// The clients' port of the server.
    port: u16,
    pieces: Sender<LogPiece>,
    lost: AtomicU64,
    tally: Arc<RunningTotals>,
}

// Not derived: a crate that drops one would prove the drop of each of its parts anew.
impl Drop for LogQueue {
    fn drop(self) {
        let Self {
            port: _port,
            pieces: _pieces,
            lost: _lost,
            tally: _tally,
        } = self;
    }
}

impl LogQueue {
    /// A queue for the log of the server with this clients' port, and its receiving end.
    pub fn new(alloc: Global, port: u16) -> Result<(LogQueue, Receiver<LogPiece>), AllocError>
        ensures { IfOk result (λ ends. ends.0.port ≡ port) }
    {
        let Ok((pieces, from)) = bounded::<LogPiece, _>(alloc, PLACES) else {
            return Err(AllocError);
        };
        let Ok(tally) = Arc::new(alloc, RunningTotals::new()) else {
            return Err(AllocError);
        };
        let queue = LogQueue {
            port,
            pieces,
            lost: AtomicU64::new(0),
            tally,
        };
        Ok((queue, from))
    }

    /// The totals of the connections since the last call. The thread of `start_log` calls this each
    /// minute.
    // open: which numbers it returns: tests.
    pub fn take_totals(&self) -> Totals {
        self.tally.take()
    }

    /// The totals in which connections are counted.
    pub(crate) fn tally(&self) -> &RunningTotals {
        &self.tally
    }

    /// The totals, shared with the thread that logs them.
    pub(crate) fn shared_tally(&self) -> Option<Arc<RunningTotals>> {
        Arc::try_clone(&self.tally).ok()
    }

    /// The header of a line that is made now.
    pub(crate) fn header<H: Clock>(&self, rt: &H) -> LineHeader
        ensures { result.port ≡ self.now.port }
    {
        header_now(rt, self.port)
    }

    /// Puts lines into the queue. If it is full they are lost.
    pub(crate) fn put<H>(&self, rt: &H, piece: LogPiece)
    where
        H: Wait + AllocGlobal + Clock,
    {
        let _put = self.put_until(rt, piece, None);
    }

    /// Puts the line of an event into the queue. The line is lost if the queue is full or an
    /// allocation fails.
    // open: that lines are written whole, that nothing waits for a log that nobody reads, and that
    // lost lines are counted: tests, and `bench/hostile`.
    pub fn note<H>(&self, rt: &H, event: &LogEvent<'_>)
    where
        H: Wait + AllocGlobal + Clock,
    {
        let _noted = self.note_until(rt, event, None);
    }

    /// Puts the line of an event into the queue, and waits until `until` for a place if it is full.
    /// Returns whether it was put there.
    pub fn note_until<H>(&self, rt: &H, event: &LogEvent<'_>, until: Option<Instant>) -> bool
    where
        H: Wait + AllocGlobal + Clock,
    {
        match log_line(rt.alloc(), &self.header(rt), event) {
            Ok(text) => self.put_until(rt, LogPiece { text, lines: 1 }, until),
            Err(_) => {
                self.count_lost(1);
                false
            }
        }
    }

    /// Counts lost lines.
    pub(crate) fn count_lost(&self, lines: u64) {
        let _before = self.lost.fetch_add(lines, Ordering::SeqCst);
    }

    /// Puts lines into the queue, after a line with the number of lost lines, if any were lost.
    /// Waits until `until` for a place if the queue is full. Returns whether the lines were put
    /// there.
    pub(crate) fn put_until<H>(&self, rt: &H, piece: LogPiece, until: Option<Instant>) -> bool
    where
        H: Wait + AllocGlobal + Clock,
    {
        let lost = self.lost.swap(0, Ordering::SeqCst);
        if lost != 0 && !self.note_lost(rt, lost, until) {
            self.count_lost(piece.lines);
            return false;
        }
        self.send(rt, piece, until)
    }

    fn note_lost<H>(&self, rt: &H, lost: u64, until: Option<Instant>) -> bool
    where
        H: Wait + AllocGlobal + Clock,
    {
        match log_line(rt.alloc(), &self.header(rt), &LogEvent::Lost(lost)) {
            Ok(text) => self.send(rt, LogPiece { text, lines: lost }, until),
            Err(_) => {
                self.count_lost(lost);
                false
            }
        }
    }

    fn send<H>(&self, rt: &H, piece: LogPiece, until: Option<Instant>) -> bool
    where
        H: Wait + Clock,
    {
        let lines = piece.lines;
        let is_sent = match until {
            Some(until) => self.pieces.send_deadline(rt, piece, until).is_ok(),
            None => self.pieces.try_send(rt, piece).is_ok(),
        };
        if !is_sent {
            self.count_lost(lines);
        }
        is_sent
    }
}
