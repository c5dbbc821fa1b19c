//! The lines of a worker's connections, which go to the log's queue in pieces, so that several
//! connections share a place in the queue.

ghost use Rattle.std.specs.Prelude.{◌≡◌, ◌==◌, [], IfSome, is_none, is_some};

use crate::log_queue::{LogPiece, LogQueue};
use access_log::{LineBuffer, LogEvent, log_line_in};
use std::alloc::Global;
use std::mem;
use std::sync::Wait;
use std::time::{Clock, Duration};

/// With this many bytes of lines the buffer is flushed.
const ENOUGH: usize = 4096;

/// The capacity for fewer than `ENOUGH` bytes of lines and the longest line after them.
const PIECE_LIMIT: usize = 8192;

/// How long lines wait for more before they are flushed.
const LINGER_MILLIS: u64 = 10;

/// The lines of a worker that aren't in the queue yet. They are flushed to it in three cases: they
/// have `ENOUGH` bytes; the worker has waited 10 ms for a connection; or it is about to serve a
/// connection of a later second. So a line is late by at most a second and the time of the next
/// connection.
#[derive(Drop)]
pub struct Log<'a> {
    queue: Option<&'a LogQueue>,
    /// The buffer for a line.
    line: LineBuffer,
    text: Vec<u8>,
    lines: u64,
    /// The second in which these lines were made.
    moment: i64,
}

impl<'a> Log<'a> {
    /// A log without a line. Lines are kept only if there is a queue.
    pub fn new(alloc: Global, queue: Option<&'a LogQueue>) -> Log<'a>
        ensures queue { result.queue ≡ queue.entry }
        ensures text { result.text.items ≡ [] }
        ensures lines { result.lines ≡ 0 }
    {
        Log {
            queue,
            line: LineBuffer::new(alloc),
            text: Vec::new(alloc),
            lines: 0,
            moment: 0,
        }
    }

    /// Whether lines are kept.
    pub fn is_kept(&self) -> bool
        ensures { result ≡ is_some self.now.queue }
    {
        self.queue.is_some()
    }

    /// Appends the line of an event, if lines are kept. The line is lost if an allocation fails.
    pub(crate) fn note<H>(&mut self, rt: &H, event: &LogEvent<'_>)
    where
        H: Wait + AllocGlobal + Clock,
        ensures { self.new.queue ≡ self.old.queue }
    {
        let Some(queue) = self.queue else {
            return;
        };
        match log_line_in(&mut self.line, &queue.header(rt), event) {
            Ok(()) => self.add(),
            Err(_) => self.count_lost(),
        }
        if self.text.len() >= ENOUGH {
            self.send_queued(rt);
        }
    }

    /// Counts a lost line.
    pub(crate) fn count_lost(&self) {
        if let Some(queue) = self.queue {
            queue.count_lost(1);
        }
    }

    fn add(&mut self)
        ensures { self.new.queue ≡ self.old.queue }
    {
        if self.text.extend_from_slice(self.line.bytes()).is_ok() {
            self.lines = self.lines.saturating_add(1);
        } else {
            self.count_lost();
        }
    }

    /// How long the worker waits for a connection before it flushes; `None` if no line is buffered.
    pub fn linger(&self) -> Option<Duration>
        ensures { is_none result ≡ (self.now.lines == 0) }
    {
        if self.lines == 0 {
            return None;
        }
        Some(Duration::from_millis(LINGER_MILLIS))
    }

    /// Flushes the lines if they are of another second than `moment`, which is then the log's.
    pub fn flush_earlier<H>(&mut self, rt: &H, moment: i64)
    where
        H: Wait + AllocGlobal + Clock,
        ensures queue { self.new.queue ≡ self.old.queue }
        ensures moment { self.new.moment ≡ moment }
    {
        if self.moment != moment {
            self.send_queued(rt);
            self.moment = moment;
        }
    }

    /// Flushes all lines to the queue.
    pub fn send_queued<H>(&mut self, rt: &H)
    where
        H: Wait + AllocGlobal + Clock,
        ensures queue { self.new.queue ≡ self.old.queue }
        ensures none_left { IfSome self.old.queue (λ _. self.new.lines ≡ 0) }
    {
        let Some(queue) = self.queue else {
            return;
        };
        if self.lines == 0 {
            return;
        }
        let buffer = buffer_for(rt.alloc(), self.text.len());
        let text = mem::replace(&mut self.text, buffer);
        let lines = self.lines;
        self.lines = 0;
        queue.put(rt, LogPiece { text, lines });
    }
}

// The next buffer after a piece of `bytes` bytes: of `PIECE_LIMIT` bytes if the piece was full, and
// otherwise empty until there is a line.
fn buffer_for(alloc: Global, bytes: usize) -> Vec<u8> {
    let room = if bytes < ENOUGH { 0 } else { PIECE_LIMIT };
    match Vec::with_capacity(alloc, room) {
        Ok(room) => room,
        Err(_) => Vec::new(alloc),
    }
}
