//! The log of a server that nobody reads.

use crate::impaired::Impaired;
use crate::loopback::text_of;
use crate::manifests::write_files;
use crate::servers::{PortTask, is_served};
use access_log::LogEvent;
use crossbeam_channel::Receiver;
use server_log::{LogPiece, LogQueue};
use std::process::Abort;
use std::sync::Wait;
use std::thread::Threads;
use std::time::Duration;
use workers::ServeOptions;

/// Each connection may last half a minute, and the log goes to a queue.
pub(crate) fn logging_to<'a>(queue: &'a LogQueue) -> ServeOptions<'a> {
    ServeOptions {
        timeout: Duration::from_secs(30),
        log: Some(queue),
    }
}

/// The lines in a queue.
pub(crate) fn lines_in<T: Abort + Wait>(
    own: &Impaired<'_, T>,
    pieces: &Receiver<LogPiece>,
) -> String {
    let mut lines = String::new(own.rt.alloc());
    for _ in 0..u64::MAX {
        let Ok(piece) = pieces.try_recv(own.handles) else {
            break;
        };
        let pushed = lines.push_str(text_of(&piece.text));
        pushed.expect(own.handles, "memory");
    }
    lines
}

/// The end of the log's first line once it is read. Four lines were lost: of the ready server, of
/// two connections, and of the stop.
const LOST: &str = "\"kind\":\"lost\",\"lines\":4}";

/// Whether a server with a full log replies as usual and ends, and its lines are lost.
fn are_lost<T>(own: &Impaired<'_, T>, queue: &LogQueue, pieces: &Receiver<LogPiece>) -> bool
where
    T: Abort + Threads + Wait + Sync,
{
    for _ in 0..256 {
        queue.note(own, &LogEvent::Stop(None));
    }
    let is_served = is_served(own, "no.toml", 2, logging_to(queue), PortTask::AtOnce);
    let is_full = lines_in(own, pieces).lines().count() == 256;
    queue.note(own, &LogEvent::Unaccepted("read"));
    let rest = lines_in(own, pieces);
    is_served && is_full && rest.lines().count() == 2 && rest.contains(LOST)
}

/// A server whose log nobody reads replies as usual, and ends.
#[test]
fn lines_that_nobody_reads_are_lost(rt: HostRuntime) {
    write_files(&rt).expect(&rt, "files");
    let (queue, pieces) = LogQueue::new(rt.alloc(), 8080).expect(&rt, "a queue");
    assert!(rt; are_lost(&Impaired::new(&rt, &rt, None), &queue, &pieces));
}
