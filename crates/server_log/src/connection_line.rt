//! The log lines of a client's connection, and of one that couldn't be accepted.

ghost use Rattle.std.specs.Prelude.{◌≡◌, IfNone};

use crate::clock::micros_since;
use crate::connection_record::ConnectionRecord;
use crate::log::Log;
use crate::log_queue::LogQueue;
use access_log::{Connection, LogEvent, LoggedApp};
use answering::{AnswerFault, Sent};
use http_front::PostFault;
use std::alloc::AllocError;
use std::net::SocketAddr;
use std::sync::Wait;
use std::time::{Clock, Instant};
use std::{io, slice, str};

/// Appends the line of a connection to a worker's log, if lines are kept. It has the outcome, the
/// contents of `recorded`, and the microseconds that the connection waited and then took from
/// `begun` on (0 if unknown). The line is lost if an allocation fails.
// open: the contents of a connection's line, that known apps come first, and when the line is
// flushed: tests.
pub fn note_connection<H>(
    rt: &H,
    log: &mut Log<'_>,
    peer: SocketAddr,
    waited: u64,
    begun: Option<Instant>,
    outcome: &Result<Sent, AnswerFault>,
    recorded: &mut ConnectionRecord,
)
where
    H: Wait + AllocGlobal + Clock,
    ensures queue { log.new.queue ≡ log.old.queue }
    ensures unkept { IfNone log.old.queue ((log.new ≡ log.old) × (recorded.new ≡ recorded.old)) }
{
    if !log.is_kept() {
        return;
    }
    let times = Times {
        micros: micros_since(rt, begun),
        waited,
    };
    if note_kept(rt, log, peer, times, outcome, recorded).is_err() {
        log.count_lost();
    }
    recorded.drop_apps();
}

// How long a connection took, and how long it waited before, in microseconds.
#[derive(Clone, Copy)]
struct Times {
    micros: u64,
    waited: u64,
}

fn note_kept<H>(
    rt: &H,
    log: &mut Log<'_>,
    peer: SocketAddr,
    times: Times,
    outcome: &Result<Sent, AnswerFault>,
    recorded: &mut ConnectionRecord,
) -> Result<(), AllocError>
where
    H: Wait + AllocGlobal + Clock,
    ensures { log.new.queue ≡ log.old.queue }
{
    let addresses = recorded.keep_addresses(peer)?;
    let connection = Connection {
        lacks_id: recorded.lacks_id,
        status: status_of(outcome),
        generation: recorded.generation,
        bytes: recorded.bytes,
        micros: times.micros,
        waited: times.waited,
        ..without_texts(refusal_of(outcome), cause_of(outcome, recorded))
    };
    let (peer, forwarded) = (recorded.peer(addresses), recorded.forwarded_text(addresses));
    let id = recorded.request_id();
    // Most requests have one app, and a list of one needs no allocation.
    if let Some(app) = recorded.only_app() {
        let apps = slice::from_ref(&app);
        log.note(rt, &connection_event(peer, forwarded, id, apps, connection));
    } else {
        let apps = recorded.logged_apps()?;
        log.note(
            rt,
            &connection_event(peer, forwarded, id, &apps, connection),
        );
    }
    Ok(())
}

// A connection with this refusal and cause, if any, and nothing else.
fn without_texts<'x>(refusal: Option<&'x str>, cause: Option<&'x str>) -> Connection<'x> {
    Connection {
        peer: "",
        forwarded: None,
        lacks_id: false,
        request_id: None,
        status: 0,
        refusal,
        cause,
        generation: 0,
        bytes: 0,
        micros: 0,
        waited: 0,
        apps: &[],
    }
}

// The event of a connection with these texts and apps.
fn connection_event<'x>(
    peer: &'x str,
    forwarded: Option<&'x str>,
    request_id: Option<&'x str>,
    apps: &'x [LoggedApp<'x>],
    connection: Connection<'x>,
) -> LogEvent<'x> {
    LogEvent::Connection(Connection {
        peer,
        forwarded,
        request_id,
        apps,
        ..connection
    })
}

/// The status of the reply; 0 if none was sent whole.
pub(crate) fn status_of(outcome: &Result<Sent, AnswerFault>) -> u16 {
    match outcome {
        Ok(sent) => sent.status,
        Err(_) => 0,
    }
}

// The refusal that was sent instead of Omaha's reply, or why no reply was sent.
fn refusal_of(outcome: &Result<Sent, AnswerFault>) -> Option<&'static str> {
    match outcome {
        Ok(sent) => sent_refusal(sent),
        Err(AnswerFault::Ended) => Some(PostFault::Ended.line().trim_end()),
        Err(_) => Some(PostFault::Device.line().trim_end()),
    }
}

// How the device failed, if it did.
fn cause_of(
    outcome: &Result<Sent, AnswerFault>,
    recorded: &ConnectionRecord,
) -> Option<&'static str> {
    match outcome {
        Ok(_) | Err(AnswerFault::Ended) => None,
        Err(_) => recorded.cause,
    }
}

fn sent_refusal(sent: &Sent) -> Option<&'static str> {
    let [name @ .., b'\n'] = sent.line else {
        return None;
    };
    str::from_utf8(name).ok()
}

/// Puts the line of a connection that couldn't be accepted into the queue. The line is lost if the
/// queue is full or an allocation fails.
pub fn note_unaccepted<H>(rt: &H, queue: &LogQueue, error: &io::Error)
where
    H: Wait + AllocGlobal + Clock,
{
    match error.to_string(rt.alloc()) {
        Ok(reason) => queue.note(rt, &LogEvent::Unaccepted(&reason)),
        Err(_) => queue.count_lost(1),
    }
}
