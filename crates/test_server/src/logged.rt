//! The log of the clients' side of a server: the line of each connection, and of those that can't
//! be accepted. The server's clock is stopped, or can't be read until its client has been served.

use crate::impaired::Impaired;
use crate::log_lines::{LINES, Line};
use crate::loopback::{reply, send, sent, text_of};
use crate::manifests::write_files;
use crate::servers::{PortTask, is_served};
use crate::whole_log::{lines_in, logging_to};
use server_log::LogQueue;
use std::net::{Shutdown, SocketAddr};
use std::process::Abort;
use std::sync::Wait;
use std::sync::atomic::Ordering;
use std::thread::Threads;
use std::time::{Clock, Duration};

/// The moment of the stopped clock in Omaha's reply.
const DAYSTART: &str = "\"daystart\":{\"elapsed_days\":7000,\"elapsed_seconds\":3600}";

/// The first line of each request.
const POST: &str = "POST /service/update2/json HTTP/1.1\r\n";

/// Whether these bytes are a reply at the clock's moment, if the line has one; and none at all if
/// the line has no status, as after P7 and P8.
fn is_reply(line: &Line, bytes: &[u8]) -> bool {
    bytes.is_empty() != line.outcome.contains("\"status\"")
        && text_of(bytes).contains(DAYSTART) == line.outcome.contains("200")
}

/// Sends the request of a line, and ends it. Returns whether it gets the right reply.
pub(crate) fn is_requested<T: Abort>(
    own: &Impaired<'_, T>,
    place: SocketAddr,
    line: &Line,
) -> bool {
    let stream = sent(own, place, POST);
    let address = stream.local_addr().expect(own.handles, "an address");
    own.client_port
        .store(address.port() as u64, Ordering::SeqCst);
    let _sent = send(&stream, line.request);
    let _ended = stream.shutdown(Shutdown::Write);
    let bytes = reply(own.rt.alloc(), &stream).unwrap_or(Vec::new(own.rt.alloc()));
    own.reply_size.store(bytes.len() as u64, Ordering::SeqCst);
    // Time for the worker to log the line, and for the port to be polled, before the stop.
    own.sleep(Duration::from_millis(100));
    is_reply(line, &bytes)
}

/// Whether a log has the line of the client, that of the server's stop, lines of connections that
/// couldn't be accepted, that of the ready server, and no others.
fn is_log<T: Abort>(own: &Impaired<'_, T>, log: &str, line: &Line) -> bool {
    let (start, outcome, apps) = (line.timed.start, line.outcome, line.apps);
    let port = own.client_port.load(Ordering::SeqCst);
    let size = own.reply_size.load(Ordering::SeqCst);
    let alloc = own.rt.alloc();
    let wanted = format!(in alloc;
        "{start}\"connection\",\"peer\":\"127.0.0.1:{port}\",{outcome}\
        \"bytes\":{size},\"micros\":0,\"waited\":0{apps}}}\n{start}\"stop\"}}\n"
    );
    let wanted = wanted.expect(own.handles, "memory");
    let lines = log
        .replace(alloc, line.timed.unaccepted, "")
        .expect(own.handles, "memory");
    let lines = lines
        .replace(alloc, line.timed.serving, "")
        .expect(own.handles, "memory");
    let has_others = log.contains(line.timed.unaccepted) && log.contains(line.timed.serving);
    has_others && lines.as_str() == wanted.as_str()
}

/// Whether a server of `no.toml` with the line's clock logs it.
fn is_logged<T>(rt: &HostRuntime, handles: &T, line: &'static Line) -> bool
where
    T: Abort + Threads + Wait + Sync,
{
    let own = Impaired::new(rt, handles, Some(line.timed.seconds));
    own.set_readable(line.timed.is_readable);
    let (queue, pieces) = LogQueue::new(rt.alloc(), 8080).expect(handles, "a queue");
    let service = logging_to(&queue);
    let is_served = is_served(&own, "no.toml", 1, service, PortTask::Logged(line));
    let log = lines_in(&own, &pieces);
    is_served && is_log(&own, log.as_str(), line)
}

#[test]
fn log_has_a_line_a_connection(rt: HostRuntime) {
    write_files(&rt).expect(&rt, "files");
    for line in LINES {
        assert!(rt; is_logged(&rt, &rt, line), "{}", line.outcome);
    }
}
