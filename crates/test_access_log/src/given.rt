//! What the tests use: the header of their lines, an app, a connection, and the line of an event.

use access_log::{
    Connection, Excerpt, FurtherMembers, LineHeader, LogEvent, LoggedApp, Outcome, Utc, log_line,
};
use std::alloc::{AllocError, Global};
use std::io::{self, ErrorKind};

/// 2026-11-24T12:19:16.042Z, and the highest port.
pub(crate) const HEADER: LineHeader = LineHeader {
    time: Utc {
        year: 2026,
        month: 11,
        day: 24,
        hour: 12,
        minute: 19,
        second: 16,
        millis: 42,
    },
    port: 65535,
};

/// No members except an id and a version.
pub(crate) const NO_MORE: FurtherMembers<'static> = FurtherMembers {
    ap: None,
    lang: None,
    brand: None,
    platform: None,
    installdate: None,
    ignored: None,
};

/// An app that is offered a release.
pub(crate) const NOTES: LoggedApp<'static> = LoggedApp {
    appid: Excerpt {
        text: "notes",
        length: 5,
    },
    version: Some(Excerpt {
        text: "1.0",
        length: 3,
    }),
    bucket: 9999,
    named: true,
    outcome: Outcome::Offered(2, "1.1"),
    event: None,
    more: NO_MORE,
};

/// A connection through a proxy, whose request got a reply.
pub(crate) const ANSWERED: Connection<'static> = Connection {
    peer: "127.0.0.1:41248",
    forwarded: Some("203.0.113.7"),
    lacks_id: false,
    request_id: None,
    status: 200,
    refusal: None,
    cause: None,
    generation: 5,
    bytes: 566,
    micros: 68,
    waited: 7,
    apps: &[],
};

/// The line of an event.
pub(crate) fn line_with(
    alloc: Global,
    header: &LineHeader,
    event: &LogEvent<'_>,
) -> io::Result<String> {
    let line = log_line(alloc, header, event)?;
    match String::from_utf8(line) {
        Ok(line) => Ok(line),
        Err(_) => Err(io::Error::from(ErrorKind::InvalidData)),
    }
}

/// Whether this is the line of an event, from its kind on.
pub(crate) fn is_line(
    alloc: Global,
    event: &LogEvent<'_>,
    wanted: &str,
) -> Result<bool, AllocError> {
    let wanted = format!(in alloc;
        "{{\"time\":\"2026-11-24T12:19:16.042Z\",\"port\":65535,\"kind\":{wanted}\n"
    )?;
    is_whole_line(alloc, &HEADER, event, &wanted)
}

/// Whether this is the line of an event with this header.
pub(crate) fn is_whole_line(
    alloc: Global,
    header: &LineHeader,
    event: &LogEvent<'_>,
    wanted: &str,
) -> Result<bool, AllocError> {
    let line = log_line(alloc, header, event)?;
    Ok(line.as_slice() == wanted.as_bytes())
}
