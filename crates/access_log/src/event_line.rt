//! The line of an event.

ghost use Rattle.std.specs.Prelude.{◌≡◌, ◌<◌, ◌≤◌, length, IfOk, OnOk};
ghost use Rattle.access_log.specs.Line as specs;
ghost use Rattle.access_log.specs.Spelled.{spelled};
ghost use Rattle.access_log.specs.Tokens.{AddsMembers};

use crate::events::{write_kind, write_members};
use crate::line_buffer::LineBuffer;
use crate::log_event::{Connection, LineHeader, LogEvent};
use crate::member::write_number;
use crate::text_size::LINE_LIMIT;
use crate::utc::Utc;
use std::alloc::{AllocError, Global};

/// The line of an event, with its line feed. Returns no line if an allocation fails.
// open: whether an allocation fails; that a connection's line is never too long, that a server's
// apps are as brief as `apps` requires, and that a line, as defined, is JSON: tests.
#[tactic(auto, using(crate::proofs::Enough::lists_apps))]
pub fn log_line(
    alloc: Global,
    header: &LineHeader,
    event: &LogEvent<'_>,
) -> Result<Vec<u8>, AllocError>
    ensures text { IfOk result (λ line. line.items ≡ specs.event_line header.now event.now) }
    ensures limit { IfOk result (λ line. length line.items ≤ 4096) }
    ensures whole { IfOk result (λ line. specs.IsOneLine line.items) }
    ensures apps { specs.ListsApps event.now }
{
    let mut room = LineBuffer::new(alloc);
    log_line_in(&mut room, header, event)?;
    Vec::from_slice(alloc, room.bytes())
}

/// Replaces the contents of the buffer by the line of an event. The buffer is reused from line to
/// line; if an allocation fails, it may have part of a line.
// open: whether an allocation fails; the same as for `log_line`.
#[tactic(auto, using(crate::proofs::Enough::lists_apps))]
pub fn log_line_in(
    room: &mut LineBuffer,
    header: &LineHeader,
    event: &LogEvent<'_>,
) -> Result<(), AllocError>
    ensures text { OnOk result (room.new ≡ specs.event_line header.now event.now) }
    ensures limit { OnOk result (length room.new ≤ 4096) }
    ensures whole { OnOk result (specs.IsOneLine room.new) }
    ensures apps { specs.ListsApps event.now }
{
    whole_line(room, header, event)?;
    if room.bytes().len() > LINE_LIMIT {
        return line_or_length(room, header, &without_request_id(event));
    }
    Ok(())
}

// The event, without the prefix of a request's id.
fn without_request_id<'x>(event: &LogEvent<'x>) -> LogEvent<'x>
    ensures { result ≡ specs.without_request_id event.now }
{
    match event {
        LogEvent::Connection(connection) => LogEvent::Connection(Connection {
            request_id: None,
            ..*connection
        }),
        _ => *event,
    }
}

// The line of an event, or what replaces it if it is too long.
#[cold]
#[inline(never)]
fn line_or_length(
    room: &mut LineBuffer,
    header: &LineHeader,
    event: &LogEvent<'_>,
) -> Result<(), AllocError>
    ensures text { OnOk result (room.new ≡ specs.line_or_length header.now
        (specs.line_with header.now (specs.members_of event.now))) }
    ensures limit { OnOk result (length room.new ≤ 4096) }
    ensures whole { OnOk result (specs.IsOneLine room.new) }
{
    whole_line(room, header, event)?;
    let bytes = room.bytes().len();
    if bytes > LINE_LIMIT {
        return too_long_line(room, header, bytes);
    }
    Ok(())
}

// The line of an event, of any length.
fn whole_line(
    room: &mut LineBuffer,
    header: &LineHeader,
    event: &LogEvent<'_>,
) -> Result<(), AllocError>
    ensures text { OnOk result
        (room.new ≡ specs.line_with header.now (specs.members_of event.now)) }
    ensures whole { OnOk result (specs.IsOneLine room.new) }
{
    begin_line(room, &header.time, header.port)?;
    write_members(room, event)?;
    room.put(b"}\n")?;
    Ok(())
}

// What replaces a line of `bytes` bytes, which is too long.
fn too_long_line(room: &mut LineBuffer, header: &LineHeader, bytes: usize) -> Result<(), AllocError>
    ensures text { OnOk result
        (room.new ≡ specs.line_with header.now (specs.too_long_members bytes)) }
    ensures limit { OnOk result (length room.new ≤ 4096) }
    ensures whole { OnOk result (specs.IsOneLine room.new) }
{
    begin_line(room, &header.time, header.port)?;
    write_too_long(room, bytes as u64)?;
    room.put(b"}\n")?;
    Ok(())
}

// Replaces the contents by the brace that opens the object, the time and the port.
fn begin_line(room: &mut LineBuffer, time: &Utc, port: u16) -> Result<(), AllocError>
    ensures text { OnOk result (room.new ≡ spelled (specs.begun_at time.now port)) }
    ensures port { port < 65536 }
{
    room.clear();
    room.put(b"{\"time\":\"")?;
    room.put(&time.text())?;
    room.put(b"\"")?;
    write_number(room, "port", port as u64)?;
    Ok(())
}

fn write_too_long(line: &mut LineBuffer, bytes: u64) -> Result<(), AllocError>
    ensures { OnOk result (AddsMembers line.old line.new
        (specs.too_long_members bytes)) }
{
    write_kind(line, "too-long")?;
    write_number(line, "bytes", bytes)?;
    Ok(())
}
