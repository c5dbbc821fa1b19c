//! The log line of a server's start: that it is about to serve what has this digest, or why it
//! doesn't start.

ghost use Rattle.std.specs.Prelude.{◌≡◌, IfOk, IfSome, option_copied, option_map};
ghost use Rattle.hex.specs.Hex.{encode_lower};
ghost use Rattle.server_log.specs.Starts.{DescribesRefusedStart, DescribesStart, IsStartLine};
ghost use Rattle.server_log.specs.Starts.{digest_in};

use crate::clock::utc_now;
use crate::load_line::{digest_text, excerpt_of};
use crate::log_output::LogOutput;
use crate::log_queue::{LogPiece, LogQueue};
use access_log::{Excerpt, LineHeader, LogEvent, Start, Utc, log_line};
use ruleset::LoadedRuleset;
use std::alloc::{AllocError, Global};
use std::fmt::Display;
use std::sync::Wait;
use std::time::Clock;

/// A server that is starting.
#[derive(Clone, Copy)]
pub struct Starting<'a> {
    /// The path of its manifest.
    pub manifest: &'a str,
    /// The clients' port, and the operator's.
    pub port: u16,
    pub operator: u16,
    /// How the file of its counters was found, if it has one: `new`, `stopped` or `crashed`.
    pub counters: Option<&'a str>,
}

/// Puts the line of a server that starts into the queue, with the digest of what it serves. If an
/// allocation fails, the digest is left out, or the line is lost.
// open: that what is queued is the line of `start_line`, and that it is written: no contract knows
// the contents of a queue. Tests.
pub fn note_start<H>(rt: &H, queue: &LogQueue, server: Starting<'_>, serves: &LoadedRuleset)
where
    H: Wait + AllocGlobal + Clock,
{
    let time = utc_now(rt);
    let piece = match start_line(rt.alloc(), &time, server, Some(serves)) {
        Ok(piece) => Ok(piece),
        Err(_) => start_line(rt.alloc(), &time, server, None),
    };
    match piece {
        Ok(piece) => queue.put(rt, piece),
        Err(_) => queue.count_lost(1),
    }
}

/// Puts the line of a refused start into the queue, with the fault's text and its cause. The line
/// is lost if an allocation fails.
// open: that what is queued is the line of `refused_start_line` with this fault and cause, and that
// it is written: no contract knows the contents of a queue. Tests.
pub fn note_refused_start<H, F>(
    rt: &H,
    queue: &LogQueue,
    server: Starting<'_>,
    fault: &F,
    cause: Option<&str>,
)
where
    H: Wait + AllocGlobal + Clock,
    F: Display,
{
    match refused_start_line(rt.alloc(), &utc_now(rt), server, fault, cause) {
        Ok(text) => queue.put(rt, LogPiece { text, lines: 1 }),
        Err(_) => queue.count_lost(1),
    }
}

/// Writes the line of a refused start at once, without a queue. The line is lost if an
/// allocation or standard error fails.
// open: that what is written is the line of `refused_start_line` with this fault and cause: no
// contract knows what standard error takes. Tests.
pub fn write_refused_start<H, F>(rt: &H, server: Starting<'_>, fault: &F, cause: Option<&str>)
where
    H: AllocGlobal + Clock + LogOutput,
    F: Display,
{
    if let Ok(line) = refused_start_line(rt.alloc(), &utc_now(rt), server, fault, cause) {
        let _written = rt.write_lines(&line);
    }
}

/// The line of a server that starts, with the digest of what it serves, if that is passed.
// open: whether an allocation fails.
fn start_line(
    alloc: Global,
    time: &Utc,
    server: Starting<'_>,
    serves: Option<&LoadedRuleset>,
) -> Result<LogPiece, AllocError>
    ensures line { IfOk result
        (λ piece. IsStartLine time.now server.entry (DescribesStart server.entry
        (option_map encode_lower (digest_in (option_copied serves.entry)))) piece.text.items) }
    ensures one { IfOk result (λ piece. piece.lines ≡ 1) }
{
    let digest = digest_text(alloc, digest_of(serves))?;
    let event = LogEvent::Start(started(server, digest.as_deref()));
    let header = LineHeader {
        time: *time,
        port: server.port,
    };
    let text = log_line(alloc, &header, &event)?;
    Ok(LogPiece { text, lines: 1 })
}

fn digest_of(serves: Option<&LoadedRuleset>) -> Option<[u8; 32]>
    ensures { result ≡ digest_in (option_copied serves.entry) }
{
    match serves {
        Some(loaded) => {
            let digest = loaded.digest;
            Some(digest)
        }
        None => None,
    }
}

/// The line of a refused start.
// open: whether an allocation fails.
fn refused_start_line<F: Display>(
    alloc: Global,
    time: &Utc,
    server: Starting<'_>,
    fault: &F,
    cause: Option<&str>,
) -> Result<Vec<u8>, AllocError>
    ensures { IfOk result (λ line. IfSome (F.output fault.now)
        (λ text. IsStartLine time.now server.entry
        (DescribesRefusedStart server.entry text (option_copied cause.entry)) line.items)) }
{
    let text = fault.to_string(alloc)?;
    let event = LogEvent::Start(refused(server, &text, cause));
    let header = LineHeader {
        time: *time,
        port: server.port,
    };
    log_line(alloc, &header, &event)
}

fn started<'x>(server: Starting<'x>, digest: Option<&'x str>) -> Start<'x>
    ensures { DescribesStart server.entry (option_copied digest.entry) result }
{
    Start {
        manifest: Excerpt::of(server.manifest),
        operator: server.operator,
        digest,
        counters: server.counters,
        refusal: None,
        cause: None,
    }
}

fn refused<'x>(server: Starting<'x>, refusal: &'x str, cause: Option<&'x str>) -> Start<'x>
    ensures { DescribesRefusedStart server.entry refusal.now (option_copied cause.entry) result }
{
    Start {
        manifest: Excerpt::of(server.manifest),
        operator: server.operator,
        digest: None,
        counters: server.counters,
        refusal: Some(refusal),
        cause: excerpt_of(cause),
    }
}
