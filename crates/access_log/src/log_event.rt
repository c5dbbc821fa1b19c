//! What happens to a server, as its log records it.

use crate::excerpt::Excerpt;
use crate::logged_app::LoggedApp;
use crate::utc::Utc;

/// What each line begins with.
#[derive(Clone, Copy)]
pub struct LineHeader {
    /// When the line was made.
    pub time: Utc,
    /// The clients' port of the server.
    pub port: u16,
}

/// A server's start, or why it doesn't start.
#[derive(Clone, Copy)]
pub struct Start<'a> {
    /// The path of its manifest.
    pub manifest: Excerpt<'a>,
    /// The operator's port.
    pub operator: u16,
    /// The digest of its manifest and of the files that this names, in hexadecimal digits.
    pub digest: Option<&'a str>,
    /// How the file of its counters was found, if it has one: `new`, `stopped` or `crashed`.
    pub counters: Option<&'a str>,
    pub refusal: Option<&'a str>,
    /// A detail of the refusal, such as which array or which member is wrong.
    pub cause: Option<Excerpt<'a>>,
}

/// A load that the operator requested.
#[derive(Clone, Copy)]
pub struct Load<'a> {
    /// The path of the manifest, as the operator wrote it.
    pub path: Excerpt<'a>,
    /// The generation that is served from then on; 0 if the load was refused.
    pub generation: u64,
    /// The digest of the manifest and of the files that it names, in hexadecimal digits.
    pub digest: Option<&'a str>,
    /// How many apps are halted, whatever is loaded.
    pub halted: u64,
    pub refusal: Option<&'a str>,
    /// A detail of the refusal, such as which array changes, or which member is wrong.
    pub cause: Option<Excerpt<'a>>,
}

/// A halt of an app that the operator requested, or its end.
#[derive(Clone, Copy)]
pub struct Halt<'a> {
    /// The appid, as the operator wrote it.
    pub app: Excerpt<'a>,
    /// Whether the halt was to end: `resume`.
    pub is_resume: bool,
    /// The generation that is served from then on; 0 if the request was refused.
    pub generation: u64,
    pub refusal: Option<&'a str>,
}

/// A client's connection, at its end.
#[derive(Clone, Copy)]
pub struct Connection<'a> {
    /// The address and the port at the other end.
    pub peer: &'a str,
    /// The address that a proxy names.
    pub forwarded: Option<&'a str>,
    /// Whether a request was read, and has neither a request id nor a session id.
    pub lacks_id: bool,
    /// A prefix of the request's id, or of its session's if it has none: `Excerpt::of_id`.
    pub request_id: Option<&'a str>,
    /// The status of the reply; 0 if there was none, or it was sent only in part.
    pub status: u16,
    /// The error that the client got, or why it got no reply.
    pub refusal: Option<&'a str>,
    /// What failed: a time-out, a reset, the clock.
    pub cause: Option<&'a str>,
    /// The generation of the ruleset by which the apps were answered; 0 if there was none.
    pub generation: u64,
    /// How many bytes were written.
    pub bytes: u64,
    /// How long it took, in microseconds.
    pub micros: u64,
    /// How long it had waited for a worker, in microseconds; 0 if that isn't known.
    pub waited: u64,
    pub apps: &'a [LoggedApp<'a>],
}

/// Totals of connections, by the statuses of their replies.
#[derive(Clone, Copy)]
pub struct Totals {
    /// How many got a whole reply of status 200; the next fields count other statuses.
    pub success: u64,
    pub bad_request: u64,
    pub not_found: u64,
    pub method_not_allowed: u64,
    pub length_required: u64,
    pub content_too_large: u64,
    pub header_fields_too_large: u64,
    pub internal_server_error: u64,
    pub service_unavailable: u64,
    /// How many got no whole reply.
    pub dropped: u64,
    /// The longest wait for a worker, in microseconds.
    pub longest_wait: u64,
    /// The most workers that were busy at once.
    pub busy: u64,
}

/// A counter that isn't 0 when a server ends.
#[derive(Clone, Copy)]
pub struct Counter<'a> {
    pub array: &'a str,
    pub index: u16,
    pub value: u64,
}

/// What happened.
#[derive(Clone, Copy)]
pub enum LogEvent<'a> {
    Start(Start<'a>),
    /// The server is ready, and serves the ruleset of this generation.
    Serving(u64),
    Load(Load<'a>),
    Halt(Halt<'a>),
    Connection(Connection<'a>),
    /// A connection couldn't be accepted, for this reason.
    Unaccepted(&'a str),
    /// This number of lines before this one was lost, since they weren't read in time.
    Lost(u64),
    /// Totals of the connections since the last such line.
    Totals(Totals),
    /// The file of the counters couldn't be written, for this reason; or it can be again.
    Counters(Option<&'a str>),
    /// The operator stopped the server; and the error at its end, if there was one.
    Stop(Option<&'a str>),
    Counter(Counter<'a>),
}
