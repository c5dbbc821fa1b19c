//! A server with its replies.

/// What a server says of itself.
#[derive(Clone, Copy)]
pub struct ServerFacts<'a> {
    /// Its operator's port.
    pub port: u16,
    /// Its replies, unless it doesn't reply.
    pub replies: Option<ServerReplies<'a>>,
}

/// The lines of a server's replies.
#[derive(Clone, Copy)]
pub struct ServerReplies<'a> {
    /// To `state`. An older server has no such word.
    pub state: Option<&'a str>,
    /// To `cells`; empty if all counters are 0.
    pub cells: &'a str,
}
