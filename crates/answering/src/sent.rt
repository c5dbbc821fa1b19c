//! What is logged of a reply that was sent.

/// A reply that was sent.
#[derive(Drop)]
pub struct Sent {
    /// The number of its status.
    pub status: u16,
    /// The text of a refusal, which is a line; empty for Omaha's reply.
    pub line: &'static [u8],
}
