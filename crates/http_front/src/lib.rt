//! The front of the server: reads the one POST of a connection, and writes the reply. HTTP/1.0 and
//! HTTP/1.1 (RFC 9112), one request a connection.
//!
//! A head is what the crate `httparse` accepts: lines may end in LF only, and empty lines may come
//! first. It is checked as its bytes arrive, so that a malformed head is refused as early as
//! possible, and at most a head's limit is read. Only then are the target, the method and the
//! length checked, in this order, and the buffer for the body is allocated, once.
//!
//! See docs/SPECIFICATION.md, "The front".
#![tactic(auto)]

mod body;
mod head;
mod head_rules;
mod header_lines;
mod length;
mod post;
mod post_buffers;
mod post_fault;
mod reply;
mod status;

pub use post::read_post;
pub use post_buffers::PostBuffers;
pub use post_fault::PostFault;
pub use reply::write_reply;
pub use status::Status;

// These are named in the contracts of this crate.
pub use net_io::{Counted, FailAt, Failed, WriteFault};
