//! The buffers in which requests are read, so that a worker thread can reuse them.

ghost use Rattle.std.specs.Prelude.{◌≡◌, ◌-◌, ◌^◌, ◌<◌, ◌≤◌, OnOk, length, take, []};
ghost use Rattle.http_front.specs.Post.{ReadsPost};

use crate::post::read_by;
use crate::post_fault::PostFault;
use httparse::spans::EMPTY_HEADER_SPAN;
use net_io::Counted;
use std::alloc::{AllocError, Global};
use std::io::Read;
use std::marker::Model;

/// The most bytes that a head may have.
const HEAD_LIMIT: usize = 16_384;

/// The most header lines that a head may have.
const FIELD_LIMIT: usize = 64;

/// The largest buffer of a body that is kept for the next one.
const KEPT_BODY: usize = 65_536;

/// A block of zeros, to fill a buffer with.
static BLANK: [u8; HEAD_LIMIT] = [0; HEAD_LIMIT];

/// Buffers for a head, and for a body of any length. They are allocated as requests need them, and
/// kept: 16,384 bytes for a head, and up to 65,536 for a body. The buffer of a longer body is freed
/// before the next request is read. In contracts, a `PostBuffers` is the body that was read last.
#[derive(Drop)]
pub struct PostBuffers {
    head: Vec<u8>,
    body: Vec<u8>,
}

impl Model for PostBuffers {
    ghost use Rattle.std.specs.Prelude.{List, ℕ};

    ghost Value = { List ℕ };

    ghost view = { λ r. r.body.items };
}

impl PostBuffers {
    /// No body, and no allocation yet.
    pub fn new(alloc: Global) -> PostBuffers
        ensures { result ≡ [] }
    {
        PostBuffers {
            head: Vec::new(alloc),
            body: Vec::new(alloc),
        }
    }

    /// The body that was read last.
    pub fn body(&self) -> &[u8]
        ensures { result.now ≡ self.now }
    {
        self.body.as_slice()
    }

    /// The body that was read last, without the head's buffer.
    pub fn into_body(self) -> Vec<u8>
        ensures { result.items ≡ self }
    {
        let PostBuffers { head: _head, body } = self;
        body
    }

    /// Reads the one POST of a connection, and keeps its body. The body after a refusal isn't
    /// specified.
    // open: what `read_post` leaves open.
    pub fn read_post<R: Read>(&mut self, reader: &mut Counted<R>) -> Result<(), PostFault>
        requires { reader.old.failures < 2 ^ 64 - 1 }
        ensures { ReadsPost R.remaining reader.old reader.new result (λ _. self.new) }
    {
        let Ok(()) = make_head_space(&mut self.head) else {
            return Err(PostFault::Memory);
        };
        let mut headers = [EMPTY_HEADER_SPAN; FIELD_LIMIT];
        read_by(
            reader,
            self.head.as_mut_slice(),
            &mut headers,
            &mut self.body,
        )
    }
}

// Allocates the buffer for a head, if it isn't there.
fn make_head_space(head: &mut Vec<u8>) -> Result<(), AllocError>
    ensures { OnOk result (length head.new.items ≡ 16384) }
{
    if head.len() == HEAD_LIMIT {
        return Ok(());
    }
    head.clear();
    head.extend_from_slice(&BLANK)
}

/// Replaces the last body by a whole one.
pub fn put_body(body: &mut Vec<u8>, bytes: &[u8]) -> Result<(), AllocError>
    ensures { OnOk result (body.new.items ≡ bytes.now) }
{
    empty(body);
    body.extend_from_slice(bytes)
}

/// Replaces the last body by one of `size` bytes that begins with `first`.
pub fn begin_body(body: &mut Vec<u8>, first: &[u8], size: usize) -> Result<(), AllocError>
    requires { length first.now ≤ size }
    ensures first { OnOk result (take (length first.now) body.new.items ≡ first.now) }
    ensures size { OnOk result (length body.new.items ≡ size) }
{
    put_body(body, first)?;
    while body.len() < size {
        let more = (size - body.len()).min(BLANK.len());
        body.extend_from_slice(&BLANK[..more])?;
    }
    Ok(())
}

// Removes the last body, and frees its buffer if it is too large to be kept.
fn empty(body: &mut Vec<u8>)
    ensures { body.new.items ≡ [] }
{
    if body.capacity() > KEPT_BODY {
        *body = Vec::new(*body.allocator());
    } else {
        body.clear();
    }
}
