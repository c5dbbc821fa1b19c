//! Reads a request: its head, and then its body.

ghost use Rattle.std.specs.Prelude.{◌≡◌, ◌-◌, ◌^◌, ◌<◌, length};
ghost use Rattle.http_front.specs.Post.{ReadsPost};

use crate::body::read_body;
use crate::head::read_head;
use crate::head_rules::requested_length;
use crate::post_buffers::PostBuffers;
use crate::post_fault::PostFault;
use httparse::spans::HeaderSpan;
use net_io::Counted;
use std::alloc::Global;
use std::io::Read;

/// Reads the one POST of a connection, and returns its body. At most 16,384 bytes are read until a
/// head is whole, and a refused body isn't read beyond what came with its head. The reader may have
/// returned more bytes than the request has; they are lost. This is the specification's call;
/// servers take `PostBuffers`, whose memory is used again.
// open: whether an allocation fails (P9). At which of these bytes a head is refused that no bytes
// can complete: tests. Which of two faults is returned if `httparse` allows both. For a head with
// over 64 lines these are P6 and one of P1, P7 and P8; if the input stops within the target, P1 and
// one of P6, P7 and P8.
pub fn read_post<R: Read>(alloc: Global, reader: &mut Counted<R>) -> Result<Vec<u8>, PostFault>
    requires { reader.old.failures < 2 ^ 64 - 1 }
    ensures { ReadsPost R.remaining reader.old reader.new result (λ v. v.items) }
{
    let mut room = PostBuffers::new(alloc);
    room.read_post(reader)?;
    Ok(room.into_body())
}

/// Reads a request with a buffer for its head, and replaces the last body by its body.
pub(crate) fn read_by<R: Read>(
    reader: &mut Counted<R>,
    buf: &mut [u8],
    headers: &mut [HeaderSpan],
    body: &mut Vec<u8>,
) -> Result<(), PostFault>
    requires count { reader.old.failures < 2 ^ 64 - 1 }
    requires room { length buf.old ≡ 16384 }
    requires lines { length headers.old ≡ 64 }
    ensures { ReadsPost R.remaining reader.old reader.new result (λ _. body.new.items) }
{
    let found = read_head(reader, buf, headers)?;
    let seen = &buf[..found.filled];
    let size = requested_length(seen, headers, found.head)?;
    read_body(reader, body, &seen[found.head.len..], size)
}
