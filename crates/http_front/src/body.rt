//! Reads the body into a buffer that is allocated once, of the length that the head gives.

ghost use Rattle.std.specs.Prelude.{◌+◌, ◌-◌, ◌^◌, ◌<◌, ◌≤◌, length};
ghost use Rattle.std.specs.Prelude.{Ok, Err};
ghost use Rattle.http_front.specs.Post.{CountsDevice, post_answer};
ghost use Rattle.http_front.specs.Reading.{IsBodyAfter, FillsBody};

use crate::head::read_more;
use crate::post_buffers::{begin_body, put_body};
use crate::post_fault::PostFault;
use net_io::Counted;
use std::io::Read;

// Reads until the body is whole; its first bytes are there already.
fn fill<R: Read>(reader: &mut Counted<R>, body: &mut [u8], known: usize) -> Result<(), PostFault>
    requires count { reader.old.failures < 2 ^ 64 - 1 }
    requires room { known ≤ length body.old }
    ensures body { FillsBody (R.remaining reader.old.inner) body.old known
        (post_answer result (λ _. body.new)) }
    ensures count { CountsDevice reader.old.failures reader.new.failures result }
{
    let mut filled = known;
    while filled < body.len() {
        match read_more(reader, body, filled) {
            Err(_) => return Err(PostFault::Device),
            Ok(0) => return Err(PostFault::Ended),
            Ok(gained) => filled += gained,
        }
    }
    Ok(())
}

/// Reads a body whose first bytes came with the head, into a buffer that it allocates.
pub fn read_body<R: Read>(
    reader: &mut Counted<R>,
    body: &mut Vec<u8>,
    first: &[u8],
    size: usize,
) -> Result<(), PostFault>
    requires { reader.old.failures < 2 ^ 64 - 1 }
    ensures body { IsBodyAfter first.now (R.remaining reader.old.inner) size
        (post_answer result (λ _. body.new.items)) }
    ensures count { CountsDevice reader.old.failures reader.new.failures result }
{
    if size <= first.len() {
        return match put_body(body, &first[..size]) {
            Ok(()) => Ok(()),
            Err(_) => Err(PostFault::Memory),
        };
    }
    match begin_body(body, first, size) {
        Ok(()) => fill(reader, body.as_mut_slice(), first.len()),
        Err(_) => Err(PostFault::Memory),
    }
}
