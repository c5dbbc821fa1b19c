//! Writes a reply. Its head is put into a fixed buffer, since a reply must be possible even if
//! allocations fail. A body that fits another fixed buffer after the head is sent with it in one
//! piece, since each piece is a system call; any other is sent after the head. This second buffer
//! is a plain array, which is cleared as a whole; an `ArrayVec` clears itself byte by byte.

ghost use Rattle.std.specs.Prelude.{◌≡◌, ◌+◌, ◌-◌, ◌^◌, ◌<◌, ◌≤◌, ◌++◌, IsTrue, length, take};
ghost use Rattle.arrayvec.specs.ArrayVec.{array_vec_len};
ghost use Rattle.net_io.specs.Device.{CountsFailure, WritesPrefix};
ghost use Rattle.http_front.specs.Reply.{crlf, reply_head, reply_bytes};

use crate::status::Status;
use arrayvec::ArrayVec;
use net_io::{Counted, WriteFault};
use std::io::Write;

/// More bytes than the head of any reply has.
const HEAD_SPACE: usize = 256;

/// Enough bytes for the whole reply to a request of an app or two.
const PIECE_LIMIT: usize = 2048;

// Appends the text to the head.
fn put(head: &mut ArrayVec<u8, HEAD_SPACE>, text: &[u8])
    requires { array_vec_len head.old + length text.now ≤ 256 }
    ensures items { head.new.items ≡ head.old.items ++ text.now }
    ensures len { array_vec_len head.new ≡ array_vec_len head.old + length text.now }
{
    let _fits = head.try_extend_from_slice(text);
}

// Appends a line to the head.
fn put_line(head: &mut ArrayVec<u8, HEAD_SPACE>, name: &[u8], value: &[u8])
    requires { array_vec_len head.old + (length name.now + length value.now + 2) ≤ 256 }
    ensures items { head.new.items ≡ head.old.items ++ (name.now ++ value.now ++ crlf) }
    ensures len { array_vec_len head.new
        ≡ array_vec_len head.old + (length name.now + length value.now + 2) }
{
    put(head, name);
    put(head, value);
    put(head, b"\r\n");
}

// The head of a reply with a body of `size` bytes.
fn head_of(status: Status, size: usize) -> ArrayVec<u8, HEAD_SPACE>
    ensures { result.items ≡ reply_head status size }
{
    let mut head = ArrayVec::new();
    let mut number = itoa::Buffer::new();
    put(&mut head, b"HTTP/1.1 ");
    put(&mut head, number.format(status.code()).as_bytes());
    put_line(&mut head, b" ", status.reason());
    put_line(&mut head, b"Content-Type: ", status.content_type());
    let digits = number.format(size).as_bytes();
    put_line(&mut head, b"Content-Length: ", digits);
    put(&mut head, status.allow_line());
    put_line(&mut head, b"Connection: ", b"close");
    put(&mut head, b"\r\n");
    head
}

// Puts the two texts, one after the other, at the front of the buffer, if both fit.
fn fits(room: &mut [u8], head: &[u8], body: &[u8]) -> bool
    ensures len { length room.new ≡ length room.old }
    ensures size { IsTrue result → length head.now + length body.now ≤ length room.old }
    ensures front { IsTrue result
        → take (length head.now + length body.now) room.new ≡ head.now ++ body.now }
{
    let size = head.len() + body.len();
    if room.len() < size {
        return false;
    }
    room[..head.len()].copy_from_slice(head);
    room[head.len()..size].copy_from_slice(body);
    true
}

// Writes one text, and then the other.
fn write_both<W: Write>(writer: &mut Counted<W>, head: &[u8], body: &[u8]) -> Result<(), WriteFault>
    requires { writer.old.failures < 2 ^ 64 - 1 }
    ensures bytes { WritesPrefix (W.contents writer.old.inner) (W.contents writer.new.inner)
        (head.now ++ body.now) result }
    ensures count { CountsFailure writer.old.failures writer.new.failures result }
{
    writer.write_whole(head)?;
    match writer.write_whole(body) {
        Ok(()) => Ok(()),
        Err(fault) => Err(WriteFault {
            written: head.len() + fault.written,
        }),
    }
}

/// Writes a whole reply, or a prefix of it up to the first failure; nothing is allocated.
// open: when a device fails.
pub fn write_reply<W: Write>(
    writer: &mut Counted<W>,
    status: Status,
    body: &[u8],
) -> Result<(), WriteFault>
    requires { writer.old.failures < 2 ^ 64 - 1 }
    ensures bytes { WritesPrefix (W.contents writer.old.inner) (W.contents writer.new.inner)
        (reply_bytes status body.now) result }
    ensures count { CountsFailure writer.old.failures writer.new.failures result }
{
    let head = head_of(status, body.len());
    let mut room = [0; PIECE_LIMIT];
    if fits(&mut room, head.as_slice(), body) {
        writer.write_whole(&room[..head.len() + body.len()])
    } else {
        write_both(writer, head.as_slice(), body)
    }
}
