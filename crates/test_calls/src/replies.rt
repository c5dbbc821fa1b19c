//! The replies of HTTP, byte for byte, and writers that fail.

use http_front::{Counted, FailAt, Status, WriteFault, write_reply};
use std::alloc::Global;

/// A status, the body, and the whole reply.
type Reply = (Status, &'static str, &'static str);

/// A refusal of 107 bytes.
const REFUSAL: Reply = (
    Status::LengthRequired,
    "P4 Length\n",
    "HTTP/1.1 411 Length Required\r\nContent-Type: text/plain\r\n\
        Content-Length: 10\r\nConnection: close\r\n\r\nP4 Length\n",
);

const REPLIES: &[Reply] = &[
    REFUSAL,
    (
        Status::Success,
        "{}",
        "HTTP/1.1 200 OK\r\nContent-Type: application/json; charset=utf-8\r\n\
            Content-Length: 2\r\nConnection: close\r\n\r\n{}",
    ),
    (
        Status::BadRequest,
        "P1 Head\n",
        "HTTP/1.1 400 Bad Request\r\nContent-Type: text/plain\r\n\
            Content-Length: 8\r\nConnection: close\r\n\r\nP1 Head\n",
    ),
    (
        Status::NotFound,
        "P2 Path\n",
        "HTTP/1.1 404 Not Found\r\nContent-Type: text/plain\r\n\
            Content-Length: 8\r\nConnection: close\r\n\r\nP2 Path\n",
    ),
    (
        Status::MethodNotAllowed,
        "P3 Method\n",
        "HTTP/1.1 405 Method Not Allowed\r\nContent-Type: text/plain\r\n\
            Content-Length: 10\r\nAllow: POST\r\nConnection: close\r\n\r\nP3 Method\n",
    ),
    (
        Status::ContentTooLarge,
        "P5 TooLarge\n",
        "HTTP/1.1 413 Content Too Large\r\nContent-Type: text/plain\r\n\
            Content-Length: 12\r\nConnection: close\r\n\r\nP5 TooLarge\n",
    ),
    (
        Status::HeaderFieldsTooLarge,
        "P6 HeadTooLarge\n",
        "HTTP/1.1 431 Request Header Fields Too Large\r\nContent-Type: text/plain\r\n\
            Content-Length: 16\r\nConnection: close\r\n\r\nP6 HeadTooLarge\n",
    ),
    (
        Status::InternalServerError,
        "",
        "HTTP/1.1 500 Internal Server Error\r\nContent-Type: text/plain\r\n\
            Content-Length: 0\r\nConnection: close\r\n\r\n",
    ),
    (
        Status::ServiceUnavailable,
        "K4 Store\n",
        "HTTP/1.1 503 Service Unavailable\r\nContent-Type: text/plain\r\n\
            Content-Length: 9\r\nConnection: close\r\n\r\nK4 Store\n",
    ),
];

/// Whether the first `count` bytes of a reply are written, and the result says so, if a write takes
/// at most `piece` bytes and the write numbered `fails` fails, counted from 1.
fn is_written(alloc: Global, reply: Reply, piece: usize, fails: u64, count: usize) -> bool {
    let (status, body, whole) = reply;
    let (want, failures) = if count == whole.len() {
        (Ok(()), 0)
    } else {
        (Err(WriteFault { written: count }), 1)
    };
    let mut writer = Counted::new(FailAt::new(Vec::new(alloc), piece, fails));
    let is_wanted = write_reply(&mut writer, status, body.as_bytes()) == want
        && writer.failures() == failures;
    let out: Vec<u8> = writer.into_inner().into_inner();
    is_wanted && Some(out.as_slice()) == whole.as_bytes().get(..count)
}

/// Whether a reply is written whole.
fn is_whole(alloc: Global, reply: Reply) -> bool {
    let (_status, _body, whole) = reply;
    is_written(alloc, reply, 1_000_000, 0, whole.len())
}

#[test]
fn replies(rt: HostRuntime) {
    for reply in REPLIES {
        assert!(rt; is_whole(rt.alloc(), *reply));
    }
}

/// How many bytes a write of the refusal takes, which write fails (0: none), and how many bytes are
/// written.
const FAILING: &[(usize, u64, usize)] = &[
    (40, 3, 80),
    (97, 2, 97),
    (97, 1, 0),
    (100, 2, 100),
    (3, 36, 105),
    (1, 0, 107),
];

#[test]
fn writes_that_fail(rt: HostRuntime) {
    for (piece, fails, count) in FAILING {
        assert!(rt; is_written(rt.alloc(), REFUSAL, *piece, *fails, *count));
    }
    for count in 0..107 {
        assert!(rt; is_written(rt.alloc(), REFUSAL, 1, count as u64 + 1, count));
    }
}

/// The result of a reply whose body has `size` zeros, at most 1950, over a writer whose write
/// numbered `fails` fails. The head has 99 bytes.
fn of_zeros(alloc: Global, size: usize, fails: u64) -> Result<(), WriteFault> {
    let body = [0; 1950];
    let mut writer = Counted::new(FailAt::new(Vec::new(alloc), 4096, fails));
    write_reply(&mut writer, Status::LengthRequired, &body[..size.min(1950)])
}

// Head and body are one write if they have at most 2048 bytes.
#[test]
fn body_that_fits_goes_with_its_head(rt: HostRuntime) {
    assert!(rt; of_zeros(rt.alloc(), 1949, 1) == Err(WriteFault { written: 0 }));
    assert!(rt; of_zeros(rt.alloc(), 1949, 2) == Ok(()));
    assert!(rt; of_zeros(rt.alloc(), 1950, 2) == Err(WriteFault { written: 99 }));
    assert!(rt; of_zeros(rt.alloc(), 1950, 3) == Ok(()));
}

// A writer that takes 40 bytes and then none.
#[test]
fn writer_with_room_for_40_bytes(rt: HostRuntime) {
    let (status, body, whole) = REFUSAL;
    let mut room = [0; 40];
    let mut writer = Counted::new(room.as_mut_slice());
    let answer = write_reply(&mut writer, status, body.as_bytes());
    assert!(rt; answer == Err(WriteFault { written: 40 }) && writer.failures() == 1);
    assert!(rt; whole.as_bytes().get(..40) == Some(room.as_slice()));
}
