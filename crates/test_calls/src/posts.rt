//! Posts of HTTP that end too soon, that come in pieces, and whose reads fail. Rows of the program
//! `rows` have the other posts.

use http_front::{Counted, FailAt, read_post};
use std::alloc::Global;
use std::test::Fail;

/// Whether this body is read, or this fault returned, if at most `piece` bytes arrive in a read.
/// The read numbered `fails` fails, counted from 1, and only its failure is counted.
fn is_read(
    alloc: Global,
    input: &[u8],
    piece: usize,
    fails: u64,
    want: Result<&[u8], &str>,
) -> bool {
    let mut reader = Counted::new(FailAt::new(input, piece, fails));
    let is_wanted = match read_post(alloc, &mut reader) {
        Ok(body) => want == Ok(body.as_slice()),
        Err(fault) => want == Err(fault.line().trim_end()),
    };
    let failures = if want == Err("P8 Device") { 1 } else { 0 };
    is_wanted && reader.failures() == failures
}

const POST: &[u8] = b"POST /service/update2/json HTTP/1.1\r\nContent-Length: 4\r\n\r\nbody";

/// A body that is too large by one byte.
const TOO_LARGE: &[u8] = b"POST /service/update2/json HTTP/1.1\r\nContent-Length: 1048577\r\n\r\n";

/// What a client sends before it ends the connection, and the body or the fault.
const SENT: &[(&[u8], Result<&[u8], &str>)] = &[
    (b"", Err("P7 Ended")),
    (b"\r\n\r\n", Err("P7 Ended")),
    (
        b"POST /service/update2/json HTTP/1.1\r\nHost: h",
        Err("P7 Ended"),
    ),
    (b"POST / HTTP/1.1\r\nHost: h\r\n\r", Err("P7 Ended")),
    (
        b"POST /service/update2/json HTTP/1.1\r\nContent-Length: 1\r\n\r\n",
        Err("P7 Ended"),
    ),
    (
        b"POST /service/update2/json HTTP/1.1\r\nContent-Length: 10\r\n\r\n123456789",
        Err("P7 Ended"),
    ),
    (
        b"POST /service/update2/json HTTP/1.1\r\nContent-Length: 1048576\r\n\r\n{}",
        Err("P7 Ended"),
    ),
    (b"POST /service/update2/json HTTP/1.1\r\n:", Err("P1 Head")),
    (TOO_LARGE, Err("P5 TooLarge")),
    (POST, Ok(b"body")),
];

/// Whether the result is this for one piece, for small ones, and for one byte a read.
fn is_read_in_pieces(alloc: Global, input: &[u8], want: Result<&[u8], &str>) -> bool {
    is_read(alloc, input, 1_000_000, 0, want)
        && is_read(alloc, input, 7, 0, want)
        && is_read(alloc, input, 1, 0, want)
}

#[test]
fn posts_in_pieces(rt: HostRuntime) {
    for (input, want) in SENT {
        assert!(rt; is_read_in_pieces(rt.alloc(), *input, *want));
    }
}

/// A refusal reads no further than it has to, so the last two are returned before a read fails.
#[test]
fn reads_that_fail(rt: HostRuntime) {
    for call in 1..=62 {
        assert!(rt;
            is_read(rt.alloc(), POST, 1, call, Err("P8 Device")),
            "at {call}"
        );
    }
    assert!(rt; is_read(rt.alloc(), POST, 1, 63, Ok(b"body")));
    assert!(rt; is_read(rt.alloc(), TOO_LARGE, 1, 65, Err("P5 TooLarge")));
    assert!(rt; is_read(rt.alloc(), b"\x00POST", 1, 2, Err("P1 Head")));
}

/// A head that never ends is refused after 16384 bytes, before the next read. A shorter one that
/// stops is cut off.
#[test]
fn heads_without_an_end(rt: HostRuntime) -> Result<(), Fail> {
    let mut bytes = Vec::from_elem(rt.alloc(), b'A', 16_384)?;
    assert!(rt; is_read(rt.alloc(), &bytes, 64, 257, Err("P6 HeadTooLarge")));
    bytes.truncate(16_383);
    assert!(rt; is_read(rt.alloc(), &bytes, 4096, 0, Err("P7 Ended")));
    Ok(())
}
