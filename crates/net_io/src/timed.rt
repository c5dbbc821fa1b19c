//! One direction of a connection, with its time limit, and reads at a connection's end. A call that
//! a signal interrupts is made again, within the same time.
//!
//! The stream doesn't block. A call that would have to wait does so by `poll`, for the time that is
//! left, so one that needn't wait is a single system call.
//!
//! At the end, bytes that a client sent after its request are read and dropped. A socket that is
//! closed with unread bytes is reset, and the reply may be lost with it (RFC 9112, section 9.6).

ghost use Rattle.std.specs.Prelude.{◌≡◌, ◌-◌, ◌^◌, min, pos};
ghost use Rattle.std.specs.Duration.{as_nanos};
ghost use Rattle.std.specs.Int.{div_ceil};

use libc::net::{POLLIN, POLLOUT, poll};
use libc::types::pollfd;
use std::io::{self, ErrorKind, Read, Write};
use std::net::{Shutdown, TcpStream};
use std::os::fd::AsRawFd;
use std::time::{Clock, Duration, Instant};

/// How long a client may continue to send after a refusal.
const DRAIN_SECONDS: u64 = 1;

/// The size of the buffer for what a client sends after its request.
const REST_SIZE: usize = 512;

/// One direction of a connection.
#[derive(Drop)]
pub struct Timed<'a, R: Clock> {
    stream: &'a TcpStream,
    clock: &'a R,
    until: Instant,
    bytes: u64,
    // Whether the stream couldn't be made non-blocking; then every call fails.
    is_blocking: bool,
}

impl<'a, R: Clock> Timed<'a, R> {
    /// A direction that ends at the time `until`. The stream is made non-blocking.
    // open: that it counts the bytes of each call, and keeps to its time: tests.
    pub fn new(stream: &'a TcpStream, clock: &'a R, until: Instant) -> Timed<'a, R>
        ensures until { result.until ≡ until }
        ensures bytes { result.bytes ≡ 0 }
    {
        let is_blocking = stream.set_nonblocking(true).is_err();
        Timed {
            stream,
            clock,
            until,
            bytes: 0,
            is_blocking,
        }
    }

    /// The opposite direction of the same connection, which ends at the same time.
    pub fn opposite(&self) -> Timed<'a, R>
        ensures until { result.until ≡ self.now.until }
        ensures bytes { result.bytes ≡ 0 }
    {
        let bytes = 0;
        Timed {
            stream: self.stream,
            clock: self.clock,
            until: self.until,
            bytes,
            is_blocking: self.is_blocking,
        }
    }

    /// How many bytes went this way.
    pub fn bytes(&self) -> u64
        ensures { result ≡ self.now.bytes }
    {
        self.bytes
    }

    // The time left until the end.
    fn left(&self) -> io::Result<Duration> {
        if self.is_blocking {
            return Err(io::Error::from(ErrorKind::Other));
        }
        let now = Instant::now(self.clock)?;
        match self.until.checked_duration_since(now) {
            Some(left) => Ok(left),
            None => Err(io::Error::from(ErrorKind::TimedOut)),
        }
    }

    // Returns when a call that failed can be made again: at once if a signal interrupted it, and
    // when the stream is ready for `events` if the call would have blocked.
    fn wait(&self, error: io::Error, events: i16, left: Duration) -> io::Result<()> {
        match error.kind() {
            ErrorKind::Interrupted => Ok(()),
            ErrorKind::WouldBlock => {
                let mut streams = [pollfd {
                    fd: self.stream.as_raw_fd(),
                    events,
                    revents: 0,
                }];
                match poll(&mut streams, millis(left)) {
                    0 => Err(io::Error::from(ErrorKind::TimedOut)),
                    _ => Ok(()),
                }
            }
            _ => Err(error),
        }
    }

    // Counts the bytes of a call.
    fn count(&mut self, n: usize) {
        self.bytes = self.bytes.saturating_add(n as u64);
    }
}

impl<R: Clock> Read for Timed<'_, R> {
    fn read(&mut self, buf: &mut [u8]) -> io::Result<usize> {
        for _ in 0..u64::MAX {
            let left = self.left()?;
            match self.stream.read(buf) {
                Err(error) => self.wait(error, POLLIN, left)?,
                Ok(n) => {
                    self.count(n);
                    return Ok(n);
                }
            }
        }
        Err(io::Error::from(ErrorKind::TimedOut))
    }
}

impl<R: Clock> Write for Timed<'_, R> {
    fn write(&mut self, buf: &[u8]) -> io::Result<usize> {
        for _ in 0..u64::MAX {
            let left = self.left()?;
            match self.stream.write(buf) {
                Err(error) => self.wait(error, POLLOUT, left)?,
                Ok(n) => {
                    self.count(n);
                    return Ok(n);
                }
            }
        }
        Err(io::Error::from(ErrorKind::TimedOut))
    }

    fn flush(&mut self) -> io::Result<()> {
        Ok(())
    }
}

// The time in milliseconds, rounded up, and cut to the 24 days that fit.
fn millis(left: Duration) -> i32
    ensures { result ≡ pos (min (div_ceil (as_nanos left) 1_000_000) (2 ^ 31 - 1)) }
{
    left.as_nanos().div_ceil(1_000_000).min(i32::MAX as u128) as i32
}

/// Reads and drops what a client still sends after the reply, for at most a second.
// open: what is read at a connection's end: tests.
pub fn drain<R: Clock>(stream: &TcpStream, clock: &R) -> io::Result<()> {
    stream.shutdown(Shutdown::Write)?;
    let now = Instant::now(clock)?;
    let Some(until) = now.checked_add(Duration::from_secs(DRAIN_SECONDS)) else {
        return Ok(());
    };
    let mut rest = Timed::new(stream, clock, until);
    let mut buf = [0; 4096];
    for _ in 0..u64::MAX {
        if rest.read(&mut buf)? == 0 {
            break;
        }
    }
    Ok(())
}

/// Reads what has come after the request, up to 512 bytes, and doesn't wait for more: the stream is
/// that of a `Timed`. Some clients end a body with a line end that its length doesn't count (RFC
/// 9112, section 2.2). Fails with `WouldBlock` if nothing has come.
// open: what is read at a connection's end: tests.
pub fn take_rest(stream: &TcpStream) -> io::Result<()> {
    let mut rest = stream;
    let _taken = rest.read(&mut [0; REST_SIZE])?;
    Ok(())
}
