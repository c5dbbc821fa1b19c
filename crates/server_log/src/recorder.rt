//! A device that keeps, for the log, the first bytes that were read and how it failed.

ghost use Rattle.std.specs.Prelude.{◌≡◌, ◌≤◌, ◌-◌, ◌++◌, [], None, true, false, take, vec_len};

use memchr::memchr;
use operator_request::OperatorRequest;
use std::alloc::Global;
use std::io::{self, ErrorKind, Read, Write};
use std::net::IpAddr;

/// The most bytes that are kept: those of a head, and more than those of an operator's line.
const KEPT_LIMIT: usize = 16384;

/// The header that names the client's address (`Forwarded`, RFC 7239, isn't read).
const FORWARDED: &[u8] = b"x-forwarded-for";

/// A reader or a writer, with the first bytes that were read, if they are wanted.
#[derive(Drop)]
pub struct Recorder<T> {
    inner: T,
    /// Whether `bytes` has the first bytes read; false if they aren't wanted or an allocation
    /// failed.
    is_kept: bool,
    bytes: Vec<u8>,
    failure: Option<ErrorKind>,
}

impl<T> Recorder<T> {
    /// A device from which nothing is read yet.
    pub fn new(alloc: Global, inner: T, is_kept: bool) -> Recorder<T>
        ensures inner { result.inner ≡ inner }
        ensures kept { result.is_kept ≡ is_kept }
        ensures bytes { result.bytes.items ≡ [] }
        ensures failure { result.failure ≡ None }
    {
        Recorder::with_buffer(Vec::new(alloc), inner, is_kept)
    }

    /// A device from which nothing is read yet, with a buffer for what is read.
    pub(crate) fn with_buffer(mut buffer: Vec<u8>, inner: T, is_kept: bool) -> Recorder<T>
        ensures inner { result.inner ≡ inner }
        ensures kept { result.is_kept ≡ is_kept }
        ensures bytes { result.bytes.items ≡ [] }
        ensures failure { result.failure ≡ None }
    {
        buffer.clear();
        Recorder {
            inner,
            is_kept,
            bytes: buffer,
            failure: None,
        }
    }

    /// How the device failed, if it did: with a time-out, a reset, or otherwise.
    pub(crate) fn cause(&self) -> Option<&'static str> {
        match self.failure {
            Some(ErrorKind::WouldBlock | ErrorKind::TimedOut) => Some("time-out"),
            Some(ErrorKind::ConnectionReset | ErrorKind::BrokenPipe) => Some("reset"),
            Some(_) => Some("device"),
            None => None,
        }
    }

    /// The operator's request, if the line is one and was kept.
    pub(crate) fn request(&self) -> Option<OperatorRequest<'_>> {
        if !self.is_kept {
            return None;
        }
        OperatorRequest::of(first_line(&self.bytes))
    }

    /// The address in `X-Forwarded-For`, if it has one address and no list.
    pub(crate) fn forwarded(&self) -> Option<IpAddr> {
        // A request may follow empty lines (RFC 9112, section 2.2).
        let mut rest = self.bytes.trim_ascii_start();
        for _ in 0..KEPT_LIMIT {
            let (line, behind) = split_line(rest)?;
            if line.is_empty() {
                return None;
            }
            if let Some(value) = forwarded_value(line) {
                return IpAddr::parse_ascii(value.trim_ascii()).ok();
            }
            rest = behind;
        }
        None
    }

    /// The device itself.
    pub(crate) fn into_inner(self) -> T
        ensures { result ≡ self.inner }
    {
        self.inner
    }

    /// The buffer with what was read.
    pub(crate) fn into_buffer(self) -> Vec<u8>
    where
        T: Drop,
    {
        self.bytes
    }

    // Appends as many of these bytes as the limit allows, if all earlier ones are kept. Once an
    // allocation fails nothing is appended, so that no text has a gap.
    fn keep(&mut self, bytes: &[u8])
        ensures inner { self.new.inner ≡ self.old.inner }
        ensures most { vec_len self.old.bytes ≤ 16384 → vec_len self.new.bytes ≤ 16384 }
        ensures kept { self.new.is_kept ≡ true → self.new.bytes.items
            ≡ self.old.bytes.items ++ take (16384 - vec_len self.old.bytes) bytes.now }
        ensures refused { self.new.is_kept ≡ false
            → self.new.bytes.items ≡ self.old.bytes.items }
        ensures ended { self.old.is_kept ≡ false → self.new.is_kept ≡ false }
    {
        if self.is_kept {
            let room = KEPT_LIMIT.saturating_sub(self.bytes.len());
            let kept = self.bytes.extend_from_slice(first_bytes(bytes, room));
            self.is_kept = kept.is_ok();
        }
    }

    fn fail(&mut self, error: &io::Error)
        ensures { self.new.inner ≡ self.old.inner }
    {
        self.failure = Some(error.kind());
    }
}

// The first `count` bytes, or all.
fn first_bytes(bytes: &[u8], count: usize) -> &[u8]
    ensures { result.now ≡ take count bytes.now }
{
    if count < bytes.len() {
        return &bytes[..count];
    }
    bytes
}

// The bytes before the first line feed, or all.
fn first_line(bytes: &[u8]) -> &[u8] {
    match bytes.iter().position(|byte| *byte == b'\n') {
        Some(end) => bytes.get(..end).unwrap_or(bytes),
        None => bytes,
    }
}

// The first line without its end, and the bytes after it; `None` without a line feed.
fn split_line(bytes: &[u8]) -> Option<(&[u8], &[u8])> {
    let (line, end) = bytes.split_at_checked(memchr(b'\n', bytes)?)?;
    let [_, behind @ ..] = end else {
        return None;
    };
    match line {
        [line @ .., b'\r'] => Some((line, behind)),
        line => Some((line, behind)),
    }
}

// The bytes after the colon, if the line is the header that names the client's address.
fn forwarded_value(line: &[u8]) -> Option<&[u8]> {
    let [b'x' | b'X', ..] = line else {
        return None;
    };
    let (name, value) = line.split_at_checked(FORWARDED.len())?;
    match value {
        [b':', value @ ..] if name.eq_ignore_ascii_case(FORWARDED) => Some(value),
        _ => None,
    }
}

impl<R: Read> Read for Recorder<R> {
    ghost remaining = { λ d. R.remaining d.inner };

    fn read(&mut self, buf: &mut [u8]) -> io::Result<usize> {
        match self.inner.read(buf) {
            Ok(n) => {
                self.keep(&buf[..n]);
                Ok(n)
            }
            Err(error) => {
                self.fail(&error);
                Err(error)
            }
        }
    }
}

impl<W: Write> Write for Recorder<W> {
    ghost contents = { λ d. W.contents d.inner };

    fn write(&mut self, buf: &[u8]) -> io::Result<usize> {
        match self.inner.write(buf) {
            Ok(n) => Ok(n),
            Err(error) => {
                self.fail(&error);
                Err(error)
            }
        }
    }

    fn flush(&mut self) -> io::Result<()> {
        self.inner.flush()
    }
}
