//! A device for tests: it reads and writes in small pieces, and fails once.

ghost use Rattle.std.specs.Prelude.{◌≡◌, ◌<◌};

use std::io::{self, ErrorKind, Read, Write};

/// A reader or a writer that takes at most `piece` bytes a call and fails at one of its calls. It
/// reads and writes through the inner one.
#[derive(Drop)]
pub struct FailAt<T> {
    inner: T,
    piece: usize,
    calls_left: u64,
    ghost some: { 0 < piece },
}

impl<T> FailAt<T> {
    /// The call that fails is counted from 1; with 0 none fails. A piece of 0 counts as 1.
    pub fn new(inner: T, piece: usize, call: u64) -> FailAt<T>
        ensures { result.inner ≡ inner }
    {
        FailAt {
            inner,
            piece: piece.max(1),
            calls_left: call,
        }
    }

    /// The inner reader or writer.
    pub fn into_inner(self) -> T
        ensures { result ≡ self.inner }
    {
        self.inner
    }

    // Counts a call, and returns whether it is the one that fails.
    fn is_failing(&mut self) -> bool
        ensures inner { self.new.inner ≡ self.old.inner }
        ensures piece { self.new.piece ≡ self.old.piece }
    {
        let fails = self.calls_left == 1;
        self.calls_left = self.calls_left.saturating_sub(1);
        fails
    }
}

impl<R: Read> Read for FailAt<R> {
    ghost remaining = { λ d. R.remaining d.inner };

    fn read(&mut self, buf: &mut [u8]) -> io::Result<usize> {
        if self.is_failing() {
            return Err(io::Error::from(ErrorKind::Other));
        }
        let room = buf.len().min(self.piece);
        let n = self.inner.read(&mut buf[..room])?;
        Ok(n)
    }
}

impl<W: Write> Write for FailAt<W> {
    ghost contents = { λ d. W.contents d.inner };

    fn write(&mut self, buf: &[u8]) -> io::Result<usize> {
        if self.is_failing() {
            return Err(io::Error::from(ErrorKind::Other));
        }
        let room = buf.len().min(self.piece);
        let n = self.inner.write(&buf[..room])?;
        Ok(n)
    }

    fn flush(&mut self) -> io::Result<()> {
        self.inner.flush()
    }
}
