//! A device that counts its failures, so that an error that blames the device can be checked
//! against the count.

ghost use Rattle.std.specs.Prelude.{◌≡◌, ◌-◌, ◌^◌, ◌<◌, ◌≤◌, length, MatchResult};
ghost use Rattle.std.specs.Io.KnownBytes.{ReadConsumes};
ghost use Rattle.net_io.specs.Device.{CountsFailure, WritesPrefix};

use std::io::{Read, Write};

/// A reader or a writer, with the number of its failures. A write that takes no byte is a failure.
/// A call ends at its first failure.
#[derive(Drop)]
pub struct Counted<T> {
    inner: T,
    failures: u64,
}

/// The device failed.
#[derive(Clone, Copy, Debug, Drop)]
pub struct Failed;

/// The device failed after it took `written` bytes, which are a prefix of what was to be written.
#[derive(Clone, Copy, Debug, PartialEq, Eq, Drop)]
pub struct WriteFault {
    pub written: usize,
}

impl<T> Counted<T> {
    /// A device that has not failed yet.
    pub fn new(inner: T) -> Counted<T>
        ensures inner { result.inner ≡ inner }
        ensures failures { result.failures ≡ 0 }
    {
        Counted { inner, failures: 0 }
    }

    /// How often the device has failed.
    pub fn failures(&self) -> u64
        ensures { result ≡ self.now.failures }
    {
        self.failures
    }

    /// The device itself.
    pub fn into_inner(self) -> T
        ensures { result ≡ self.inner }
    {
        self.inner
    }
}

impl<R: Read> Counted<R> {
    /// Reads some bytes to the front of `buf`. No byte means the end of the input.
    // open: when a device fails.
    pub fn read_some(&mut self, buf: &mut [u8]) -> Result<usize, Failed>
        requires { self.old.failures < 2 ^ 64 - 1 }
        ensures within { MatchResult result (λ n. n ≤ length buf.new) (λ _. Unit {0}) }
        ensures bytes { ReadConsumes
            (R.remaining self.old.inner) (R.remaining self.new.inner) result buf.new }
        ensures count { CountsFailure self.old.failures self.new.failures result }
    {
        match self.inner.read(buf) {
            Ok(n) => Ok(n),
            Err(_) => {
                self.failures += 1;
                Err(Failed)
            }
        }
    }
}

impl<W: Write> Counted<W> {
    /// Writes all bytes, or those before the first failure. After a write that took only part of
    /// them it continues with the rest.
    // open: when a device fails.
    pub fn write_whole(&mut self, bytes: &[u8]) -> Result<(), WriteFault>
        requires { self.old.failures < 2 ^ 64 - 1 }
        ensures bytes { WritesPrefix
            (W.contents self.old.inner) (W.contents self.new.inner) bytes.now result }
        ensures count { CountsFailure self.old.failures self.new.failures result }
    {
        let mut written = 0;
        while written < bytes.len() {
            match self.inner.write(&bytes[written..]) {
                Ok(n) if 0 < n => written += n,
                _ => {
                    self.failures += 1;
                    return Err(WriteFault { written });
                }
            }
        }
        Ok(())
    }
}
