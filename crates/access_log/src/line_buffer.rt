//! The buffer of a line, which is reused from line to line. It keeps spare bytes after those that
//! are written, so that a piece of a line is stored with one test.

ghost use Rattle.std.specs.Prelude.{◌≡◌, ◌++◌, ◌+◌, ◌-◌, ◌≤◌, [], length, take, OnOk};
ghost use Rattle.json.specs.Filled.{Placed};

use std::alloc::{AllocError, Global};
use std::marker::Model;

/// The spare bytes that are added when the buffer grows.
const LEAST_GROWTH: usize = 1024;

/// The bytes of a line so far, and spare ones.
#[derive(Drop)]
pub struct LineBuffer {
    bytes: Vec<u8>,
    len: usize,
}

impl Model for LineBuffer {
    ghost use Rattle.std.specs.Prelude.{ℕ, List, ◌≤◌, length, take};

    ghost Value = { List ℕ };

    ghost view = { λ r. take r.len r.bytes.items };

    ghost invariant = { λ r. r.len ≤ length r.bytes.items };
}

impl LineBuffer {
    /// An empty buffer, without an allocation.
    pub fn new(alloc: Global) -> LineBuffer
        ensures { result ≡ [] }
    {
        LineBuffer {
            bytes: Vec::new(alloc),
            len: 0,
        }
    }

    /// The bytes that are written.
    pub fn bytes(&self) -> &[u8]
        ensures { result.now ≡ self.now }
    {
        &self.bytes.as_slice()[..self.len]
    }

    /// How many bytes are written.
    #[inline(always)]
    pub(crate) fn len(&self) -> usize
        ensures { result ≡ length self.now }
    {
        self.len
    }

    /// How many bytes are written after the first `before`.
    #[inline(always)]
    pub(crate) fn added_since(&self, before: usize) -> usize
        ensures { result ≡ length self.now - before }
    {
        self.len.saturating_sub(before)
    }

    /// Removes all bytes but the first `len`.
    #[inline(always)]
    pub(crate) fn cut_back(&mut self, len: usize)
        requires { len ≤ length self.old }
        ensures { self.new ≡ take len self.old }
    {
        self.len = len;
    }

    /// Removes the bytes, and keeps the buffer's memory.
    pub(crate) fn clear(&mut self)
        ensures { self.new ≡ [] }
    {
        self.len = 0;
    }

    /// Appends bytes. If an allocation fails, part of them may be appended.
    #[inline(always)]
    pub(crate) fn put(&mut self, bytes: &[u8]) -> Result<(), AllocError>
        ensures { OnOk result (self.new ≡ self.old ++ bytes.now) }
    {
        if self.bytes.len() - self.len < bytes.len() {
            return self.put_after(bytes);
        }
        let room = self.bytes.as_mut_slice();
        self.len = place(room, self.len, bytes);
        Ok(())
    }

    // Appends bytes for which the buffer is too small.
    #[cold]
    #[inline(never)]
    fn put_after(&mut self, bytes: &[u8]) -> Result<(), AllocError>
        ensures { OnOk result (self.new ≡ self.old ++ bytes.now) }
    {
        self.bytes.truncate(self.len);
        self.bytes.extend_from_slice(bytes)?;
        self.len = self.bytes.len();
        self.bytes.resize(self.len.saturating_add(LEAST_GROWTH), 0)
    }
}

#[inline(always)]
fn place(room: &mut [u8], at: usize, bytes: &[u8]) -> usize
    requires { at + length bytes.now ≤ length room.old }
    ensures { Placed room.old room.new at bytes.now result }
{
    let end = at + bytes.len();
    room[at..end].copy_from_slice(bytes);
    end
}
