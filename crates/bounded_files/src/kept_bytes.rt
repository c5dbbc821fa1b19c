//! What is kept of a file that may be longer than needed: all of it; or its first bytes, its
//! length, and whether it is text to its end. No piece after the first bytes is kept.

ghost use Rattle.std.specs.Prelude.{◌≡◌, ◌++◌, ◌+◌, ◌<◌, ◌≤◌, ◌^◌, length, take, List, [], ℕ};
ghost use Rattle.std.specs.Prelude.{◌↔◌, IfOk, OnOk, IsTrue, IsUtf8};
ghost use Rattle.bounded_files.specs.Files.{KnownFiles, ReadsFile};
ghost use Rattle.std.specs.Io.{ReadsAtMost};
ghost use Rattle.std.specs.Io.KnownBytes.{ReadConsumes};
ghost use Rattle.bounded_files.specs.Kept.{IsKeptOf, KeepsFile, KeepsOf};
ghost use Rattle.bounded_files.specs.SoFar.{KeepsSoFar};

use crate::resource_fault::ResourceFault;
use crate::utf8_text::{go_on, is_closed};
use std::alloc::{AllocError, Global};
use std::io::{self, Error, ErrorKind, Read};
use std::str;

/// How many bytes are read at a time.
const PIECE: usize = 0x1_0000;

/// How often an interrupted read is tried.
const MOST_TRIES: u32 = 1000;

/// What is kept of a file's bytes.
#[derive(Drop)]
pub enum KeptBytes {
    /// All of them.
    Whole(Vec<u8>),
    /// The first bytes, how many there are, and whether they are UTF-8 to their end.
    Longer {
        beginning: Vec<u8>,
        count: usize,
        is_text: bool,
    },
}

impl KeptBytes {
    /// What is kept of bytes in memory: all, if they are at most `kept`.
    pub fn of(bytes: Vec<u8>, kept: usize) -> KeptBytes
        ensures { IsKeptOf kept bytes.items result }
    {
        if bytes.len() <= kept {
            return KeptBytes::Whole(bytes);
        }
        let count = bytes.len();
        let is_text = is_utf8(bytes.as_slice());
        let mut beginning = bytes;
        beginning.truncate(kept);
        KeptBytes::Longer {
            beginning,
            count,
            is_text,
        }
    }
}

/// What is kept of bytes while they are read: the first, how many they were, and the open end of
/// the text so far.
#[derive(Drop)]
struct SoFar {
    beginning: Vec<u8>,
    count: usize,
    left: Option<Vec<u8>>,
}

/// What is kept of a file that was read whole, or couldn't be read.
pub fn keep_read(
    read: Result<Vec<u8>, ResourceFault>,
    kept: usize,
) -> Result<KeptBytes, ResourceFault>
    ensures { (known : KnownFiles) (path : List ℕ) → ReadsFile known path read
        → KeepsFile kept known path result }
{
    match read {
        Ok(bytes) => Ok(KeptBytes::of(bytes, kept)),
        Err(fault) => Err(fault),
    }
}

fn is_utf8(bytes: &[u8]) -> bool
    ensures { IsTrue result ↔ IsUtf8 bytes.now }
{
    str::from_utf8(bytes).is_ok()
}

/// Reads everything that a reader gives, and keeps the first `kept` bytes; None if it gives more
/// than `most`.
pub(crate) fn keep<R: Read + Drop>(
    alloc: Global,
    reader: R,
    kept: usize,
    most: usize,
) -> io::Result<Option<KeptBytes>>
    requires { most < 2 ^ 32 }
    ensures { IfOk result (KeepsOf (R.remaining reader) kept most) }
{
    let mut piece = vec![in alloc; 0; PIECE]?;
    keep_by(alloc, reader, piece.as_mut_slice(), kept, most)
}

// Reads piece by piece.
fn keep_by<R: Read + Drop>(
    alloc: Global,
    mut reader: R,
    piece: &mut [u8],
    kept: usize,
    most: usize,
) -> io::Result<Option<KeptBytes>>
    requires room { 0 < length piece.old }
    requires most { most < 2 ^ 32 }
    ensures { IfOk result (KeepsOf (R.remaining reader) kept most) }
{
    let mut far = SoFar::none(alloc);
    'reading: loop {
        let read = read_some(&mut reader, piece)?;
        if read == 0 {
            return Ok(Some(far.into_kept(kept)));
        }
        if read > most - far.count {
            return Ok(None);
        }
        far = far.and(alloc, &piece[..read], kept)?;
    }
}

// Some bytes, at most as many as fit into the buffer; none at the end.
fn read_some<R: Read>(reader: &mut R, piece: &mut [u8]) -> io::Result<usize>
    ensures room { length piece.new ≡ length piece.old }
    ensures bound { ReadsAtMost result piece.new }
    ensures bytes { ReadConsumes
        (R.remaining reader.old) (R.remaining reader.new) result piece.new }
{
    for _ in 0..MOST_TRIES {
        match reader.read(piece) {
            Ok(read) => return Ok(read),
            Err(error) if error.kind() == ErrorKind::Interrupted => {}
            Err(error) => return Err(error),
        }
    }
    Err(Error::from(ErrorKind::Interrupted))
}

impl SoFar {
    fn none(alloc: Global) -> SoFar
        ensures { (kept : ℕ) → KeepsSoFar kept [] result }
    {
        SoFar {
            beginning: Vec::new(alloc),
            count: 0,
            left: Some(Vec::new(alloc)),
        }
    }

    // The state after one more piece.
    fn and(self, alloc: Global, piece: &[u8], kept: usize) -> Result<SoFar, AllocError>
        requires { self.count + length piece.now < 2 ^ 64 }
        ensures { IfOk result (λ far. (bytes : List ℕ) → KeepsSoFar kept bytes self
            → KeepsSoFar kept (bytes ++ piece.now) far) }
    {
        let SoFar {
            mut beginning,
            count,
            left,
        } = self;
        push_up_to(&mut beginning, piece, kept)?;
        let left = go_on(alloc, left, piece)?;
        Ok(SoFar {
            beginning,
            count: count + piece.len(),
            left,
        })
    }

    fn into_kept(self, kept: usize) -> KeptBytes
        ensures { (bytes : List ℕ) → KeepsSoFar kept bytes self → IsKeptOf kept bytes result }
    {
        let SoFar {
            beginning,
            count,
            left,
        } = self;
        if count <= kept {
            return KeptBytes::Whole(beginning);
        }
        KeptBytes::Longer {
            beginning,
            count,
            is_text: is_closed(&left),
        }
    }
}

// Appends bytes until `kept` are there.
fn push_up_to(beginning: &mut Vec<u8>, piece: &[u8], kept: usize) -> Result<(), AllocError>
    ensures { OnOk result (length beginning.old.items ≤ kept
        → beginning.new.items ≡ take kept (beginning.old.items ++ piece.now)) }
{
    let room = kept.saturating_sub(beginning.len());
    let (first, _) = piece.split_at(room.min(piece.len()));
    beginning.extend_from_slice(first)
}
