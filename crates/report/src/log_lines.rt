//! The lines of a log, read in blocks. The bytes after a block's last line feed are kept for the
//! next block. At most 65537 bytes of a line are kept, which is more than a server's line has.

ghost use Rattle.std.specs.Prelude.{◌≡◌, ◌<◌, ◌≤◌, [], ◌∷◌, length, take};
ghost use Rattle.std.specs.Prelude.{IfNone, IfOk, IfSome, OnOk};
ghost use Rattle.std.specs.Io.KnownBytes.{Consumes, IsAtEnd};
ghost use Rattle.report.specs.Lines.{grown, grown_by, lines_after};
ghost use Rattle.report.specs.Reading.{CountsLines, ReadsBlock, ReadsLog};

use crate::borrowed_json::LineMemory;
use crate::counting::Report;
use crate::log_events::LINE_LIMIT;
use crate::window::Window;
use memchr::memchr;
use std::alloc::{AllocError, Global};
use std::io::{self, Error, ErrorKind, Read};

/// The maximum number of bytes kept of a line.
const LINE_BUFFER_BYTES: usize = LINE_LIMIT + 1;

/// The size of a block.
const BLOCK: usize = 0x40000;

/// An observer of how many bytes of a log have been read.
pub trait LogOnlooker {
    /// Called after each block with the number of bytes read so far.
    fn read(&mut self, bytes: u64);
}

/// Counts the lines of a log. If it fails, some lines may be counted already.
pub fn count_log<R: Read, O: LogOnlooker>(
    alloc: Global,
    reader: &mut R,
    window: &Window<'_>,
    report: &mut Report,
    onlooker: &mut O,
) -> io::Result<()>
    ensures { OnOk result (ReadsLog window.now (R.remaining reader.old) report.old report.new) }
{
    let mut block = vec![in alloc; 0; BLOCK]?;
    count_by_blocks(
        alloc,
        reader,
        window,
        report,
        onlooker,
        block.as_mut_slice(),
    )
}

// The same, with this buffer for blocks.
fn count_by_blocks<R: Read, O: LogOnlooker>(
    alloc: Global,
    reader: &mut R,
    window: &Window<'_>,
    report: &mut Report,
    onlooker: &mut O,
    block: &mut [u8],
) -> io::Result<()>
    requires { 0 < length block.old }
    ensures { OnOk result (ReadsLog window.now (R.remaining reader.old) report.old report.new) }
{
    let mut memory = LineMemory::new(alloc);
    let mut begun = Vec::new(alloc);
    let mut bytes = 0;
    for _ in 0..u64::MAX {
        let read = read_some(reader, block)?;
        match read {
            Some(count) => {
                count_block(
                    alloc,
                    &mut memory,
                    window,
                    report,
                    &mut begun,
                    &block[..count],
                )?;
                bytes = u64::saturating_add(bytes, count as u64);
                onlooker.read(bytes);
            }
            None => {
                count_last(alloc, &mut memory, window, report, begun.as_slice())?;
                return Ok(());
            }
        }
    }
    Err(Error::from(ErrorKind::InvalidData))
}

// Reads a block, and returns its length: 0 after a signal, and `None` at the end.
fn read_some<R: Read>(reader: &mut R, block: &mut [u8]) -> io::Result<Option<usize>>
    requires { 0 < length block.old }
    ensures within { IfOk result (λ r. IfSome r (λ n. n ≤ length block.old)) }
    ensures some { IfOk result (λ r. IfSome r (λ n.
        Consumes (R.remaining reader.old) (R.remaining reader.new) (take n block.new))) }
    ensures end { IfOk result (λ r. IfNone r (IsAtEnd (R.remaining reader.old))) }
    ensures len { length block.new ≡ length block.old }
{
    match reader.read(block) {
        Ok(0) => Ok(None),
        Ok(count) => Ok(Some(count)),
        Err(error) if error.kind() == ErrorKind::Interrupted => Ok(Some(0)),
        Err(error) => Err(error),
    }
}

// Counts the lines that end in a block, and keeps the rest.
fn count_block(
    alloc: Global,
    memory: &mut LineMemory,
    window: &Window<'_>,
    report: &mut Report,
    begun: &mut Vec<u8>,
    block: &[u8],
) -> Result<(), AllocError>
    ensures { OnOk result (ReadsBlock window.now block.now
        begun.old.items report.old begun.new.items report.new) }
{
    let mut left = block;
    while !left.is_empty() {
        let read = count_piece(alloc, memory, window, report, begun, left)?;
        left = &left[read..];
    }
    Ok(())
}

// Reads up to the first line feed, with it, or all if there is none. Returns how many bytes that
// are.
#[tactic(auto, using(crate::proofs::Pieces::piece_ends, crate::proofs::Pieces::all_goes_on))]
fn count_piece(
    alloc: Global,
    memory: &mut LineMemory,
    window: &Window<'_>,
    report: &mut Report,
    begun: &mut Vec<u8>,
    bytes: &[u8],
) -> Result<usize, AllocError>
    requires { 0 < length bytes.now }
    ensures some { IfOk result (λ n. 0 < n) }
    ensures within { IfOk result (λ n. n ≤ length bytes.now) }
    ensures reads { IfOk result (λ n. ReadsBlock window.now (take n bytes.now)
        begun.old.items report.old begun.new.items report.new) }
{
    match memchr(b'\n', bytes) {
        Some(at) => {
            append(begun, &bytes[..at])?;
            end_line(alloc, memory, window, report, begun)?;
            Ok(at + 1)
        }
        None => {
            append(begun, bytes)?;
            Ok(bytes.len())
        }
    }
}

#[tactic(auto, using(crate::proofs::Read::line_ends))]
fn end_line(
    alloc: Global,
    memory: &mut LineMemory,
    window: &Window<'_>,
    report: &mut Report,
    begun: &mut Vec<u8>,
) -> Result<(), AllocError>
    ensures { OnOk result (ReadsBlock window.now (10 ∷ [])
        begun.old.items report.old begun.new.items report.new) }
{
    report.count_line(alloc, memory, window, begun.as_slice())?;
    begun.clear();
    Ok(())
}

// Appends bytes to the line, up to `LINE_BUFFER_BYTES` bytes.
#[tactic(auto, using(crate::proofs::Pieces::appended_few))]
fn append(begun: &mut Vec<u8>, bytes: &[u8]) -> Result<(), AllocError>
    ensures { OnOk result (begun.new.items ≡ grown_by begun.old.items bytes.now) }
{
    let length = begun.len();
    if length <= LINE_BUFFER_BYTES && bytes.len() <= LINE_BUFFER_BYTES - length {
        begun.extend_from_slice(bytes)?;
        return Ok(());
    }
    append_each(begun, bytes)
}

fn append_each(begun: &mut Vec<u8>, bytes: &[u8]) -> Result<(), AllocError>
    ensures { OnOk result (begun.new.items ≡ grown_by begun.old.items bytes.now) }
{
    let mut left = bytes;
    while let [byte, rest @ ..] = left {
        append_byte(begun, *byte)?;
        left = rest;
    }
    Ok(())
}

// Appends a byte to the line, unless the line has `LINE_BUFFER_BYTES` bytes.
fn append_byte(begun: &mut Vec<u8>, byte: u8) -> Result<(), AllocError>
    ensures { OnOk result (begun.new.items ≡ grown begun.old.items byte) }
{
    if begun.len() < LINE_BUFFER_BYTES {
        begun.push(byte)?;
    }
    Ok(())
}

// Counts the last line, if it has no line feed.
#[tactic(auto, using(crate::proofs::Read::last_line))]
fn count_last(
    alloc: Global,
    memory: &mut LineMemory,
    window: &Window<'_>,
    report: &mut Report,
    begun: &[u8],
) -> Result<(), AllocError>
    ensures { OnOk result
        (CountsLines window.now (lines_after begun.now []) report.old report.new) }
{
    if begun.is_empty() {
        return Ok(());
    }
    report.count_line(alloc, memory, window, begun)
}
