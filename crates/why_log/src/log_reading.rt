//! The lines of a log, read in blocks. The bytes after a block's last line feed are kept for the
//! next block. At most 65537 bytes of a line are kept, which is more than a server's line has.

ghost use Rattle.std.specs.Prelude.{◌<◌, ◌≤◌, ◌≡◌, IfOk, IfSome, OnOk, length};
ghost use Rattle.why_log.specs.Found.{Keeps};

use crate::finding::FoundLines;
use crate::machine::Machine;
use std::alloc::{AllocError, Global};
use std::io::{self, Error, ErrorKind, Read};

/// The maximum number of bytes of a line; a server's lines have at most 4096.
const LINE_LIMIT: usize = 65536;

/// The size of a block.
const BLOCK: usize = 0x40000;

/// Finds the lines of a machine in a log, which comes after those that were read before. If it
/// fails, some lines may be found already.
// open: that the newest lines of the machine are found, and no other line is read as one: rows.
pub(crate) fn read_log<R: Read>(
    alloc: Global,
    reader: &mut R,
    machine: &Machine<'_>,
    found: &mut FoundLines,
) -> io::Result<()>
    ensures { OnOk result (Keeps machine.now found.old found.new) }
{
    let mut block = vec![in alloc; 0; BLOCK]?;
    read_by_blocks(alloc, reader, machine, found, block.as_mut_slice())
}

// The same, with this buffer for blocks.
#[tactic(auto, using(crate::proofs::Kept::keeps_all, crate::proofs::Kept::keeps_both))]
fn read_by_blocks<R: Read>(
    alloc: Global,
    reader: &mut R,
    machine: &Machine<'_>,
    found: &mut FoundLines,
    block: &mut [u8],
) -> io::Result<()>
    requires { 0 < length block.old }
    ensures { OnOk result (Keeps machine.now found.old found.new) }
{
    let mut begun = Vec::new(alloc);
    for _ in 0..u64::MAX {
        match read_some(reader, block)? {
            Some(count) => find_in_block(alloc, machine, found, &mut begun, &block[..count])?,
            None => {
                find_in_line(alloc, machine, found, begun.as_slice())?;
                return Ok(());
            }
        }
    }
    Err(Error::from(ErrorKind::InvalidData))
}

// Reads a block, and returns its length: 0 after a signal, and `None` at the end.
fn read_some<R: Read>(reader: &mut R, block: &mut [u8]) -> io::Result<Option<usize>>
    requires { 0 < length block.old }
    ensures within { IfOk result (λ r. IfSome r (λ n. n ≤ length block.old)) }
    ensures len { length block.new ≡ length block.old }
{
    match reader.read(block) {
        Ok(0) => Ok(None),
        Ok(count) => Ok(Some(count)),
        Err(error) if error.kind() == ErrorKind::Interrupted => Ok(Some(0)),
        Err(error) => Err(error),
    }
}

// Finds the machine's lines that end in a block, and keeps the rest.
#[tactic(auto, using(crate::proofs::Kept::keeps_all, crate::proofs::Kept::keeps_both))]
fn find_in_block(
    alloc: Global,
    machine: &Machine<'_>,
    found: &mut FoundLines,
    begun: &mut Vec<u8>,
    block: &[u8],
) -> Result<(), AllocError>
    ensures { OnOk result (Keeps machine.now found.old found.new) }
{
    let mut left = block;
    while let [byte, rest @ ..] = left {
        if *byte == b'\n' {
            find_in_line(alloc, machine, found, begun.as_slice())?;
            begun.clear();
        } else if begun.len() <= LINE_LIMIT {
            begun.push(*byte)?;
        }
        left = rest;
    }
    Ok(())
}

// Notes a line, unless it is longer than a server's.
#[tactic(auto, using(crate::proofs::Kept::keeps_all))]
fn find_in_line(
    alloc: Global,
    machine: &Machine<'_>,
    found: &mut FoundLines,
    line: &[u8],
) -> Result<(), AllocError>
    ensures { OnOk result (Keeps machine.now found.old found.new) }
{
    if line.len() > LINE_LIMIT {
        return Ok(());
    }
    found.note(alloc, machine, line)
}
