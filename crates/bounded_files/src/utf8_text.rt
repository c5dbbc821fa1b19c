//! A text that comes in pieces, which aren't kept, except for the first bytes of a character that
//! continues in the next piece.

ghost use Rattle.std.specs.Prelude.{◌↔◌, ◌++◌, List, ℕ, IfOk, IsTrue, IsUtf8};
ghost use Rattle.std.specs.Str.{IsValidUpTo};
ghost use Rattle.bounded_files.specs.Kept.{LeavesOpen};

use std::alloc::{AllocError, Global};
use std::str;

/// The open end of a text after one more piece, from the one before it.
pub(crate) fn go_on(
    alloc: Global,
    left: Option<Vec<u8>>,
    piece: &[u8],
) -> Result<Option<Vec<u8>>, AllocError>
    ensures { IfOk result (λ now. (bytes : List ℕ) → LeavesOpen bytes left
        → LeavesOpen (bytes ++ piece.now) now) }
{
    match left {
        None => Ok(None),
        Some(mut open) => {
            open.extend_from_slice(piece)?;
            leave_open(alloc, open.as_slice())
        }
    }
}

// The bytes of an incomplete character, at most three; None if they can't be text.
fn leave_open(alloc: Global, bytes: &[u8]) -> Result<Option<Vec<u8>>, AllocError>
    ensures { IfOk result (LeavesOpen bytes.now) }
{
    match str::from_utf8(bytes) {
        Ok(_) => Ok(Some(Vec::new(alloc))),
        Err(error) => leave_behind(alloc, bytes, error.valid_up_to()),
    }
}

// The bytes after the longest prefix that is text.
fn leave_behind(alloc: Global, bytes: &[u8], valid: usize) -> Result<Option<Vec<u8>>, AllocError>
    requires { IsValidUpTo bytes.now valid }
    ensures { IfOk result (LeavesOpen bytes.now) }
{
    let (_, open) = bytes.split_at(valid);
    if open.len() > 3 {
        return Ok(None);
    }
    let open = Vec::from_slice(alloc, open)?;
    Ok(Some(open))
}

/// Whether the bytes are text, if none follow.
pub(crate) fn is_closed(left: &Option<Vec<u8>>) -> bool
    ensures { (bytes : List ℕ) → LeavesOpen bytes left.now → IsTrue result ↔ IsUtf8 bytes }
{
    match left {
        Some(open) => open.as_slice().is_empty(),
        None => false,
    }
}
