//! The line of a connection: the bytes before the first line feed, or before the input's end. It is
//! read piece by piece into the caller's buffer.

ghost use Rattle.std.specs.Prelude.{◌≡◌, ◌-◌, ◌^◌, ◌<◌, ◌≤◌, length, take, IfOk, IfSome};
ghost use Rattle.std.specs.List.{position};
ghost use Rattle.net_io.specs.Device.{CountsFailure};
ghost use Rattle.operator_request.specs.Requests.{is_line_feed};
ghost use Rattle.operator.specs.Line.{IsPiece, line_of};

use net_io::{Counted, Failed};
use std::io::Read;

/// A piece of a line, by its number of bytes.
#[derive(Clone, Copy, Drop)]
enum Piece {
    /// The line ends after the piece.
    Last(usize),
    /// More of the line may follow.
    Further(usize),
}

/// Reads the bytes before the first line feed, or before the input's end, to the front of `room`,
/// and returns their number; of a longer line only as many as `room` holds. It requests no more
/// bytes than that from the reader.
pub(crate) fn read_line<R: Read>(reader: &mut Counted<R>, room: &mut [u8]) -> Result<usize, Failed>
    requires { reader.old.failures < 2 ^ 64 - 1 }
    ensures within { IfOk result (λ n. n ≤ length room.new) }
    ensures line { IfOk result (λ n. IfSome (R.remaining reader.old.inner)
        (λ sent. take n room.new ≡ take (length room.new) (line_of sent))) }
    ensures count { CountsFailure reader.old.failures reader.new.failures result }
{
    let mut size = 0;
    while size < room.len() {
        match read_piece(reader, &mut room[size..])? {
            Piece::Last(gained) => return Ok(size + gained),
            Piece::Further(gained) => size += gained,
        }
    }
    Ok(size)
}

// Reads some bytes to the front of `room`, of which the first are a piece of the line.
fn read_piece<R: Read>(reader: &mut Counted<R>, room: &mut [u8]) -> Result<Piece, Failed>
    requires count { reader.old.failures < 2 ^ 64 - 1 }
    requires room { 0 < length room.old }
    ensures piece { IfOk result
        (IsPiece (R.remaining reader.old.inner) (R.remaining reader.new.inner) room.new) }
    ensures count { CountsFailure reader.old.failures reader.new.failures result }
{
    let gained = reader.read_some(room)?;
    if gained == 0 {
        return Ok(Piece::Last(0));
    }
    match line_feed(&room[..gained]) {
        Some(size) => Ok(Piece::Last(size)),
        None => Ok(Piece::Further(gained)),
    }
}

// The index of the first line feed.
fn line_feed(bytes: &[u8]) -> Option<usize>
    ensures { result ≡ position is_line_feed bytes.now }
{
    bytes.iter().position(|byte| *byte == b'\n')
}
