//! The word of a cell: its value or, for a 32-bit cell, its value in the upper half and zeros in
//! the lower.

ghost use Rattle.std.specs.Prelude.{◌≡◌, ◌%◌, ◌<◌};
ghost use Rattle.cells.specs.Events.{limit};
ghost use Rattle.shared_cells.specs.Words.{stored_word, stored_value};

use cells::CellNo;

// The word of a number, of which a cell takes the bits of its width.
pub(crate) fn to_word(cell: usize, number: u64) -> u64
    ensures { result ≡ stored_word cell (number % limit cell) }
{
    if cell < CellNo::FIRST_NARROW as usize {
        number
    } else {
        (number % (1 << 32)) << 32
    }
}

// The value in a cell's word.
pub(crate) fn to_value(cell: usize, word: u64) -> u64
    ensures value { result ≡ stored_value cell word }
    ensures fits { result < limit cell }
{
    if cell < CellNo::FIRST_NARROW as usize {
        word
    } else {
        word >> 32
    }
}
