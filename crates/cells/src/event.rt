//! Cells, which are counters, and operations on them. An event is one operation on one cell with
//! the reply that it got. Cells 0 to 4095 are 64 bits wide, cells 4096 to 8191 are 32.

ghost use Rattle.std.specs.Prelude.{◌≡◌, ◌<◌};

use crate::array::CellWidth;

/// The number of a cell, 0 to 8191.
#[derive(Clone, Copy, PartialEq, Eq)]
pub struct CellNo {
    pub number: u16,
    pub ghost in_range: { number < 8192 },
}

impl CellNo {
    /// How many cells there are.
    pub const COUNT: u16 = 8192;

    /// The first cell that is 32 bits wide.
    pub const FIRST_NARROW: u16 = CellWidth::CELLS;

    /// The cell of a number, 0 to 8191.
    pub fn new(number: u16) -> CellNo
        requires { number < 8192 }
        ensures { result.number ≡ number }
    {
        CellNo { number }
    }

    /// The number of the cell.
    #[inline]
    pub fn index(self) -> usize
        ensures value { result ≡ self.number }
        ensures in_range { result < 8192 }
    {
        self.number as usize
    }
}

/// An atomic operation on a cell. A 32-bit cell takes only the low 32 bits of an operand.
#[derive(Clone, Copy, PartialEq, Eq)]
pub enum CellOp {
    Load,
    Store(u64),
    Add(u64),
    Or(u64),
    And(u64),
    Xor(u64),
    Swap(u64),
    /// The expected value, and the new one, which is stored if the cell has the expected one.
    CompareExchange(u64, u64),
}

/// An operation on the cell of a number, with its reply: the previous value, or 0 for a Store.
#[derive(Clone, Copy, PartialEq, Eq)]
pub struct CellEvent {
    pub cell: u16,
    pub op: CellOp,
    pub reply: u64,
}
