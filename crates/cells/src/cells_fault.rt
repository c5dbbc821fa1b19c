//! The faults of declarations and of allocations.

ghost use Rattle.std.specs.Prelude.{◌≡◌, Some};
ghost use Rattle.cells.specs.Texts.{cells_fault_text};
ghost use Rattle.cells.specs.declared.cells_fault.CellsFault.TheVariants.{Memory};

use std::alloc::AllocError;
use std::error::Error;
use std::fmt;

/// What is wrong, with the numbers N1 to N3 that are printed.
#[derive(Clone, Copy, Debug, PartialEq, Eq)]
pub enum CellsFault {
    /// Fewer cells of the width are left than the array has.
    CellsFull,
    /// The name exists with another width, length or quota.
    Redefined,
    /// An allocation failed.
    Memory,
}

impl CellsFault {
    /// The number and the name, as they are printed.
    pub fn name(self) -> &'static str
        ensures { result.now ≡ cells_fault_text self }
    {
        match self {
            CellsFault::CellsFull => "N1 CellsFull",
            CellsFault::Redefined => "N2 Redefined",
            CellsFault::Memory => "N3 Memory",
        }
    }
}

impl fmt::Display for CellsFault {
    ghost output = { λ fault. Some (cells_fault_text fault) };

    fn fmt<W: fmt::Write>(&self, f: &mut fmt::Formatter<W>) -> fmt::Result {
        f.write_str(self.name())
    }
}

impl Error for CellsFault {}

impl From<AllocError> for CellsFault {
    ghost from_gives = { λ _ fault. fault ≡ Memory };

    fn from(_: AllocError) -> Self {
        CellsFault::Memory
    }
}
