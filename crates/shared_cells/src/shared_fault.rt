//! The fault of shared cells.

ghost use Rattle.std.specs.Prelude.{◌≡◌, Some};
ghost use Rattle.shared_cells.specs.Texts.{shared_text};
ghost use Rattle.shared_cells.specs.declared.shared_fault.SharedFault.TheVariants.{Memory};

use std::alloc::{AllocError, AllocFailed};
use std::error::Error;
use std::fmt::{self, Display};

/// The fault of `SharedCells::new`, with the number that is printed; `close` has it only in its
/// type.
#[derive(Clone, Copy, Debug)]
pub enum SharedFault {
    /// S1: an allocation failed.
    Memory,
}

impl SharedFault {
    /// The number and the name, as they are printed.
    pub fn name(self) -> &'static str
        ensures { result.now ≡ shared_text self }
    {
        match self {
            SharedFault::Memory => "S1 Memory",
        }
    }
}

impl Display for SharedFault {
    ghost output = { λ fault. Some (shared_text fault) };

    fn fmt<W: fmt::Write>(&self, f: &mut fmt::Formatter<W>) -> fmt::Result {
        f.write_str(self.name())
    }
}

impl Error for SharedFault {}

impl From<AllocError> for SharedFault {
    ghost from_gives = { λ _ fault. fault ≡ Memory };

    fn from(_: AllocError) -> SharedFault {
        SharedFault::Memory
    }
}

impl<T: Drop> From<AllocFailed<T>> for SharedFault {
    ghost from_gives = { λ _ fault. fault ≡ Memory };

    fn from(_: AllocFailed<T>) -> SharedFault {
        SharedFault::Memory
    }
}
