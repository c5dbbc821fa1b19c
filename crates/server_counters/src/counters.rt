//! The counters of a server at its start and at its end, and its halted apps.

ghost use Rattle.std.specs.Prelude.{◌≡◌, [], IfOk};
ghost use Rattle.cells.specs.Events.{AreCells, AreZeros};
ghost use Rattle.server_counters.specs.Counters.{contents_with};

use cells::{CellNo, Directory};
use counters_file::{Contents, Parts};
use std::alloc::{AllocError, Global};

/// What a server opens with, and leaves for the next one.
#[derive(Drop)]
pub struct Counters {
    /// The appids of the halted apps, the one that was halted last first.
    pub halted: Vec<String>,
    pub directory: Directory,
    /// A value for each of the 8192 cells, by their numbers.
    pub values: Vec<u64>,
}

impl Counters {
    /// No halted app, no arrays, and all values 0.
    // open: whether an allocation fails.
    pub fn none(alloc: Global) -> Result<Counters, AllocError>
        ensures halted { IfOk result (λ c. c.halted.items ≡ []) }
        ensures arrays { IfOk result (λ c. c.directory ≡ []) }
        ensures zeros { IfOk result (λ c. AreZeros 8192 c.values.items) }
        ensures cells { IfOk result (λ c. AreCells c.values.items) }
    {
        let values = zeros(alloc, CellNo::COUNT as usize)?;
        Ok(Counters {
            halted: Vec::new(alloc),
            directory: Directory::new(alloc),
            values,
        })
    }

    /// The halted apps, arrays and values of a file.
    pub(crate) fn of(contents: Contents) -> Counters
        ensures { contents_with contents.was_stopped result ≡ contents }
    {
        let Parts {
            halted,
            directory,
            values,
        } = contents.into_parts();
        Counters {
            halted,
            directory,
            values,
        }
    }
}

// `count` zeros.
fn zeros(alloc: Global, count: usize) -> Result<Vec<u64>, AllocError>
    ensures { IfOk result (λ v. AreZeros count v.items) }
{
    Vec::from_elem(alloc, 0, count)
}
