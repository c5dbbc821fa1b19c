//! The first and the last commit of a server's counters.

ghost use Rattle.std.specs.Prelude.{◌≡◌, IfOk, IfSome, OnOk, true};
ghost use Rattle.cells.specs.Events.{AreCells};
ghost use Rattle.counters_file.specs.Kept.{Keeps};
ghost use Rattle.server_counters.specs.Counters.{contents_with};

use crate::counters::Counters;
use cells::Directory;
use counter_store::CounterStore;
use counters_file::{CountersFault, KeptFile, commit};
use std::alloc::{AllocError, Global};

/// The store of the counters of a server that is ready, with these halted apps, arrays and values.
/// They are written to the file, which says from then on that it is served. Returns K4 if it can't
/// be written, and B4 if an allocation fails.
// open: when these are returned; that the store has these halted apps, and the file all this: rows.
pub fn store_of<F: KeptFile + Drop>(
    alloc: Global,
    mut file: F,
    halted: &[String],
    directory: &Directory,
    values: &[u64],
) -> Result<CounterStore<F>, CountersFault>
    requires { AreCells values.now }
    ensures numbers { IfOk result (λ s. s.ledger.numbers ≡ values.now) }
    ensures arrays { IfOk result (λ s. s.ledger.arrays ≡ directory.now) }
{
    commit(alloc, &mut file, false, halted, directory, values)?;
    let Ok(halted) = copies(alloc, halted) else {
        return Err(CountersFault::Memory);
    };
    let Ok(arrays) = directory.copy(alloc) else {
        return Err(CountersFault::Memory);
    };
    let Ok(values) = values.to_vec(alloc) else {
        return Err(CountersFault::Memory);
    };
    match CounterStore::new(alloc, file, halted, arrays, values) {
        Ok(store) => Ok(store),
        Err(_) => Err(CountersFault::Memory),
    }
}

fn copies(alloc: Global, appids: &[String]) -> Result<Vec<String>, AllocError> {
    let mut copies = Vec::new(alloc);
    for appid in appids {
        let copy = String::from_str(alloc, appid.as_str())?;
        copies.push(copy)?;
    }
    Ok(copies)
}

/// Writes what a server leaves that was stopped. Returns K4 if it can't be written, and B4 if an
/// allocation fails.
pub fn write_last<F: KeptFile>(
    alloc: Global,
    file: &mut F,
    counters: &Counters,
) -> Result<(), CountersFault>
    ensures { AreCells counters.now.values.items → OnOk result (IfSome (F.known file.old)
        (λ _. IfSome (F.known file.new) (Keeps (contents_with true counters.now)))) }
{
    commit(
        alloc,
        file,
        true,
        &counters.halted,
        &counters.directory,
        &counters.values,
    )
}
