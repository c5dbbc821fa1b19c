//! How many places the cells of arrays have.

ghost use Rattle.std.specs.Prelude.{◌≡◌, ℕ, ◌≤◌, IfOk, IsTrue, length, slice_index};
ghost use Rattle.counter_store.specs.Places as specs;

use cells::{CellArray, CellNo};
use std::alloc::{AllocError, Global};

/// The places of each 64-bit cell.
pub(crate) fn places(alloc: Global, arrays: &[CellArray]) -> Result<Vec<u64>, AllocError>
    ensures { IfOk result (λ v. specs.ArePlaces arrays.now v.items) }
{
    let mut places = Vec::with_capacity(alloc, CellNo::FIRST_NARROW as usize)?;
    for cell in 0..CellNo::FIRST_NARROW {
        places.push(places_in(arrays, cell))?;
    }
    Ok(places)
}

// The places of a cell.
fn places_in(arrays: &[CellArray], cell: u16) -> u64
    ensures { result ≡ specs.places_in arrays.now cell }
{
    let mut left = arrays;
    while let [array, others @ ..] = left {
        if has_cell(array, cell) {
            return places_of(array.quota);
        }
        left = others;
    }
    u64::MAX
}

fn has_cell(array: &CellArray, cell: u16) -> bool
    ensures { result ≡ specs.has_cell array.now cell }
{
    let cell = usize::from(cell);
    let base = usize::from(array.base);
    base <= cell && cell < base + usize::from(array.length)
}

fn places_of(quota: Option<u64>) -> u64
    ensures { result ≡ specs.places_of quota }
{
    match quota {
        Some(quota) => quota,
        None => 0,
    }
}

/// Whether no cell has more places than before.
pub(crate) fn are_no_more(places: &[u64], before: &[u64]) -> bool
    requires { length places.now ≡ length before.now }
    ensures so { IsTrue result
        → (cell : ℕ) → slice_index places.now cell ≤ slice_index before.now cell }
    ensures only { ((cell : ℕ) → slice_index places.now cell ≤ slice_index before.now cell)
        → IsTrue result }
{
    for cell in 0..places.len() {
        if before[cell] < places[cell] {
            return false;
        }
    }
    true
}
