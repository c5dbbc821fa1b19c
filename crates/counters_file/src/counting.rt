//! Counters with a quota, which aren't so high that additions could overflow them.

ghost use Rattle.std.specs.Prelude.{◌≡◌, All, IsTrue};
ghost use Rattle.counters_file.specs.Lines as specs;

use crate::saved_counters::value_at;
use cells::CellArray;

/// Counters with a quota are below this, as quotas are.
const MOST: u64 = 1 << 63;

/// Whether a counter with this quota can have this value.
pub(crate) fn can_count(quota: Option<u64>, value: u64) -> bool
    ensures { result ≡ specs.can_count quota value }
{
    match quota {
        Some(_) => value < MOST,
        None => true,
    }
}

/// Whether the counters of all arrays can have these values.
pub(crate) fn all_can_count(arrays: &[CellArray], values: &[u64]) -> bool
    ensures { IsTrue result → All (specs.CanCount values.now) arrays.now }
{
    let mut left = arrays;
    while let [array, others @ ..] = left {
        if !array_can_count(array, values) {
            return false;
        }
        left = others;
    }
    true
}

fn array_can_count(array: &CellArray, values: &[u64]) -> bool
    ensures { IsTrue result → specs.CanCount values.now array.now }
{
    for index in 0..array.length {
        if !can_count(array.quota, value_at(values, array.base, index)) {
            return false;
        }
    }
    true
}
