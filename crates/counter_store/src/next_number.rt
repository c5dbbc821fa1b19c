//! The number that a cell gets by the next commit.

ghost use Rattle.std.specs.Prelude.{◌≡◌, ℕ, ◌+◌, ◌/◌, ◌<◌, ◌≤◌, max, min, IsFalse, length};
ghost use Rattle.std.specs.Prelude.{slice_index};
ghost use Rattle.cells.specs.Events.{AreCells, limit};
ghost use Rattle.counter_store.specs.Ledger.{AreNext};

use cells::CellNo;
use kept_cells::Kept;

/// The fewest places ahead of the wanted number, if the quota allows as many.
const FEWEST: u64 = 64;

/// The most places ahead: this part of the quota, or a few.
const MOST_PART: u64 = 64;

const MOST_FEW: u64 = 16;

/// Once only this part of the places ahead is left, the workers want a higher number.
const LEFT_PART: u64 = 4;

/// Plans the next numbers of all cells: by what the workers want for cells with places, and their
/// present values for all others.
pub(crate) fn plan(
    kept: &Kept,
    places: &[u64],
    opened: &[u64],
    numbers: &[u64],
    present: &[u64],
    next: &mut [u64],
)
    requires places { length places.now ≡ 4096 }
    requires cells { AreCells numbers.now }
    requires present { AreCells present.now }
    requires count { length next.old ≡ 8192 }
    ensures cells { AreCells next.new }
    ensures next { AreNext (slice_index places.now) present.now numbers.now next.new }
{
    for cell in 0..CellNo::COUNT {
        let at = usize::from(cell);
        let opened = opened.get(at).copied().unwrap_or(0);
        next[at] = next_of(kept, places, at, opened, numbers[at], present[at]);
    }
}

// The next number of a cell. Only 64-bit cells have places.
fn next_of(kept: &Kept, places: &[u64], cell: usize, opened: u64, number: u64, present: u64) -> u64
    requires places { length places.now ≡ 4096 }
    requires number { number < limit cell }
    requires present { present < limit cell }
    ensures fits { result < limit cell }
    ensures not_lower { cell < 4096 → 0 < slice_index places.now cell → number ≤ result }
    ensures plain { cell < 4096 → slice_index places.now cell ≡ 0 → result ≡ present }
    ensures narrow { 4096 ≤ cell → result ≡ present }
{
    if cell < CellNo::FIRST_NARROW as usize && places[cell] > 0 {
        next_number(places[cell], opened, number, kept.wanted(cell))
    } else {
        present
    }
}

// The next number of a cell with these places, which opened with a number: ahead of the wanted
// number by as many places as were taken since, or a few, and never above the quota. It stays as it
// is if none is wanted.
fn next_number(places: u64, opened: u64, number: u64, wanted: u64) -> u64
    ensures not_lower { number ≤ result }
    ensures few { result ≤ max number (min places (wanted + max 16 (places / 64))) }
{
    if places == u64::MAX || wanted == 0 {
        return number;
    }
    let most = (places / MOST_PART).max(MOST_FEW);
    let used = wanted.saturating_sub(opened);
    let ahead = used.max(FEWEST).min(most);
    number.max(places.min(wanted.saturating_add(ahead)))
}

/// The ceiling of a cell with these places, for which this number is stored.
pub(crate) fn ceiling(places: u64, number: u64) -> u64
    ensures backed { min places result ≤ number }
{
    if places <= number { u64::MAX } else { number }
}

/// The mark of a cell with these places whose number is stored: from which wanted number on it gets
/// a higher one.
pub(crate) fn mark_of(places: u64, number: u64, wanted: u64) -> u64 {
    if places <= number {
        u64::MAX
    } else {
        number.saturating_sub(number.saturating_sub(wanted) / LEFT_PART)
    }
}

/// Whether a number is wanted of a cell with places.
// open: which are wanted.
pub(crate) fn is_any_wanted(kept: &Kept, places: &[u64]) -> bool {
    for cell in 0..places.len() {
        if 0 < places[cell] && places[cell] < u64::MAX && kept.wanted(cell) > 0 {
            return true;
        }
    }
    false
}

/// Whether a cell with places has another next number.
pub(crate) fn is_any_new(places: &[u64], numbers: &[u64], next: &[u64]) -> bool
    requires places { length places.now ≡ 4096 }
    requires numbers { length numbers.now ≡ 8192 }
    requires next { length next.now ≡ 8192 }
    ensures { IsFalse result → (cell : ℕ) → cell < 4096 → 0 < slice_index places.now cell
        → slice_index next.now cell ≡ slice_index numbers.now cell }
{
    for cell in 0..places.len() {
        if places[cell] > 0 && next[cell] != numbers[cell] {
            return true;
        }
    }
    false
}
