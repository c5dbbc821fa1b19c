//! How many buckets get which release, and how many move from which release to which.

ghost use Rattle.std.specs.Prelude.{◌≡◌, ℕ, ◌≤◌, length, IfOk};
ghost use Rattle.std.specs.Prelude.{slice_index};
ghost use Rattle.simulate.specs.Counts.{AreMoves, buckets_with};

use crate::choices::Choices;
use cells::Shape;
use std::alloc::{AllocError, Global};

/// How many choices a program can have: none, and 64 releases.
const KINDS: usize = Shape::MOST_RELEASES as usize + 1;

/// How many buckets get each release, by its number; 0 is none.
pub fn count_buckets(choices: &Choices) -> [u32; KINDS]
    ensures counts { (release : ℕ) → release ≤ 64
        → slice_index result release ≡ buckets_with choices.now release }
    ensures limit { (release : ℕ) → release ≤ 64 → slice_index result release ≤ 10000 }
{
    let choices = choices.as_slice();
    let mut counts = [0; KINDS];
    for bucket in 0..choices.len() {
        let choice = choices[bucket] as usize;
        let count = counts[choice];
        counts[choice] = count + 1;
    }
    counts
}

/// How many buckets move from which release to which, as a table. Place `65 * from + to` has the
/// number of buckets that get `from` by the first choices and `to` by the second.
// open: whether an allocation fails.
pub fn count_moves(alloc: Global, now: &Choices, next: &Choices) -> Result<Vec<u32>, AllocError>
    ensures moves { IfOk result (λ table. AreMoves now.now next.now table.items) }
    ensures length { IfOk result (λ table. length table.items ≡ 4225) }
{
    let now = now.as_slice();
    let next = next.as_slice();
    let mut table = Vec::from_elem(alloc, 0, KINDS * KINDS)?;
    for bucket in 0..now.len() {
        let place = KINDS * now[bucket] as usize + next[bucket] as usize;
        let count = table[place];
        table[place] = count + 1;
    }
    Ok(table)
}
