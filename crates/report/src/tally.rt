//! A table that counts names. It has at most `limit` rows. Names that get no row are counted
//! together, so memory is bounded for any log.

ghost use Rattle.std.specs.Prelude.{◌≡◌, ◌<◌, [], ◌∷◌, true, false, None, OnOk, replicate};
ghost use Rattle.std.specs.String.{string_bytes};
ghost use Rattle.std.specs.BTreeMap.{get_by_text};
ghost use Rattle.report.specs.Tallies.{IsTally, Notes, Sets, with_others};

use std::alloc::{AllocError, Global};
use std::collections::BTreeMap;

/// Names with their counts, which stop at the greatest 64-bit number.
#[derive(Drop)]
pub struct Tally {
    pub(crate) rows: BTreeMap<String, u64>,
    pub(crate) others: u64,
    pub(crate) limit: usize,
}

impl Tally {
    /// An empty table for at most `limit` rows.
    pub fn new(alloc: Global, limit: usize) -> Tally
        ensures { IsTally limit [] result }
    {
        Tally {
            rows: BTreeMap::new(alloc),
            others: 0,
            limit,
        }
    }

    /// How often a name was counted, if it has a row.
    pub fn count_of(&self, name: &str) -> Option<u64>
        ensures { result ≡ get_by_text self.now.rows name.now }
    {
        self.rows.get(name).copied()
    }

    /// The rows, sorted by name.
    pub fn rows(&self) -> &BTreeMap<String, u64>
        ensures { result.now ≡ self.now.rows }
    {
        &self.rows
    }

    /// How often names without a row were counted.
    pub fn others(&self) -> u64
        ensures { result ≡ self.now.others }
    {
        self.others
    }

    /// The maximum number of rows.
    pub fn limit(&self) -> usize
        ensures { result ≡ self.now.limit }
    {
        self.limit
    }

    /// Sets the number of the names without a row.
    pub fn set_others(&mut self, others: u64)
        ensures { self.new ≡ with_others others self.old }
    {
        self.others = others;
    }

    /// Sets the row of a name, also above the maximum number of rows.
    pub fn set(&mut self, name: String, count: u64) -> Result<(), AllocError>
        ensures { OnOk result (Sets self.old self.new (string_bytes name) count) }
    {
        self.rows.insert(name, count)?;
        Ok(())
    }

    /// Counts a name.
    pub(crate) fn note(&mut self, name: String) -> Result<(), AllocError>
        ensures { OnOk result (Notes self.old self.new (string_bytes name ∷ [])) }
    {
        self.note_times(name, 1)
    }

    /// Counts a name as often as that.
    #[tactic(auto, using(crate::proofs::Tallied::notes_no_times))]
    pub(crate) fn note_times(&mut self, name: String, times: u64) -> Result<(), AllocError>
        ensures { OnOk result (Notes self.old self.new (replicate times (string_bytes name))) }
    {
        if times == 0 {
            return Ok(());
        }
        if self.raise(name.as_str(), times) {
            return Ok(());
        }
        self.note_new(name, times)
    }

    // Counts a name that has a row, and returns whether it has one.
    fn raise(&mut self, name: &str, times: u64) -> bool
        requires some { 0 < times }
        ensures counted { result ≡ true
            → Notes self.old self.new (replicate times name.now) }
        ensures unchanged { result ≡ false → self.new ≡ self.old }
        ensures new { result ≡ false → get_by_text self.old.rows name.now ≡ None }
    {
        match self.rows.get_mut(name) {
            Some(count) => {
                *count = count.saturating_add(times);
                true
            }
            None => false,
        }
    }

    // Counts a name without a row.
    fn note_new(&mut self, name: String, times: u64) -> Result<(), AllocError>
        requires new { get_by_text self.old.rows (string_bytes name) ≡ None }
        requires some { 0 < times }
        ensures { OnOk result (Notes self.old self.new (replicate times (string_bytes name))) }
    {
        if self.rows.len() < self.limit {
            return self.set(name, times);
        }
        self.others = self.others.saturating_add(times);
        Ok(())
    }
}

/// Counts no name.
#[tactic(auto, using(crate::proofs::Tallied::notes_none))]
pub(crate) fn note_nothing(tally: &mut Tally) -> Result<(), AllocError>
    ensures { OnOk result (Notes tally.old tally.new []) }
{
    Ok(())
}
