//! The entries that wait for slots ahead: a pool of entries, and a table with the index of each
//! slot's entry. A freed entry is reused, so the pool grows only when more entries wait than ever
//! before.

ghost use Rattle.std.specs.Prelude.{◌≡◌, ◌<◌, ◌≤◌, length, replicate, max};
ghost use Rattle.std.specs.Prelude.{IfOk, OnOk, OnErr, Some, None, option_copied};
ghost use Rattle.bpf_verify.specs.Pool.{waits_at, held, joined_with, IsChanged};

use abs_value::AbsState;
use std::alloc::{AllocError, Global};
use std::marker::Model;

/// Entries by the slots that they wait for.
#[derive(Drop)]
pub struct Pool {
    entries: Vec<AbsState>,
    places: Vec<Option<u16>>,
    free: Vec<u16>,
}

impl Model for Pool {
    ghost use Rattle.bpf_verify.specs.Pool.{Waiting, waiting, IsPool};
    ghost use Rattle.std.specs.Prelude.{length};

    ghost Value = { Waiting };

    ghost view = { λ p. waiting p.entries.items p.places.items };

    ghost invariant = { λ p. IsPool (length p.entries.items) p.places.items p.free.items };
}

impl Pool {
    /// A pool without entries, for `count` slots.
    pub fn new(alloc: Global, count: usize) -> Result<Pool, AllocError>
        requires { count ≤ 4096 }
        ensures { IfOk result (λ w. (w.entries ≡ replicate count None) × (w.most ≡ 0)) }
    {
        let places = vec![in alloc; None; count]?;
        Ok(Pool {
            entries: Vec::new(alloc),
            places,
            free: Vec::new(alloc),
        })
    }

    /// The greatest number of entries that waited at once.
    pub fn most(&self) -> usize
        ensures count { result ≡ self.now.most }
        ensures small { result ≤ 4096 }
    {
        self.entries.len()
    }

    /// The entry that waits for the slot.
    pub fn at(&self, place: usize) -> Option<&AbsState>
        ensures { option_copied result ≡ waits_at self.now place }
    {
        match self.places.get(place) {
            Some(Some(index)) => Some(&self.entries[*index as usize]),
            _ => None,
        }
    }

    /// Stores a copy of an entry for a slot for which none waits.
    #[inline(never)]
    fn put(&mut self, place: usize, entry: &AbsState) -> Result<(), AllocError>
        requires within { place < length self.old.entries }
        requires none { waits_at self.old place ≡ None }
        ensures changed { OnOk result (IsChanged self.old self.new place (Some entry.now)) }
        ensures most { OnOk result (self.new.most ≡ max self.old.most (held self.new)) }
        ensures same { OnErr result (self.new.most ≡ self.old.most) }
    {
        match self.free.pop() {
            Some(index) => {
                self.entries[index as usize].copy_from(entry);
                self.places[place] = Some(index);
            }
            None => {
                let index = self.entries.len() as u16;
                self.entries.push(entry.copy())?;
                self.places[place] = Some(index);
            }
        }
        Ok(())
    }

    /// Joins an entry into the one that waits for the slot. If none waits, stores a copy of it.
    pub fn add(&mut self, place: usize, entry: &AbsState) -> Result<(), AllocError>
        requires { place < length self.old.entries }
        ensures changed { OnOk result (IsChanged self.old self.new place
            (Some (joined_with (waits_at self.old place) entry.now))) }
        ensures most { OnOk result (self.new.most ≡ max self.old.most (held self.new)) }
        ensures same { OnErr result (self.new.most ≡ self.old.most) }
    {
        match self.places[place] {
            Some(index) => {
                self.entries[index as usize].join_in(entry);
                Ok(())
            }
            None => self.put(place, entry),
        }
    }

    /// Frees the entry that waits for the slot, if there is one.
    pub fn free_entry(&mut self, place: usize) -> Result<(), AllocError>
        ensures changed { OnOk result (IsChanged self.old self.new place None) }
        ensures most { self.new.most ≡ self.old.most }
        ensures held { OnOk result (held self.new ≤ self.new.most) }
    {
        if let Some(Some(index)) = self.places.get(place) {
            let index = *index;
            self.free.push(index)?;
            self.places[place] = None;
        }
        Ok(())
    }
}
