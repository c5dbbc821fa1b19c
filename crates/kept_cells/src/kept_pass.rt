//! A pass that notes its tickets.

ghost use Rattle.std.specs.Prelude.{◌≡◌, ◌<◌, ◌-◌, ◌^◌, [], IfOk, IsTrue, drop};
ghost use Rattle.cells.specs.Events.{event, CanReply};
ghost use Rattle.ceilings.specs.Seats.{IsAt};
ghost use Rattle.shared_cells.specs.Passes.{IsPassOf, Gained};
ghost use Rattle.kept_cells.specs.Tickets.{AreCovered, IsMark};

use crate::kept::Kept;
use crate::ticket_notes::TicketNotes;
use ceilings::Reader;
use cells::{CellNo, CellOp, CellSteps};
use shared_cells::{SharedCells, SharedPass};
use std::alloc::{AllocError, Global};
use std::marker::Model;

/// A thread's right to act on shared cells, with notes of its tickets if there are ceilings. In
/// contracts it is the shared pass.
#[derive(Drop)]
pub struct KeptPass {
    pass: SharedPass,
    notes: Option<TicketNotes>,
}

impl Model for KeptPass {
    ghost use Rattle.std.specs.Prelude.{IfSome};
    ghost use Rattle.shared_cells.specs.Passes.{PassView};
    ghost use Rattle.kept_cells.specs.Noted.{Notes};

    ghost Value = { PassView };

    ghost view = { λ p. p.pass };

    ghost invariant = { λ p. IfSome p.notes (λ n. Notes n p.pass.events) };
}

impl KeptPass {
    /// A pass that notes nothing, for cells without ceilings.
    pub fn plain(pass: SharedPass) -> KeptPass
        ensures { result ≡ pass }
    {
        KeptPass { pass, notes: None }
    }

    /// A new pass that notes its tickets.
    // open: whether an allocation fails.
    pub fn noting(alloc: Global, pass: SharedPass) -> Result<KeptPass, AllocError>
        requires { pass.events ≡ [] }
        ensures { IfOk result (λ p. p ≡ pass) }
    {
        let notes = TicketNotes::new(alloc)?;
        Ok(KeptPass {
            pass,
            notes: Some(notes),
        })
    }

    /// The shared pass.
    pub fn into_pass(self) -> SharedPass
        ensures { result ≡ self }
    {
        let KeptPass {
            pass,
            notes: _notes,
        } = self;
        pass
    }

    pub(crate) fn act(&mut self, cells: &SharedCells, cell: CellNo, op: CellOp) -> u64
        requires { IsPassOf cells.now self.old }
        ensures grew { Gained self.old (event cell.number op result) self.new }
        ensures fits { CanReply cell.number op result }
    {
        let reply = cells.act(&mut self.pass, cell, op);
        match &mut self.notes {
            Some(notes) => {
                notes.note(cell, op, reply);
                reply
            }
            None => reply,
        }
    }

    pub(crate) fn begin(&mut self) -> u64
        ensures same { self.new ≡ self.old }
        ensures marks { IsMark result self.new }
    {
        match &mut self.notes {
            Some(notes) => notes.begin(),
            None => u64::MAX,
        }
    }

    /// Whether each ticket since the mark is covered. False if none are noted from it.
    pub(crate) fn is_covered(&self, mark: u64, kept: &Kept, reader: &mut Reader) -> bool
        requires own { IsAt kept.now reader.old }
        ensures own { IsAt kept.now reader.new }
        ensures mark { IsTrue result → mark < 2 ^ 64 - 1 }
        ensures covered { IsTrue result → AreCovered reader.new.raised (drop mark self.now.events) }
    {
        match &self.notes {
            Some(notes) => notes.is_covered(mark, kept, reader),
            None => false,
        }
    }

    /// Wants ceilings that are above the tickets since the mark.
    pub(crate) fn want(&self, kept: &Kept) {
        if let Some(notes) = &self.notes {
            notes.want(kept);
        }
    }
}
