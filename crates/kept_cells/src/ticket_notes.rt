//! What a pass has noted of its tickets since the last mark.

ghost use Rattle.std.specs.Prelude.{◌≡◌, ℕ, ◌<◌, ◌≤◌, ◌-◌, ◌^◌, max, IfOk, IsTrue};
ghost use Rattle.std.specs.Prelude.{List, [], ◌∷◌, ◌++◌, drop, slice_index, slice_set};
ghost use mathlib.Core.List.{IsPrefix};
ghost use Rattle.cells.specs.Events.{event, AreZeros};
ghost use Rattle.cells.specs.declared.event.CellEvent.{CellEvent};
ghost use Rattle.ceilings.specs.Seats.{IsAt};
ghost use Rattle.shared_cells.specs.Quotas.{adds_one};
ghost use Rattle.kept_cells.specs.Tickets.{is_ticket, AreCovered};
ghost use Rattle.kept_cells.specs.Noted.{AreNotes, AreReached, IsReached, Notes, NotesOneMore};

use crate::kept::Kept;
use ceilings::{Reader, ceilings_monotone};
use cells::{CellNo, CellOp};
use std::alloc::{AllocError, Global};
use std::marker::Model;

/// Tickets from here on take no place, since quotas are below.
const FIRST_ABOVE: u64 = 1 << 63;

/// The notes of a pass: for each cell a number above its tickets since the mark. Only the cells
/// from `low` on, below `high`, have tickets.
#[derive(Drop)]
pub(crate) struct TicketNotes {
    above: Vec<u64>,
    /// The least ticket of each cell that has tickets.
    least: Vec<u64>,
    low: usize,
    high: usize,
    from: u64,
    count: u64,
}

impl Model for TicketNotes {
    ghost use Rattle.std.specs.Prelude.{◌≡◌, length};
    ghost use Rattle.kept_cells.specs.Noted.{AreNotes, NotesView};

    ghost Value = { NotesView };

    ghost view = { λ n. record {
      above = n.above.items;
      least = n.least.items;
      from = n.from;
      count = n.count;
    } };

    ghost invariant = { λ n.
        AreNotes n.above.items n.low n.high × (length n.least.items ≡ 4096) };
}

impl TicketNotes {
    /// The notes of a pass without events.
    pub(crate) fn new(alloc: Global) -> Result<TicketNotes, AllocError>
        ensures { IfOk result (λ n. Notes n []) }
    {
        let above = zeros(alloc, CellNo::FIRST_NARROW as usize)?;
        let least = zeros(alloc, CellNo::FIRST_NARROW as usize)?;
        Ok(TicketNotes {
            above,
            least,
            low: CellNo::FIRST_NARROW as usize,
            high: 0,
            from: 0,
            count: 0,
        })
    }

    /// Notes one more event of the pass.
    pub(crate) fn note(&mut self, cell: CellNo, op: CellOp, reply: u64)
        ensures { (events : List CellEvent) → Notes self.old events
            → Notes self.new (events ++ event cell.number op reply ∷ []) }
    {
        self.note_event(cell, op, reply);
    }

    fn note_event(&mut self, cell: CellNo, op: CellOp, reply: u64)
        ensures { NotesOneMore self.old (event cell.number op reply) self.new }
    {
        if is_ticket(cell, op, reply) {
            self.note_least(cell.index(), reply);
            self.note_number(cell.index(), reply + 1);
        }
        self.count = self.count.saturating_add(1);
    }

    // Notes a ticket of a cell, if it is the least one.
    fn note_least(&mut self, cell: usize, ticket: u64)
        requires { cell < 4096 }
        ensures ticket { slice_index self.new.least cell ≤ ticket }
        ensures lower { (c : ℕ) → 0 < slice_index self.old.above c
            → slice_index self.new.least c ≤ slice_index self.old.least c }
        ensures above { self.new.above ≡ self.old.above }
        ensures from { self.new.from ≡ self.old.from }
        ensures count { self.new.count ≡ self.old.count }
    {
        let is_first = self.above[cell] == 0;
        let before = self.least[cell];
        self.least[cell] = if is_first { ticket } else { ticket.min(before) };
    }

    // Notes a number for a cell, unless a greater one is noted.
    fn note_number(&mut self, cell: usize, number: u64)
        requires { cell < 4096 }
        ensures above { self.new.above
            ≡ slice_set self.old.above cell (max number (slice_index self.old.above cell)) }
        ensures least { self.new.least ≡ self.old.least }
        ensures from { self.new.from ≡ self.old.from }
        ensures count { self.new.count ≡ self.old.count }
    {
        let before = self.above[cell];
        self.above[cell] = number.max(before);
        self.low = self.low.min(cell);
        self.high = self.high.max(cell + 1);
    }

    /// Begins anew: what was noted is forgotten. Returns how many events the pass has.
    pub(crate) fn begin(&mut self) -> u64
        ensures mark { result ≡ self.old.count }
        ensures from { self.new.from ≡ self.old.count }
        ensures count { self.new.count ≡ self.old.count }
    {
        clear(&mut self.above, self.low, self.high);
        self.low = CellNo::FIRST_NARROW as usize;
        self.high = 0;
        self.from = self.count;
        self.count
    }

    /// Whether each ticket since the mark is below its ceiling, or past its limit. False if the
    /// notes begin elsewhere.
    pub(crate) fn is_covered(&self, mark: u64, kept: &Kept, reader: &mut Reader) -> bool
        requires own { IsAt kept.now reader.old }
        ensures own { IsAt kept.now reader.new }
        ensures mark { IsTrue result → mark < 2 ^ 64 - 1 }
        ensures covered { IsTrue result → (events : List CellEvent) → Notes self.now events
            → AreCovered reader.new.raised (drop mark events) }
    {
        if !self.begins_at(mark) {
            return false;
        }
        self.is_reached(kept, reader)
    }

    // Whether the notes begin at this mark.
    fn begins_at(&self, mark: u64) -> bool
        ensures from { IsTrue result → self.now.from ≡ mark }
        ensures mark { IsTrue result → mark < 2 ^ 64 - 1 }
    {
        self.from == mark && mark < u64::MAX
    }

    // Whether each ceiling is at least the cell's number, or the tickets are past the limit.
    fn is_reached(&self, kept: &Kept, reader: &mut Reader) -> bool
        requires own { IsAt kept.now reader.old }
        ensures own { IsAt kept.now reader.new }
        ensures reached { IsTrue result
            → AreReached self.now.above self.now.least reader.new.raised }
    {
        ceilings_monotone();
        for cell in self.low..self.high {
            let above = self.above[cell];
            if above > 0 && !is_cell_reached(kept, reader, cell, above, self.least[cell]) {
                return false;
            }
        }
        true
    }

    /// Wants ceilings that are above the tickets since the mark.
    pub(crate) fn want(&self, kept: &Kept) {
        for cell in self.low..self.high {
            let above = self.above[cell];
            if above > 0 {
                kept.want(cell, above);
            }
        }
        kept.ring();
    }
}

// Whether a cell's ceiling is at least this number, or else its limit at most the other. If the
// number has reached the cell's mark, a higher ceiling is wanted.
fn is_cell_reached(kept: &Kept, reader: &mut Reader, cell: usize, above: u64, least: u64) -> bool
    requires own { IsAt kept.now reader.old }
    requires cell { cell < 4096 }
    ensures own { IsAt kept.now reader.new }
    ensures onwards { IsPrefix reader.old.raised reader.new.raised }
    ensures reached { IsTrue result → IsReached reader.new.raised cell above least }
{
    let ceiling = kept.look(reader, cell);
    if ceiling < above {
        return kept.limit(reader, cell) <= least;
    }
    kept.want_by_mark(cell, above);
    true
}

// `count` zeros.
fn zeros(alloc: Global, count: usize) -> Result<Vec<u64>, AllocError>
    ensures { IfOk result (λ v. AreZeros count v.items) }
{
    Vec::from_elem(alloc, 0, count)
}

// Makes all numbers 0, of which only those from `low` on, below `high`, aren't.
fn clear(numbers: &mut [u64], low: usize, high: usize)
    requires { AreNotes numbers.old low high }
    ensures { AreZeros 4096 numbers.new }
{
    for cell in low..high {
        numbers[cell] = 0;
    }
}

fn is_ticket(cell: CellNo, op: CellOp, reply: u64) -> bool
    ensures value { result ≡ is_ticket (event cell.number op reply) }
    ensures wide { IsTrue result → cell.number < 4096 }
    ensures place { IsTrue result → reply < 2 ^ 63 }
{
    cell.number < CellNo::FIRST_NARROW && is_one_more(op) && reply < FIRST_ABOVE
}

fn is_one_more(op: CellOp) -> bool
    ensures { result ≡ adds_one op }
{
    match op {
        CellOp::Add(number) => number == 1,
        _ => false,
    }
}
