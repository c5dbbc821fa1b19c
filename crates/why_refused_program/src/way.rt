//! What changed on the edge to a place.

ghost use Rattle.std.specs.Prelude.{◌≡◌, ◌<◌};
ghost use Rattle.why_refused_program.specs.Way as specs;

use abs_value::{Abs, AbsState};
use bpf_checks::go_on_in;
use bpf_insn::{Insn, Reg};
use cells::Shape;
use flow_check::next_place;

/// What was known about the registers before an instruction, and on the edge by which it continues.
#[derive(Clone, Copy)]
pub struct Way {
    pub before: [Abs; 11],
    pub after: [Abs; 11],
}

impl Way {
    /// For a place to which nothing continues.
    pub fn still() -> Way
        ensures { result ≡ specs.still }
    {
        let nothing = [Abs::Unusable; 11];
        Way {
            before: nothing,
            after: nothing,
        }
    }

    /// For the place after an instruction before which this is known.
    pub fn past(shape: &Shape, slot: usize, e: &AbsState, insn: &Insn) -> Way
        requires { slot < 4096 }
        ensures { result ≡ specs.way_past shape.now slot e.now insn.now }
    {
        let mut edge = e.copy();
        if next_place(slot, *insn).is_some() && go_on_in(&mut edge, shape, slot as u16, insn) {
            Way {
                before: e.registers,
                after: edge.registers,
            }
        } else {
            Way::still()
        }
    }

    /// Whether a register changed.
    pub fn changes_on_way(&self, r: Reg) -> bool
        ensures { result ≡ specs.changes_on_way self.now r }
    {
        !same_value(self.before[r.index()], self.after[r.index()])
    }
}

// Whether the same is known about two values.
fn same_value(a: Abs, b: Abs) -> bool
    ensures { result ≡ specs.same_value a b }
{
    match (a, b) {
        (Abs::Unusable, Abs::Unusable) => true,
        (Abs::Num(a), Abs::Num(b)) => a.is_same(b),
        (Abs::Ctx(a), Abs::Ctx(b)) => a.lo == b.lo && a.hi == b.hi,
        (Abs::Stk { place: a }, Abs::Stk { place: b }) => a == b,
        (Abs::Map { index: a }, Abs::Map { index: b }) => a == b,
        (Abs::MayCell(a), Abs::MayCell(b)) => a.is_same(b),
        (Abs::Cell(a), Abs::Cell(b)) => a.is_same(b),
        _ => false,
    }
}
