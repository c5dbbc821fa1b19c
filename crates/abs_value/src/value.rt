//! Abstract values: unusable, a number with its range and known bits, or a pointer with its region
//! and the places there. An operation keeps a pointer in its region, or its result is unusable.

ghost use Rattle.std.specs.Prelude.{◌≡◌, true};
ghost use Rattle.abs_value.specs.Lookups as lookups;
ghost use Rattle.abs_value.specs.Values as values;

use crate::number::Number;
use crate::origin::{Lookup, Origin};
use crate::places::{Places, moved_in_stack};
use bpf_insn::{AluOp, Bits, ByteOrder, Condition, EndSize, Extension, LoadKind};
use bpf_semantics::helpers::Prototype;

/// The abstract value of a register, or of a stack slot that keeps a value.
#[derive(Clone, Copy)]
pub enum Abs {
    /// Nothing is known; a register may also be unset.
    Unusable,
    /// A number of the range, with these known bits.
    Num(Number),
    /// An address in the context, at one of these places.
    Ctx(Places),
    /// The address of this place in the stack.
    Stk { place: u16 },
    /// The map of this index.
    Map { index: u32 },
    /// The result of a lookup: the address of a cell of its array, or 0.
    MayCell(Lookup),
    /// The address of a cell.
    Cell(Origin),
}

impl Abs {
    /// Whether nothing is known of it; a register may be unset.
    #[inline]
    pub fn is_unusable(self) -> bool
        ensures { result ≡ values.is_unusable self }
    {
        matches!(self, Abs::Unusable)
    }

    /// Whether it is an address, an array, or the result of a lookup, which may be 0.
    #[inline]
    pub fn is_pointer(self) -> bool
        ensures { result ≡ values.is_pointer self }
    {
        !matches!(self, Abs::Unusable | Abs::Num(_))
    }

    /// Whether it is a number.
    #[inline]
    pub fn is_number(self) -> bool
        ensures { result ≡ values.is_number self }
    {
        matches!(self, Abs::Num(_))
    }

    /// The result of 64-bit arithmetic of a pointer with a number. `None` if the address may leave
    /// its region, and for any other arithmetic with a pointer.
    pub fn pointer_result(self, bits: Bits, op: AluOp, other: Abs) -> Option<Abs>
        ensures { result ≡ values.pointer_result bits op self other }
    {
        match (bits, self, other) {
            (Bits::Bits64, Abs::Ctx(from), Abs::Num(by)) => from.moved(op, by).map(Abs::Ctx),
            (Bits::Bits64, Abs::Stk { place }, Abs::Num(by)) => {
                moved_in_stack(op, place, by).map(|place| Abs::Stk { place })
            }
            _ => None,
        }
    }

    /// The result of an operation.
    pub fn alu(self, bits: Bits, op: AluOp, other: Abs) -> Abs
        ensures { result ≡ values.alu_value bits op self other }
    {
        match (self, other) {
            (Abs::Num(a), Abs::Num(b)) => Abs::Num(a.alu(bits, op, b)),
            _ => match self.pointer_result(bits, op, other) {
                Some(pointer) => pointer,
                None => Abs::Unusable,
            },
        }
    }

    /// The result of MOV. For a pointer, only a 64-bit MOV gives a pointer.
    pub fn copied(self, bits: Bits) -> Abs
        ensures { result ≡ values.copied_value bits self }
    {
        match (bits, self) {
            (_, Abs::Num(a)) => Abs::Num(a.copied(bits)),
            (Bits::Bits64, _) => self,
            (Bits::Bits32, _) => Abs::Unusable,
        }
    }

    /// The result of NEG.
    pub fn negated(self, bits: Bits) -> Abs
        ensures { result ≡ values.negated_value bits self }
    {
        Abs::Num(Number::single(0)).alu(bits, AluOp::Sub, self)
    }

    /// The result of MOVSX.
    pub fn extended(self, extension: Extension) -> Abs
        ensures { result ≡ values.extended_value extension self }
    {
        match self {
            Abs::Num(a) => Abs::Num(a.extended(extension)),
            _ => Abs::Unusable,
        }
    }

    /// The result of END.
    pub fn reordered(self, order: ByteOrder, size: EndSize) -> Abs
        ensures { result ≡ values.reordered_value order size self }
    {
        match self {
            Abs::Num(a) => Abs::Num(a.reordered(order, size)),
            _ => Abs::Unusable,
        }
    }

    /// The result of a load of unknown bytes.
    pub fn loaded(kind: LoadKind) -> Abs
        ensures { result ≡ values.loaded_value kind }
    {
        Abs::Num(match kind {
            LoadKind::Byte => Number::up_to(u8::MAX as u64),
            LoadKind::Half => Number::up_to(u16::MAX as u64),
            LoadKind::Word => Number::up_to(u32::MAX as u64),
            LoadKind::Double => Number::up_to(u64::MAX),
            _ => Number::full(Bits::Bits64),
        })
    }

    /// What remains of the two compared values, on the edge that jumps or on the fall-through edge;
    /// `None` if no run takes that edge. A pointer isn't narrowed. The caller must first test
    /// whether both are the same register, which narrows nothing.
    pub(crate) fn refined(
        self,
        bits: Bits,
        condition: Condition,
        jumps: bool,
        other: Abs,
    ) -> Option<(Abs, Abs)>
        ensures { result ≡ values.refined bits condition jumps self other }
    {
        match (self, other) {
            (Abs::Num(a), Abs::Num(b)) => match a.narrowed(bits, condition, jumps, b) {
                Some((a, b)) => Some((Abs::Num(a), Abs::Num(b))),
                None => None,
            },
            _ => Some((self, other)),
        }
    }

    /// The value once it is known whether the lookup by the CALL at slot `call` found a cell. If it
    /// didn't, its result is 0.
    pub(crate) fn with_answer(self, call: u16, found: bool) -> Abs
        ensures { result ≡ lookups.with_answer call found self }
    {
        match self {
            Abs::MayCell(lookup) if lookup.slot == call => lookup.answer(found),
            Abs::Cell(Origin::Found(lookup)) if lookup.slot == call => lookup.answer(found),
            _ => self,
        }
    }

    /// The value of R0 after a CALL at `slot` of this helper, if `self` was R1 before.
    pub(crate) fn called(self, helper: i32, slot: u16) -> Abs
        ensures { result ≡ lookups.call_value helper slot self }
    {
        self.given(Prototype::called(helper), slot)
    }

    /// The value of R0 after a call of a helper with this prototype.
    fn given(self, called: Option<Prototype>, slot: u16) -> Abs
        ensures { result ≡ lookups.value_given called slot self }
    {
        match (called, self) {
            (Some(Prototype::OfMap), Abs::Map { index }) => {
                Abs::MayCell(Lookup { array: index, slot })
            }
            (Some(Prototype::OfText), _) => Abs::Num(Number::up_to(1)),
            (Some(Prototype::OfNumber { most }), _) => Abs::Num(Number::up_to(most)),
            _ => Abs::Unusable,
        }
    }

    /// Whether `self` is known to be the join of both.
    pub(crate) fn stays(&self, other: &Abs) -> bool
        ensures { result ≡ true → values.join_values self.now other.now ≡ self.now }
    {
        match (self, other) {
            (Abs::Num(a), Abs::Num(b)) => a.stays(*b),
            (Abs::Unusable, _) => true,
            (Abs::Ctx(a), Abs::Ctx(b)) => a.lo <= b.lo && b.hi <= a.hi,
            (Abs::Stk { place: a }, Abs::Stk { place: b }) => *a == *b,
            _ => false,
        }
    }

    /// The join.
    pub(crate) fn join(self, other: Abs) -> Abs
        ensures { result ≡ values.join_values self other }
    {
        match (self, other) {
            (Abs::Num(a), Abs::Num(b)) => Abs::Num(a.join(b)),
            (Abs::Ctx(a), Abs::Ctx(b)) => Abs::Ctx(a.hull(b)),
            (Abs::Stk { place }, Abs::Stk { place: other }) if place == other => Abs::Stk { place },
            (Abs::Map { index }, Abs::Map { index: other }) if index == other => Abs::Map { index },
            (Abs::MayCell(a), Abs::MayCell(b)) if a.is_same(b) => self,
            (Abs::MayCell(a), Abs::Cell(b)) if b.is_found_by(a) => self,
            (Abs::Cell(a), Abs::MayCell(b)) if a.is_found_by(b) => other,
            (Abs::Cell(a), Abs::Cell(b)) if a.is_same(b) => self,
            _ => Abs::Unusable,
        }
    }
}
