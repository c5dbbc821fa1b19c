//! The abstract value of an aligned slot of 8 bytes of the stack. Either a value that was stored
//! there as a whole is known, or which of its bytes are set. The set bytes are a mask, one bit for
//! each byte.

ghost use Rattle.std.specs.Prelude.{◌≡◌, ◌==◌, ◌<◌, bit_or, true};
ghost use Rattle.std.specs.Int.{bit_at};
ghost use Rattle.abs_value.specs.Lookups.{slot_with_answer};
ghost use Rattle.abs_value.specs.Stack as slots;

use crate::value::Abs;

/// All 8 bytes.
pub const ALL_SET: u8 = 0xff;

/// The abstract value of an aligned slot of 8 bytes.
#[derive(Clone, Copy)]
pub enum AbsSlot {
    /// All 8 bytes are set, and the slot keeps this value.
    Kept(Abs),
    /// At least these bytes are set. The mask has one bit for each, the lowest for the first byte.
    Bytes(u8),
}

impl AbsSlot {
    /// The mask of the bytes that are set; a slot that keeps a value has all of them set.
    pub(crate) fn mask(self) -> u8
        ensures { result ≡ slots.mask_of self }
    {
        match self {
            AbsSlot::Kept(_) => ALL_SET,
            AbsSlot::Bytes(mask) => mask,
        }
    }

    /// Whether the byte of this number, from 0 to 7, is set.
    pub(crate) fn has_set(self, byte: u16) -> bool
        requires { byte < 8 }
        ensures { result ≡ (bit_at (slots.mask_of self) byte == 1) }
    {
        (self.mask() >> byte) % 2 == 1
    }

    /// The slot after these bytes are written: only which bytes are set is known.
    pub(crate) fn with_set(self, mask: u8) -> AbsSlot
        ensures { result ≡ AbsSlot.Bytes (bit_or (slots.mask_of self) mask) }
    {
        AbsSlot::Bytes(self.mask() | mask)
    }

    /// The value that the whole slot keeps, otherwise `other`.
    pub(crate) fn kept_or(self, other: Abs) -> Abs
        ensures { result ≡ slots.kept_or self other }
    {
        match self {
            AbsSlot::Kept(value) => value,
            AbsSlot::Bytes(_) => other,
        }
    }

    /// The slot once it is known whether the lookup at `call` found a cell.
    pub(crate) fn with_answer(self, call: u16, found: bool) -> AbsSlot
        ensures { result ≡ slot_with_answer call found self }
    {
        match self {
            AbsSlot::Kept(value) => AbsSlot::Kept(value.with_answer(call, found)),
            AbsSlot::Bytes(_) => self,
        }
    }

    fn of(value: Abs) -> AbsSlot
        ensures { result ≡ slots.kept_slot value }
    {
        if value.is_unusable() {
            AbsSlot::Bytes(ALL_SET)
        } else {
            AbsSlot::Kept(value)
        }
    }

    /// Whether `self` is known to be the join of both.
    pub(crate) fn stays(&self, other: &AbsSlot) -> bool
        ensures { result ≡ true → slots.join_slots self.now other.now ≡ self.now }
    {
        match (self, other) {
            (AbsSlot::Kept(Abs::Num(a)), AbsSlot::Kept(Abs::Num(b))) => a.stays(*b),
            (AbsSlot::Bytes(a), AbsSlot::Bytes(b)) => *a & *b == *a,
            (AbsSlot::Kept(a), AbsSlot::Kept(b)) => !a.is_unusable() && a.stays(b),
            _ => false,
        }
    }

    /// The join.
    pub(crate) fn join(self, other: AbsSlot) -> AbsSlot
        ensures { result ≡ slots.join_slots self other }
    {
        match (self, other) {
            (AbsSlot::Bytes(a), AbsSlot::Bytes(b)) => AbsSlot::Bytes(a & b),
            (AbsSlot::Kept(a), AbsSlot::Kept(b)) => AbsSlot::of(a.join(b)),
            _ => AbsSlot::Bytes(self.mask() & other.mask()),
        }
    }
}
