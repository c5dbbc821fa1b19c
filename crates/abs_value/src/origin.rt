//! The origin of a cell's address: a lookup that found it, or a fixed cell.

ghost use Rattle.std.specs.Prelude.{◌≡◌};
ghost use Rattle.abs_value.specs.Lookups as lookups;
ghost use Rattle.abs_value.specs.Values as values;

use crate::number::Number;
use crate::value::Abs;

/// A lookup in an array of the program's shape, by the CALL at `slot`.
#[derive(Clone, Copy)]
pub struct Lookup {
    pub array: u32,
    pub slot: u16,
}

impl Lookup {
    /// Whether both are by the same CALL, in the same array.
    pub fn is_same(self, other: Lookup) -> bool
        ensures { result ≡ values.same_lookup self other }
    {
        self.array == other.array && self.slot == other.slot
    }

    /// The value of its result, once it is known whether it found a cell.
    pub fn answer(self, found: bool) -> Abs
        ensures { result ≡ lookups.answer_of self found }
    {
        if found {
            Abs::Cell(Origin::Found(self))
        } else {
            Abs::Num(Number::single(0))
        }
    }
}

/// The origin of a cell's address.
#[derive(Clone, Copy)]
pub enum Origin {
    /// The result of a lookup.
    Found(Lookup),
    /// The cell of this number, named by a wide load.
    Fixed(u16),
}

impl Origin {
    pub(crate) fn is_found_by(self, lookup: Lookup) -> bool
        ensures { result ≡ values.is_found_by self lookup }
    {
        match self {
            Origin::Found(found) => found.is_same(lookup),
            Origin::Fixed(_) => false,
        }
    }

    /// Whether both are the same lookup, or the same fixed cell.
    pub fn is_same(self, other: Origin) -> bool
        ensures { result ≡ values.same_origin self other }
    {
        match (self, other) {
            (Origin::Found(a), Origin::Found(b)) => a.is_same(b),
            (Origin::Fixed(a), Origin::Fixed(b)) => a == b,
            _ => false,
        }
    }
}
