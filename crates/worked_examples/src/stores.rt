//! Which bytes are known to be set after a store within the stack: exactly those that it writes,
//! and those that were set.

ghost use Rattle.worked_examples.specs.StoredBytes.{StoresSetTheirBytes, OtherSlotsStay};

/// A store of at most 8 bytes at any place, in a whole slot, in part of one, or in parts of two.
/// Exactly the bytes that it writes become set, and a slot of which it writes none is unchanged.
pub fn stores_set_their_bytes()
    ensures bytes { StoresSetTheirBytes }
    ensures others { OtherSlotsStay }
{}
