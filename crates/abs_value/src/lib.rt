//! The verifier's abstract values: arithmetic, conditions, joins and the stack, each with the
//! concrete values that it represents. Everything has a fixed size; nothing here allocates or
//! fails.
//!
//! See docs/SPECIFICATION.md, "The verifier".
#![tactic(auto)]

// The method is abstract interpretation. The verifier runs a program once, on abstract values
// instead of numbers; each abstract value represents a set of concrete values. The abstract value
// of a register (`Abs`) is one of these:
//
// - unusable: nothing is known, and the register may be unset (`Unusable`);
// - a number of an interval, with known bits (`Num`). It is unsigned, has 64 bits, and is single if
//   the two ends are equal. `Interval` has the formulas of the ends, and `KnownBits` those of the
//   bits; a `Number` has both, and each tightens the other;
// - an address in the context, between two places (`Ctx`);
// - the address of one place in the stack (`Stk`). A place is an offset from the start of a region.
//   The region's end is a place, so a pointer may be just past the last byte, but can't access it;
// - an array of the program's shape, as the argument of a helper (`Map`);
// - the result of a lookup in an array, which is the address of a cell or 0 (`MayCell`); the slot
//   of its CALL identifies it;
// - the address of a cell, from a lookup that found one or from a wide load (`Cell`).
//
// Arithmetic. For two single numbers the result of each operation is what the machine computes, by
// the machine's own function. Otherwise each operation has one formula over the ends of the
// intervals and the greatest number of the class. The interval of a sum, for example, has the sums
// of the ends if these fit, and is the whole class if a sum may wrap. AND, OR, XOR, MOV and shifts
// also have a formula over the bits. For 32-bit operations the operands are first truncated: a
// single number to its low half, and an interval that exceeds 32 bits to all 32-bit numbers. So the
// upper half of a result is 0 without further rules. Only 64-bit ADD and SUB of a number move a
// pointer, and only within its region; a single number counts by its signed view there. Every other
// operation on a pointer gives an unusable value.
//
// Interval and bits. A number is at least its bits that are known to be 1, and at most all bits
// that may be 1. Above the highest bit in which the ends differ, all numbers of the interval have
// the same bits. Each result, narrowing and join is tidied by these two rules, once. A value that
// represents no number may pass this, and be found empty only the next time. Then an edge is
// dropped, but a result or a join stays as it was computed. So each result has a value, and its
// ends are in order.
//
// Conditions. A conditional jump has two edges. Two single numbers decide the condition, and the
// other edge is dropped, since no run takes it. Otherwise an edge implies a relation of the two
// numbers: the condition or its opposite. The ends that contradict this relation move in. Two equal
// numbers have the same known bits, and JSET implies bits of the first operand if the second is a
// single number. An edge on which a number is found empty is also dropped. A signed comparison
// orders numbers as the unsigned one does if both intervals are on one side of the sign bit;
// otherwise it narrows nothing. A 32-bit comparison narrows only if both intervals are below 2 to
// the 32, since it doesn't compare the upper halves.
//
// The stack. For each of the 64 aligned slots of 8 bytes, the value that was stored there as a
// whole is known, or which of its bytes are set. Any other store leaves only set bytes: after part
// of a value is overwritten, nothing is known of that value. A load of a whole slot that keeps a
// value gives this value; any other load gives any number of its width.
//
// Joins. The join of two edges knows only what both know. That is the hull of two intervals and the
// bits that both know to be the same, a value that is equal on both sides, and the bytes that are
// set on both. Everything else is unusable.
//
// Lookups. The result of a lookup isn't known here. So an abstract value represents numbers given
// the results of the calls so far, one for each call. `MayCell` is the result of its call, and all
// copies of it are the same number. A later call adds a result, and doesn't change what older
// values mean. A comparison with 0 decides which result it was. On one edge each copy, in registers
// and in the stack, is 0; on the other it is the address of a cell. The address of a cell is never
// 0, so one edge of its comparison with 0 is dropped.
//
// Calls. A call sets R0 to its result, and makes R1 to R5 unset. For a lookup, the array and the
// call of the result are known; for another helper, the range of the result. Everything else is
// unchanged.
//
// `laws.rt` says why this is sound. `specs/Covers.antt` defines which states of the machine an
// abstract state represents (concretization). The laws say that each operation here covers the
// machine's operation: if the abstract state represents the state before, its result represents the
// state after. They also say that the edge that a run takes is never dropped.

mod bounds;
mod interval;
mod known_bits;
mod laws;
mod lookups;
mod narrow;
mod number;
mod origin;
mod places;
mod relation;
mod results;
mod slot;
mod stack;
mod state;
mod value;

pub use interval::Interval;
pub use known_bits::KnownBits;
pub use laws::{
    answers_are_kept, bytes_are_there, calls_sound, edges_are_kept, joins_commute, joins_sound,
    loads_sound, lookups_sound, numbers_are_kept, registers_sound, results_sound, states_monotone,
    stores_sound, values_monotone,
};
pub use lookups::compares_with_zero;
pub use number::Number;
pub use origin::{Lookup, Origin};
pub use places::Places;
pub use relation::Relation;
pub use slot::AbsSlot;
pub use stack::Stack;
pub use state::AbsState;
pub use value::Abs;
