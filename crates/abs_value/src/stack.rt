//! The abstract stack, slot by slot: which bytes are set, what a load reads and what a store
//! leaves. Operations change it in place. Programs use the stack from its end down, and most use
//! little of it. So the type keeps the lowest slot that may have been written; joins and copies
//! stop there.

ghost use Rattle.std.specs.Prelude.{◌≡◌, ◌≤◌, ◌<◌, ◌+◌, ◌-◌, ◌^◌, ◌%◌, ℤ, pos, negsuc, ◌≤ℤ◌};
ghost use Rattle.std.specs.Prelude.{map, replicate};
ghost use Rattle.bpf_semantics.specs.Memory.{stack_size};
ghost use Rattle.bpf_semantics.specs.Reads as counts;
ghost use Rattle.abs_value.specs.Lookups.{slot_with_answer};
ghost use Rattle.abs_value.specs.Stack as slots;
ghost use Rattle.abs_value.specs.declared.slot.AbsSlot.TheVariants.{Bytes};

use crate::slot::AbsSlot;
use crate::value::Abs;
use bpf_insn::{LoadKind, Size};
use bpf_semantics::{STACK_SIZE, byte_count};
use std::marker::Model;

/// The 64 slots of the stack, from its start up.
#[derive(Drop)]
pub struct Stack {
    slots: [AbsSlot; 64],
    /// No byte of the slots below this one is set.
    lowest: usize,
}

impl Model for Stack {
    ghost use Rattle.std.specs.Prelude.{List};
    ghost use Rattle.abs_value.specs.declared.slot.AbsSlot.{AbsSlot};

    ghost Value = { List AbsSlot };

    ghost use Rattle.abs_value.specs.Stack.{AreUnsetBelow};

    ghost view = { λ s. s.slots };

    ghost invariant = { λ s. AreUnsetBelow s.lowest s.slots };
}

impl Stack {
    /// The stack with no byte set.
    pub(crate) fn empty() -> Stack
        ensures { result ≡ replicate 64 (Bytes 0) }
    {
        Stack {
            slots: [AbsSlot::Bytes(0); 64],
            lowest: 64,
        }
    }

    pub(crate) fn copy(&self) -> Stack
        ensures { result ≡ self.now }
    {
        Stack {
            slots: self.slots,
            lowest: self.lowest,
        }
    }

    /// Makes it equal to `other`.
    pub(crate) fn copy_from(&mut self, other: &Stack)
        ensures { self.new ≡ other.now }
    {
        let from = self.lowest.min(other.lowest);
        copy_from(&mut self.slots, from, &other.slots);
        self.lowest = other.lowest;
    }

    /// Whether any of `count` bytes from `place` is in the stack and unset; the range may leave the
    /// stack.
    pub(crate) fn has_unset(&self, place: i64, count: u16) -> bool
        requires from { negsuc (2 ^ 32) ≤ℤ place }
        requires to { place ≤ℤ pos (2 ^ 32) }
        ensures { result ≡ slots.has_unset self.now place count }
    {
        has_unset(&self.slots, place, count)
    }

    /// The value that a load from `place` gives.
    #[inline]
    pub(crate) fn load(&self, place: u16, kind: LoadKind) -> Abs
        requires { place < stack_size }
        ensures { result ≡ slots.loaded_from self.now place kind }
    {
        load(&self.slots, place, kind)
    }

    /// Stores the low bytes of a value, as many as `size` says, to `place`.
    pub(crate) fn store(&mut self, place: u16, size: Size, value: Abs)
        requires { place + counts.byte_count size ≤ stack_size }
        ensures { self.new ≡ slots.stored self.old place (counts.byte_count size) value }
    {
        store(&mut self.slots, place, size, value);
        self.lowest = self.lowest.min((place / 8) as usize);
    }

    /// Makes each copy of the result of the CALL at slot `call` known: the address of a cell, or 0.
    pub(crate) fn narrow_lookup(&mut self, call: u16, found: bool)
        ensures { self.new ≡ map (slot_with_answer call found) self.old }
    {
        answer_from(&mut self.slots, self.lowest, call, found);
    }

    /// Joins another stack into this one, slot by slot.
    pub(crate) fn join_in(&mut self, other: &Stack)
        ensures { self.new ≡ slots.join_stacks self.old other.now }
    {
        join_from(&mut self.slots, self.lowest, &other.slots);
        self.lowest = self.lowest.max(other.lowest);
    }
}

/// Copies the slots from `from` up; below it no byte is set on either side.
fn copy_from(stack: &mut [AbsSlot; 64], from: usize, other: &[AbsSlot; 64])
    requires below { slots.AreUnsetBelow from stack.old }
    requires other { slots.AreUnsetBelow from other.now }
    ensures { stack.new ≡ other.now }
{
    stack[from..].copy_from_slice(&other[from..]);
}

/// Makes a lookup's result known in the slots from `from` up; below it no byte is set.
fn answer_from(stack: &mut [AbsSlot; 64], from: usize, call: u16, found: bool)
    requires { slots.AreUnsetBelow from stack.old }
    ensures { stack.new ≡ map (slot_with_answer call found) stack.old }
{
    for i in from..64 {
        stack[i] = stack[i].with_answer(call, found);
    }
}

/// Joins other slots in, from slot `from` up; below it no byte is set.
fn join_from(stack: &mut [AbsSlot; 64], from: usize, other: &[AbsSlot; 64])
    requires { slots.AreUnsetBelow from stack.old }
    ensures { stack.new ≡ slots.join_stacks stack.old other.now }
{
    for i in from..64 {
        if !stack[i].stays(&other[i]) {
            stack[i] = stack[i].join(other[i]);
        }
    }
}

fn is_set(stack: &[AbsSlot; 64], place: u16) -> bool
    requires { place < stack_size }
    ensures { result ≡ slots.is_set stack.now place }
{
    stack[(place / 8) as usize].has_set(place % 8)
}

/// Whether a byte is in the stack and isn't set.
fn is_unset(stack: &[AbsSlot; 64], place: i64) -> bool
    ensures { result ≡ slots.is_unset stack.now place }
{
    place >= 0 && place < STACK_SIZE as i64 && !is_set(stack, place as u16)
}

/// Whether any of `count` bytes from `place` is in the stack and unset.
fn has_unset(stack: &[AbsSlot; 64], place: i64, count: u16) -> bool
    requires from { negsuc (2 ^ 32) ≤ℤ place }
    requires to { place ≤ℤ pos (2 ^ 32) }
    ensures { result ≡ slots.has_unset stack.now place count }
{
    let mut found = false;
    for i in 0..count {
        found = found || is_unset(stack, place + i as i64);
    }
    found
}

fn load(stack: &[AbsSlot; 64], place: u16, kind: LoadKind) -> Abs
    requires { place < stack_size }
    ensures { result ≡ slots.loaded_from stack.now place kind }
{
    let unknown = Abs::loaded(kind);
    if kind == LoadKind::Double && place % 8 == 0 {
        stack[(place / 8) as usize].kept_or(unknown)
    } else {
        unknown
    }
}

/// Adds the bytes that are written to the set bytes of a slot.
fn set_bytes(stack: &mut [AbsSlot; 64], slot: usize, mask: u8)
    requires { slot < 64 }
    ensures { stack.new ≡ slots.with_set stack.old slot mask }
{
    stack[slot] = stack[slot].with_set(mask);
}

/// The mask of `count` bytes from `place`: the low byte for the slot of `place`, the high byte for
/// the next.
fn bits_of(place: u16, count: u16) -> u16
    requires { count ≤ 8 }
    ensures bits { result ≡ slots.bits_of place count }
{
    ((1 << count) - 1) << (place % 8)
}

/// Stores `size` low bytes of a value to `place`. A whole slot keeps the value; for any other slot
/// that is touched, only the set bytes are known.
fn store(stack: &mut [AbsSlot; 64], place: u16, size: Size, value: Abs)
    requires { place + counts.byte_count size ≤ stack_size }
    ensures { stack.new ≡ slots.stored stack.old place (counts.byte_count size) value }
{
    let count = byte_count(size);
    let slot = (place / 8) as usize;
    if count == 8 && place % 8 == 0 {
        stack[slot] = AbsSlot::Kept(value);
        return;
    }
    let bits = bits_of(place, count);
    set_bytes(stack, slot, (bits % 256) as u8);
    if place % 8 + count > 8 {
        set_bytes(stack, slot + 1, (bits / 256) as u8);
    }
}
