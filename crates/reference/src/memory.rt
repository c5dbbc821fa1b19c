//! Addresses, and the numbers that are read at them.

ghost use Rattle.std.specs.Prelude.{◌≡◌, ◌*◌, ◌+◌, ◌-◌, ◌<◌, ◌≤◌, ◌^◌, length};
ghost use Rattle.bpf_insn.specs.Words as words;
ghost use Rattle.bpf_semantics.specs.Calls as calls;
ghost use Rattle.bpf_semantics.specs.Memory.{is_in_context, is_in_stack};
ghost use Rattle.bpf_semantics.specs.Reads as reads;
ghost use Rattle.bpf_semantics.specs.State.{read_at};
ghost use Rattle.reference.specs.Marks.{state_of};

use crate::state::Interpreter;
use attrs::helper_attr_is;
use bpf_insn::{Extension, LoadKind};
use bpf_semantics::{CONTEXT_SIZE, CONTEXT_START, STACK_START, STACK_TOP, add_offset, load_count};

/// Whether `count` bytes from `address` are in the context.
fn in_context(address: u64, count: u64) -> bool
    requires { count ≤ 64 }
    ensures { result ≡ is_in_context address count }
{
    CONTEXT_START <= address && address <= CONTEXT_START + CONTEXT_SIZE as u64 - count
}

/// Whether `count` bytes from `address` are in the stack.
pub fn in_stack(address: u64, count: u64) -> bool
    requires { count ≤ 512 }
    ensures { result ≡ is_in_stack address count }
{
    STACK_START <= address && address <= STACK_TOP - count
}

/// The number that a load puts into its register: zero-extended or sign-extended.
fn fill(kind: LoadKind, number: u64) -> u64
    ensures { result ≡ reads.filled kind number }
{
    match kind {
        LoadKind::SignedByte => Extension::Byte64.extend(number),
        LoadKind::SignedHalf => Extension::Half64.extend(number),
        LoadKind::SignedWord => Extension::Word64.extend(number),
        _ => number,
    }
}

/// The number with these bytes, lowest first.
fn little_endian(bytes: &[u8]) -> u64
    requires { length bytes.now ≤ 8 }
    ensures value { result ≡ words.little_endian bytes.now }
    ensures in_range { result < 256 ^ length bytes.now }
{
    match bytes {
        [first, rest @ ..] => *first as u64 + 256 * little_endian(rest),
        [] => 0,
    }
}

impl Interpreter {
    /// The number of the bytes at an address; `None` outside the context and the stack, or if a
    /// byte is unset.
    pub fn number_at(&self, address: u64, count: u64) -> Option<u64>
        requires { count ≤ 8 }
        ensures { result ≡ read_at (state_of self.now) address count }
    {
        if in_context(address, count) {
            let bytes = self.attrs().context().bytes();
            let place = (address - CONTEXT_START) as usize;
            return Some(little_endian(&bytes[place..place + count as usize]));
        }
        if !in_stack(address, count) {
            return None;
        }
        let mut bytes = [0; 8];
        let into = &mut bytes[..count as usize];
        if self.read((address - STACK_START) as usize, into) {
            Some(little_endian(into))
        } else {
            None
        }
    }

    /// The number that a load reads from the context or the stack.
    pub(crate) fn loaded(&self, kind: LoadKind, base: Option<u64>, offset: i16) -> Option<u64>
        ensures { result ≡ reads.loaded (state_of self.now) kind base offset }
    {
        let address = add_offset(base?, offset);
        let number = self.number_at(address, load_count(kind) as u64)?;
        Some(fill(kind, number))
    }

    /// `attr_is`: whether an attribute's bytes are the `count` bytes at an address of the stack, at
    /// most 64. If `count` is 0, any address is allowed.
    pub(crate) fn compared(&self, number: u64, address: u64, count: u64) -> Option<u64>
        ensures { result ≡ calls.compared (state_of self.now) number address count }
    {
        if count > 64 {
            return None;
        }
        if count == 0 {
            return Some(helper_attr_is(self.attrs(), number, &[]));
        }
        if !in_stack(address, count) {
            return None;
        }
        let mut bytes = [0; 64];
        let into = &mut bytes[..count as usize];
        if self.read((address - STACK_START) as usize, into) {
            Some(helper_attr_is(self.attrs(), number, into))
        } else {
            None
        }
    }
}
