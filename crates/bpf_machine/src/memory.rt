//! The memory of a run: reads of the context and the stack, and writes to the stack. An access of
//! 1, 2, 4 or 8 bytes is one load or store of that width.

ghost use Rattle.std.specs.Prelude.{◌≡◌, ◌+◌, ◌≤◌, ◌<◌, ◌-◌, length, take, drop, IsTrue};
ghost use Rattle.std.specs.List.{splice};
ghost use Rattle.bpf_insn.specs.Words.{low_bytes};
ghost use Rattle.bpf_semantics.specs.Memory.{stack_start, is_in_stack};
ghost use Rattle.bpf_semantics.specs.Reads.{byte_count, load_count, filled};
ghost use Rattle.bpf_machine.specs.Words.{number_in, number_at, IsReadable};

use crate::words::Words;
use bpf_insn::{Extension, LoadKind, Size, low_byte, low_half, low_word};
use bpf_semantics::{CONTEXT_START, STACK_START};

#[inline]
fn read_half(bytes: &[u8], place: usize) -> u16
    requires { place + 2 ≤ length bytes.now }
    ensures { result ≡ number_in bytes.now place 2 }
{
    u16::from_le_bytes([bytes[place], bytes[place + 1]])
}

#[inline]
fn read_word(bytes: &[u8], place: usize) -> u32
    requires { place + 4 ≤ length bytes.now }
    ensures { result ≡ number_in bytes.now place 4 }
{
    u32::from_le_bytes([
        bytes[place],
        bytes[place + 1],
        bytes[place + 2],
        bytes[place + 3],
    ])
}

#[inline]
fn read_double(bytes: &[u8], place: usize) -> u64
    requires { place + 8 ≤ length bytes.now }
    ensures { result ≡ number_in bytes.now place 8 }
{
    u64::from_le_bytes([
        bytes[place],
        bytes[place + 1],
        bytes[place + 2],
        bytes[place + 3],
        bytes[place + 4],
        bytes[place + 5],
        bytes[place + 6],
        bytes[place + 7],
    ])
}

/// The value of a load at an offset in a region.
#[inline]
fn read(bytes: &[u8], place: usize, kind: LoadKind) -> u64
    requires { place + load_count kind ≤ length bytes.now }
    ensures { result ≡ filled kind (number_in bytes.now place (load_count kind)) }
{
    match kind {
        LoadKind::Byte => bytes[place] as u64,
        LoadKind::Half => read_half(bytes, place) as u64,
        LoadKind::Word => read_word(bytes, place) as u64,
        LoadKind::Double => read_double(bytes, place),
        LoadKind::SignedByte => Extension::Byte64.extend(bytes[place] as u64),
        LoadKind::SignedHalf => Extension::Half64.extend(read_half(bytes, place) as u64),
        LoadKind::SignedWord => Extension::Word64.extend(read_word(bytes, place) as u64),
    }
}

/// The value of a load at an address. The stack is above the context.
#[inline]
pub fn load(words: &Words, kind: LoadKind, address: u64) -> u64
    requires { IsReadable address (load_count kind) }
    ensures { result ≡ filled kind (number_at words.now address (load_count kind)) }
{
    if address < STACK_START {
        read(&words.context, (address - CONTEXT_START) as usize, kind)
    } else {
        read(&words.stack, (address - STACK_START) as usize, kind)
    }
}

/// The offset in the stack of an address in it.
#[inline]
pub fn stack_place(address: u64, size: Size) -> usize
    requires { IsTrue (is_in_stack address (byte_count size)) }
    ensures place { result ≡ address - stack_start }
    ensures in_range { result + byte_count size ≤ 512 }
{
    (address - STACK_START) as usize
}

/// `count` bytes of the stack from `address`; if `count` is 0, any address is allowed.
#[inline]
pub fn stack_bytes(words: &Words, address: u64, count: u64) -> &[u8]
    requires few { count ≤ 64 }
    requires inside { 0 < count → IsTrue (is_in_stack address count) }
    ensures { result.now ≡ take count (drop (address - stack_start) words.now.stack) }
{
    if count == 0 {
        return &words.stack[..0];
    }
    let place = (address - STACK_START) as usize;
    &words.stack[place..place + count as usize]
}

/// Writes the low bytes of a number at an offset, lowest byte first.
#[inline]
pub fn write(stack: &mut [u8; 512], place: usize, size: Size, value: u64)
    requires { place + byte_count size ≤ 512 }
    ensures { let n = byte_count size in
        stack.new ≡ splice stack.old place (place + n) (low_bytes n value) }
{
    match size {
        Size::Byte => stack[place..place + 1].copy_from_slice(&low_byte(value).to_le_bytes()),
        Size::Half => stack[place..place + 2].copy_from_slice(&low_half(value).to_le_bytes()),
        Size::Word => stack[place..place + 4].copy_from_slice(&low_word(value).to_le_bytes()),
        Size::Double => stack[place..place + 8].copy_from_slice(&value.to_le_bytes()),
    }
}
