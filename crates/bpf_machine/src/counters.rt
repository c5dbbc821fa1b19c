//! Counters by their addresses, and atomic operations on them (RFC 9669, "Atomic Operations").

ghost use Rattle.std.specs.Prelude.{◌≡◌, ◌<◌, IsTrue};
ghost use Rattle.attrs.specs.Attributes.{Attributes};
ghost use Rattle.cells.specs.Arrays.{AppShape};
ghost use Rattle.bpf_semantics.specs.Memory as memory;
ghost use Rattle.bpf_semantics.specs.Memory.{is_cell_address};
ghost use Rattle.bpf_semantics.specs.Counters.{cut, atomic_count};
ghost use Rattle.bpf_semantics.specs.Reads.{byte_count};
ghost use Rattle.bpf_machine.specs.Next.{CanAct, LeadsTo};

use crate::next::Next;
use crate::words::Words;
use bpf_insn::{AtomicOp, AtomicSize, Insn, Reg, Size, low_byte, low_half, low_word};
use bpf_semantics::{CELL_START, add_offset, cell_op, fetched};

/// The counter at an address.
#[inline]
pub fn cell_number(address: u64) -> u16
    requires { IsTrue (is_cell_address address) }
    ensures number { result ≡ memory.cell_number address }
    ensures in_range { result < 8192 }
{
    ((address - CELL_START) / 8) as u16
}

/// The low bytes of a number, as many as `size` says.
#[inline]
pub fn low_number(size: Size, value: u64) -> u64
    ensures { result ≡ cut (byte_count size) value }
{
    match size {
        Size::Byte => low_byte(value) as u64,
        Size::Half => low_half(value) as u64,
        Size::Word => low_word(value) as u64,
        Size::Double => value,
    }
}

/// An operand of an atomic operation, truncated to its size.
#[inline]
fn narrow(size: AtomicSize, value: u64) -> u64
    ensures { result ≡ cut (atomic_count size) value }
{
    match size {
        AtomicSize::Word => low_word(value) as u64,
        AtomicSize::Double => value,
    }
}

#[inline]
pub fn operate_on_counter(
    words: &Words,
    op: AtomicOp,
    size: AtomicSize,
    dst: Reg,
    src: Reg,
    offset: i16,
) -> Next
    requires { CanAct words.now (Insn.Atomic op size dst src offset) }
    ensures { let insn = Insn.Atomic op size dst src offset in
        (shape : AppShape) (a : Attributes) → LeadsTo shape a words.now insn result }
{
    let address = add_offset(words.register(dst), offset);
    let expected = narrow(size, words.registers[0]);
    let value = narrow(size, words.register(src));
    Next::Ask {
        cell: cell_number(address),
        op: cell_op(op, expected, value),
        dst: fetched(op, src),
    }
}
