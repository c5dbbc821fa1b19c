//! Loads and stores (RFC 9669, "Load and Store Instructions"): the next state for each form. The
//! context and the stack are below the addresses of the counters; from there on there are only
//! counters.

ghost use Rattle.std.specs.Prelude.{◌≡◌, IsSome, Some};
ghost use Rattle.attrs.specs.Attributes.{Attributes};
ghost use Rattle.cells.specs.Arrays.{AppShape};
ghost use Rattle.bpf_semantics.specs.Calls.{wide_value};
ghost use Rattle.bpf_semantics.specs.Reads.{byte_count};
ghost use Rattle.bpf_machine.specs.Next.{CanAct, LeadsTo, IsStorable, stored};

use crate::counters::{cell_number, low_number};
use crate::memory::{load, stack_place};
use crate::next::{Change, Next};
use crate::words::Words;
use bpf_insn::{Bits, Insn, LoadKind, Reg, Size, WideValue};
use bpf_semantics::{CELL_START, MAP_START, add_long_offset, add_offset, cell_address};
use cells::{CellOp, Shape};

#[inline]
pub fn load_register(words: &Words, kind: LoadKind, dst: Reg, src: Reg, offset: i16) -> Next
    requires { CanAct words.now (Insn.Load kind dst src offset) }
    ensures { let insn = Insn.Load kind dst src offset in
        (shape : AppShape) (a : Attributes) → LeadsTo shape a words.now insn result }
{
    let address = add_offset(words.register(src), offset);
    if address < CELL_START {
        Next::write(dst, load(words, kind, address))
    } else {
        Next::Ask {
            cell: cell_number(address),
            op: CellOp::Load,
            dst: Some(dst),
        }
    }
}

/// A store at an address.
#[inline]
fn store(address: u64, size: Size, value: u64) -> Next
    requires { IsStorable address (byte_count size) }
    ensures { result ≡ stored address size value }
{
    if address < CELL_START {
        Next::On {
            change: Change::Store {
                size,
                place: stack_place(address, size),
                value,
            },
        }
    } else {
        Next::Ask {
            cell: cell_number(address),
            op: CellOp::Store(low_number(size, value)),
            dst: None,
        }
    }
}

#[inline]
pub fn store_number(words: &Words, size: Size, dst: Reg, offset: i16, imm: i32) -> Next
    requires { CanAct words.now (Insn.StoreImm size dst offset imm) }
    ensures { let insn = Insn.StoreImm size dst offset imm in
        (shape : AppShape) (a : Attributes) → LeadsTo shape a words.now insn result }
{
    let address = add_offset(words.register(dst), offset);
    store(address, size, Bits::Bits64.immediate(imm))
}

#[inline]
pub fn store_register(words: &Words, size: Size, dst: Reg, src: Reg, offset: i16) -> Next
    requires { CanAct words.now (Insn.Store size dst src offset) }
    ensures { let insn = Insn.Store size dst src offset in
        (shape : AppShape) (a : Attributes) → LeadsTo shape a words.now insn result }
{
    let address = add_offset(words.register(dst), offset);
    store(address, size, words.register(src))
}

/// The value of a wide load.
#[inline]
pub fn wide_number(shape: &Shape, value: WideValue) -> u64
    requires { IsSome (wide_value shape.now value) }
    ensures { wide_value shape.now value ≡ Some result }
{
    match value {
        WideValue::Number(number) => number,
        WideValue::Map(map) => MAP_START + map as u64,
        WideValue::Cell { array, offset } => {
            let array = &shape.arrays()[array as usize];
            add_long_offset(cell_address(array.base as u64), offset)
        }
    }
}
