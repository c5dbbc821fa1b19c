//! The addresses that a run can use, as numbers for code: the regions, the counters, and the
//! numbers that represent maps.

ghost use Rattle.std.specs.Prelude.{◌≡◌, ◌<◌, ◌^◌};
ghost use Rattle.bpf_semantics.specs.Memory as memory;

use cells::CellNo;

/// The address of the first byte of the context.
pub const CONTEXT_START: u64 = 0x1000_0000;
/// The size of the context in bytes.
pub const CONTEXT_SIZE: u16 = 64;

/// The address of the first byte of the stack.
pub const STACK_START: u64 = 0x1FFF_FE00;
/// The address after the last byte of the stack.
pub const STACK_TOP: u64 = 0x2000_0000;
/// The size of the stack in bytes.
pub const STACK_SIZE: u16 = 512;

/// The address of counter 0.
pub const CELL_START: u64 = 0x3000_0000;

/// The number of map 0.
pub const MAP_START: u64 = 0x4000_0000;

/// Law: each constant is the number of its definition.
pub fn region_numbers()
    ensures context { CONTEXT_START ≡ memory.context_start }
    ensures context_size { CONTEXT_SIZE ≡ memory.context_size }
    ensures stack { STACK_START ≡ memory.stack_start }
    ensures top { STACK_TOP ≡ memory.stack_top }
    ensures stack_size { STACK_SIZE ≡ memory.stack_size }
    ensures cells { CELL_START ≡ memory.cell_start }
    ensures cell_count { CellNo.COUNT ≡ memory.cell_count }
    ensures maps { MAP_START ≡ memory.map_start }
{}

/// A base plus an offset, modulo 2^64.
#[inline]
pub fn add_offset(base: u64, offset: i16) -> u64
    ensures { result ≡ memory.address_of base offset }
{
    base.wrapping_add((offset as i64).cast_unsigned())
}

/// A base plus the 32-bit offset of a wide load, modulo 2^64.
#[inline]
pub fn add_long_offset(base: u64, offset: i32) -> u64
    ensures { result ≡ memory.address_of base offset }
{
    base.wrapping_add((offset as i64).cast_unsigned())
}

/// The address of a counter.
// open: its result for numbers from 2^32 on, which no call may pass.
#[inline]
pub fn cell_address(cell: u64) -> u64
    requires { cell < 2 ^ 32 }
    ensures { result ≡ memory.cell_address cell }
{
    CELL_START + 8 * cell
}
