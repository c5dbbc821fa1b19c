//! Accesses (RFC 9669, "Load and Store Instructions"): their sizes, and the operations of atomic
//! instructions on counters.

ghost use Rattle.std.specs.Prelude.{◌≡◌, ◌≤◌};
ghost use Rattle.bpf_semantics.specs.Counters as counters;
ghost use Rattle.bpf_semantics.specs.Reads as reads;

use bpf_insn::{AtomicOp, AtomicSize, LoadKind, Reg, Size};
use cells::CellOp;

/// The number of bytes that a load reads.
#[inline]
pub fn load_count(kind: LoadKind) -> u16
    ensures count { result ≡ reads.load_count kind }
    ensures least { 1 ≤ result }
    ensures most { result ≤ 8 }
{
    match kind {
        LoadKind::Byte | LoadKind::SignedByte => 1,
        LoadKind::Half | LoadKind::SignedHalf => 2,
        LoadKind::Word | LoadKind::SignedWord => 4,
        LoadKind::Double => 8,
    }
}

/// The number of bytes that a store writes.
#[inline]
pub fn byte_count(size: Size) -> u16
    ensures count { result ≡ reads.byte_count size }
    ensures least { 1 ≤ result }
    ensures most { result ≤ 8 }
{
    match size {
        Size::Byte => 1,
        Size::Half => 2,
        Size::Word => 4,
        Size::Double => 8,
    }
}

/// The number of bytes of an atomic operation.
#[inline]
pub fn atomic_count(size: AtomicSize) -> u16
    ensures count { result ≡ counters.atomic_count size }
    ensures least { 1 ≤ result }
    ensures most { result ≤ 8 }
{
    match size {
        AtomicSize::Word => 4,
        AtomicSize::Double => 8,
    }
}

/// The operation on a counter; only compare-and-exchange compares, with R0.
#[inline]
pub fn cell_op(op: AtomicOp, r0: u64, value: u64) -> CellOp
    ensures { result ≡ counters.cell_op op r0 value }
{
    match op {
        AtomicOp::Add | AtomicOp::FetchAdd => CellOp::Add(value),
        AtomicOp::Or | AtomicOp::FetchOr => CellOp::Or(value),
        AtomicOp::And | AtomicOp::FetchAnd => CellOp::And(value),
        AtomicOp::Xor | AtomicOp::FetchXor => CellOp::Xor(value),
        AtomicOp::Exchange => CellOp::Swap(value),
        AtomicOp::CompareExchange => CellOp::CompareExchange(r0, value),
    }
}

/// The register that gets the old value, if any: src for fetch and exchange, R0 for
/// compare-and-exchange.
#[inline]
pub fn fetched(op: AtomicOp, src: Reg) -> Option<Reg>
    ensures { result ≡ counters.fetched op src }
{
    match op {
        AtomicOp::Add | AtomicOp::Or | AtomicOp::And | AtomicOp::Xor => None,
        AtomicOp::CompareExchange => Some(Reg::R0),
        _ => Some(src),
    }
}
