//! Loads, stores and atomic operations on counters (RFC 9669, "Load and Store Instructions").

ghost use Rattle.std.specs.Prelude.{◌≡◌, ◌*◌, ◌≤◌};
ghost use Rattle.bpf_semantics.specs.Counters as counters;
ghost use Rattle.bpf_semantics.specs.Memory as memory;
ghost use Rattle.bpf_semantics.specs.Outcome.{moved, needed};
ghost use Rattle.bpf_semantics.specs.State.{written_at};
ghost use Rattle.cells.specs.Events as events;
ghost use Rattle.bpf_semantics.specs.Step as semantics;
ghost use Rattle.reference.specs.Attempts.{HasRoom, Comes, ComesIf, cell_number_in};
ghost use Rattle.reference.specs.Marks.{state_of};

use crate::attempt::{Attempt, operate};
use crate::memory::in_stack;
use crate::state::Interpreter;
use bpf_insn::{AtomicOp, AtomicSize, LoadKind, Reg, Size};
use bpf_semantics::{
    CELL_START, STACK_START, add_offset, atomic_count, byte_count, cell_address, cell_op, fetched,
};
use cells::{CellNo, CellOp};

/// The number of bytes of a counter.
fn width(number: u64) -> u64
    ensures { 8 * result ≡ events.width number }
{
    if number < CellNo::FIRST_NARROW as u64 {
        8
    } else {
        4
    }
}

/// The counter of an access of `count` bytes: at its own address, with its own width.
fn cell_at(address: u64, count: u64) -> Option<CellNo>
    ensures { cell_number_in result ≡ memory.cell_at address count }
{
    let number = address.saturating_sub(CELL_START) / 8;
    if number < CellNo::COUNT as u64 && cell_address(number) == address && count == width(number) {
        Some(CellNo::new(number as u16))
    } else {
        None
    }
}

/// The counter that a load reads; `None` if the load is sign-extending.
fn load_cell(kind: LoadKind, base: Option<u64>, offset: i16) -> Option<CellNo>
    ensures { cell_number_in result ≡ counters.load_cell kind base offset }
{
    match kind {
        LoadKind::Word => cell_at(add_offset(base?, offset), 4),
        LoadKind::Double => cell_at(add_offset(base?, offset), 8),
        _ => None,
    }
}

/// The counter that a store writes.
fn store_cell(size: Size, base: Option<u64>, offset: i16) -> Option<CellNo>
    ensures { cell_number_in result ≡ counters.store_cell size base offset }
{
    cell_at(add_offset(base?, offset), byte_count(size) as u64)
}

/// The low `count` bytes of a number, 1 to 8.
fn cut(count: u64, number: u64) -> u64
    requires { count ≤ 8 }
    ensures { result ≡ counters.cut count number }
{
    if count == 8 {
        number
    } else {
        number % (1 << (8 * count))
    }
}

impl Interpreter {
    /// Reads a counter, otherwise the context or the stack.
    pub(crate) fn load(
        &mut self,
        kind: LoadKind,
        dst: Reg,
        base: Option<u64>,
        offset: i16,
    ) -> Attempt
        requires { HasRoom (state_of self.old) }
        ensures { let s = state_of self.old in
            Comes (semantics.load s kind dst base offset) s result (state_of self.new) }
    {
        match load_cell(kind, base, offset) {
            Some(cell) => operate(cell, CellOp::Load, Some(dst)),
            None => {
                let value = self.loaded(kind, base, offset);
                self.write(1, dst, value)
            }
        }
    }

    /// Writes a counter, otherwise the stack.
    pub(crate) fn store(
        &mut self,
        size: Size,
        base: Option<u64>,
        offset: i16,
        value: Option<u64>,
    ) -> Attempt
        requires { HasRoom (state_of self.old) }
        ensures { let s = state_of self.old in
            Comes (semantics.store s size base offset value) s result (state_of self.new) }
    {
        let (Some(base), Some(value)) = (base, value) else {
            return Attempt::Trap;
        };
        let count = byte_count(size) as u64;
        match store_cell(size, Some(base), offset) {
            Some(cell) => operate(cell, CellOp::Store(cut(count, value)), None),
            None => self.store_bytes(add_offset(base, offset), count, value),
        }
    }

    /// Writes the low bytes of a number to the stack, and continues.
    fn store_bytes(&mut self, address: u64, count: u64, value: u64) -> Attempt
        requires room { HasRoom (state_of self.old) }
        requires count { count ≤ 8 }
        ensures { let s = state_of self.old in
            Comes (moved (written_at s address count value)) s result (state_of self.new) }
    {
        if !in_stack(address, count) {
            return Attempt::Trap;
        }
        let next = self.slot() + 1;
        self.put((address - STACK_START) as usize, count as usize, value);
        self.go(next);
        Attempt::Going
    }

    /// The number in R0 if the operation reads it, otherwise any.
    fn expected(&self, op: AtomicOp) -> Option<u64>
        ensures { result ≡ counters.expected op (state_of self.now) }
    {
        match op {
            AtomicOp::CompareExchange => self.register(Reg::R0),
            _ => Some(0),
        }
    }

    /// The counter and the operation of an atomic instruction; `None` if it is undefined.
    fn atomic_operates(
        &self,
        op: AtomicOp,
        size: AtomicSize,
        dst: Reg,
        src: Reg,
        offset: i16,
    ) -> Option<Attempt>
        ensures { let s = state_of self.now in
            ComesIf (counters.atomic_operates s op size dst src offset) s result }
    {
        let count = atomic_count(size) as u64;
        let cell = cell_at(add_offset(self.register(dst)?, offset), count)?;
        let r0 = self.expected(op)?;
        let value = self.register(src)?;
        let op_on_cell = cell_op(op, cut(count, r0), cut(count, value));
        Some(operate(cell, op_on_cell, fetched(op, src)))
    }

    /// One atomic operation on a counter.
    pub(crate) fn atomic(
        &self,
        op: AtomicOp,
        size: AtomicSize,
        dst: Reg,
        src: Reg,
        offset: i16,
    ) -> Attempt
        ensures { let s = state_of self.now in
            Comes (needed (counters.atomic_operates s op size dst src offset)) s result s }
    {
        match self.atomic_operates(op, size, dst, src, offset) {
            Some(attempt) => attempt,
            None => Attempt::Trap,
        }
    }
}
