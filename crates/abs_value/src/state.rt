//! The abstract state before an instruction: a value for each of the eleven registers, and the 64
//! slots of the stack. It is changed and joined in place, value by value: copying it costs more
//! than all that is computed at a slot.

ghost use Rattle.std.specs.Prelude.{◌≡◌, ◌+◌, ◌^◌, ◌≤◌, ◌<◌, pos, negsuc, ◌≤ℤ◌};
ghost use Rattle.bpf_semantics.specs.Memory.{stack_size};
ghost use Rattle.bpf_semantics.specs.Reads.{byte_count};
ghost use Rattle.abs_value.specs.Lookups.{called};
ghost use Rattle.abs_value.specs.Stack.{has_unset, loaded_from};
ghost use Rattle.abs_value.specs.States as states;

use crate::number::Number;
use crate::places::Places;
use crate::stack::Stack;
use crate::value::Abs;
use bpf_insn::{Bits, LoadKind, Operand, Reg, Size};
use bpf_semantics::STACK_SIZE;

/// A value for each register, by its number, and the 64 slots of the stack, from the lowest
/// address.
#[derive(Drop)]
pub struct AbsState {
    pub registers: [Abs; 11],
    pub stack: Stack,
}

impl AbsState {
    /// The abstract state at the start of a run.
    pub fn opening() -> AbsState
        ensures { result ≡ states.opening_state }
    {
        let mut registers = [Abs::Unusable; 11];
        registers[1] = Abs::Ctx(Places { lo: 0, hi: 0 });
        registers[10] = Abs::Stk { place: STACK_SIZE };
        AbsState {
            registers,
            stack: Stack::empty(),
        }
    }

    /// A copy of the state.
    pub fn copy(&self) -> AbsState
        ensures { result ≡ self.now }
    {
        AbsState {
            registers: self.registers,
            stack: self.stack.copy(),
        }
    }

    /// Makes it equal to `other`. The time grows with the number of stack slots that either has
    /// written.
    pub fn copy_from(&mut self, other: &AbsState)
        ensures { self.new ≡ other.now }
    {
        self.registers = other.registers;
        self.stack.copy_from(&other.stack);
    }

    /// The value of a register.
    #[inline]
    pub fn value(&self, r: Reg) -> Abs
        ensures { result ≡ states.value_of self.now r }
    {
        self.registers[r.index()]
    }

    /// The value of the second operand of arithmetic, or of a jump.
    #[inline]
    pub fn operand(&self, bits: Bits, src: Operand) -> Abs
        ensures { result ≡ states.operand_value self.now bits src }
    {
        match src {
            Operand::Imm(k) => Abs::Num(Number::single(bits.immediate(k))),
            Operand::Register(r) => self.value(r),
        }
    }

    /// Sets the value of a register.
    #[inline]
    pub fn set(&mut self, r: Reg, value: Abs)
        ensures { self.new ≡ states.with_value self.old r value }
    {
        self.registers[r.index()] = value;
    }

    /// Sets the value of the register that is the operand; does nothing for an imm.
    #[inline]
    pub fn set_operand(&mut self, src: Operand, value: Abs)
        ensures { self.new ≡ states.with_operand self.old src value }
    {
        if let Operand::Register(r) = src {
            self.set(r, value);
        }
    }

    /// Whether any of `count` bytes from `place` is in the stack and unset; the range may leave the
    /// stack.
    pub fn has_unset(&self, place: i64, count: u16) -> bool
        requires from { negsuc (2 ^ 32) ≤ℤ place }
        requires to { place ≤ℤ pos (2 ^ 32) }
        ensures { result ≡ has_unset self.now.stack place count }
    {
        self.stack.has_unset(place, count)
    }

    /// The value that a load from `place` in the stack gives.
    #[inline]
    pub fn load(&self, place: u16, kind: LoadKind) -> Abs
        requires { place < stack_size }
        ensures { result ≡ loaded_from self.now.stack place kind }
    {
        self.stack.load(place, kind)
    }

    /// Stores the low bytes of a value to `place` in the stack, as many as `size` says.
    pub fn store(&mut self, place: u16, size: Size, value: Abs)
        requires { place + byte_count size ≤ stack_size }
        ensures { self.new ≡ states.with_stored self.old place (byte_count size) value }
    {
        self.stack.store(place, size, value);
    }

    /// The state after a CALL at `slot` of the helper of this number: R0 is its result, R1 to R5
    /// are unset.
    pub fn call(&mut self, helper: i32, slot: u16)
        ensures { self.new ≡ called self.old helper slot }
    {
        let result = self.registers[1].called(helper, slot);
        let mut registers = [Abs::Unusable; 6];
        registers[0] = result;
        self.registers[..6].copy_from_slice(&registers);
    }

    /// Joins another state into this one.
    pub fn join_in(&mut self, other: &AbsState)
        ensures { self.new ≡ states.join_states self.old other.now }
    {
        join_registers(&mut self.registers, &other.registers);
        self.stack.join_in(&other.stack);
    }
}

fn join_registers(registers: &mut [Abs; 11], other: &[Abs; 11])
    ensures { registers.new ≡ states.join_registers registers.old other.now }
{
    for r in 0..11 {
        if !registers[r].stays(&other[r]) {
            registers[r] = registers[r].join(other[r]);
        }
    }
}
