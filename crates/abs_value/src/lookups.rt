//! What a conditional jump implies for the two values that it compares, and for lookups. After a
//! comparison of a lookup's result with 0, each copy of it, in a register or in the stack, is 0 or
//! the address of a cell.

ghost use Rattle.std.specs.Prelude.{◌≡◌, map};
ghost use Rattle.abs_value.specs.Lookups as lookups;
ghost use Rattle.abs_value.specs.Lookups.{IsEdge, after_comparison, refined_state};

use crate::state::AbsState;
use crate::value::Abs;
use bpf_insn::{Bits, Condition, Operand, Reg};

/// Whether the condition is 64-bit JEQ or JNE with imm 0.
pub fn compares_with_zero(bits: Bits, condition: Condition, right: Operand) -> bool
    ensures { result ≡ lookups.compares_with_zero bits condition right }
{
    match (bits, condition, right) {
        (Bits::Bits64, Condition::Eq | Condition::Ne, Operand::Imm(imm)) => imm == 0,
        _ => false,
    }
}

/// Whether the operand that is compared with 0 is nonzero on this edge.
fn is_found(condition: Condition, jumps: bool) -> bool
    ensures { result ≡ lookups.is_found condition jumps }
{
    if condition == Condition::Eq {
        !jumps
    } else {
        jumps
    }
}

fn is_register(operand: Operand, register: Reg) -> bool
    ensures { result ≡ lookups.is_register operand register }
{
    match operand {
        Operand::Imm(_) => false,
        Operand::Register(r) => r.index() == register.index(),
    }
}

fn answer_in_registers(registers: &mut [Abs; 11], call: u16, found: bool)
    ensures { registers.new ≡ map (lookups.with_answer call found) registers.old }
{
    for r in 0..11 {
        registers[r] = registers[r].with_answer(call, found);
    }
}

impl AbsState {
    /// Makes each copy of the result of the CALL at slot `call` known: the address of a cell, or 0.
    pub(crate) fn narrow_lookup(&mut self, call: u16, found: bool)
        ensures { self.new ≡ lookups.state_with_answer self.old call found }
    {
        answer_in_registers(&mut self.registers, call, found);
        self.stack.narrow_lookup(call, found);
    }

    /// Narrows a pointer that is compared with 0. The address of a cell isn't 0.
    fn refine_pointer(&mut self, value: Abs, found: bool) -> bool
        ensures { IsEdge result (lookups.after_null_check self.old value found) self.old self.new }
    {
        match value {
            Abs::MayCell(lookup) => {
                self.narrow_lookup(lookup.slot, found);
                true
            }
            Abs::Cell(_) => found,
            _ => true,
        }
    }

    fn refine_values(
        &mut self,
        bits: Bits,
        condition: Condition,
        left: Reg,
        right: Operand,
        jumps: bool,
    ) -> bool
        ensures { IsEdge result (after_comparison self.old bits condition left right jumps)
            self.old self.new }
    {
        let other = self.operand(bits, right);
        match self.value(left).refined(bits, condition, jumps, other) {
            Some((first, second)) => {
                self.set(left, first);
                self.set_operand(right, second);
                true
            }
            None => false,
        }
    }

    /// Narrows the state by what an edge of a conditional jump implies: the edge that jumps, or the
    /// fall-through edge. Returns `false` if no run takes it, and then changes nothing. A
    /// comparison of a register with itself narrows nothing.
    pub fn refine(
        &mut self,
        bits: Bits,
        condition: Condition,
        left: Reg,
        right: Operand,
        jumps: bool,
    ) -> bool
        ensures { IsEdge result (refined_state self.old bits condition left right jumps)
            self.old self.new }
    {
        if is_register(right, left) {
            return true;
        }
        let value = self.value(left);
        if compares_with_zero(bits, condition, right) && value.is_pointer() {
            self.refine_pointer(value, is_found(condition, jumps))
        } else {
            self.refine_values(bits, condition, left, right, jumps)
        }
    }
}
