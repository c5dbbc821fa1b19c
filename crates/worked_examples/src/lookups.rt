//! Comparisons with 0 and calls, on states worked out by hand: a value in R0, and one in R6 and in
//! the last slot of the stack.

ghost use Rattle.std.specs.Prelude.{◌≡◌, Some, None, true, false, pos, negsuc};
ghost use Rattle.bpf_insn.specs.declared.operand.Bits.TheVariants.{Bits64, Bits32};
ghost use Rattle.bpf_insn.specs.declared.operand.Condition.TheVariants.{Eq, Ne, Gt};
ghost use Rattle.bpf_insn.specs.declared.operand.Operand.TheVariants.{Imm, Register};
ghost use Rattle.bpf_insn.specs.declared.reg.Reg.TheVariants as reg;
ghost use Rattle.abs_value.specs.declared.origin.Origin.TheVariants.{Found, Fixed};
ghost use Rattle.abs_value.specs.declared.slot.AbsSlot.TheVariants.{Kept};
ghost use Rattle.abs_value.specs.declared.value.Abs.TheVariants.{Unusable, Num, Stk};
ghost use Rattle.abs_value.specs.declared.value.Abs.TheVariants.{Map, MayCell, Cell};
ghost use Rattle.worked_examples.specs.Examples.{span};
ghost use Rattle.abs_value.specs.Numbers.{single, up_to};
ghost use Rattle.abs_value.specs.Lookups.{call_value, called};
ghost use Rattle.abs_value.specs.States.{value_at};
ghost use Rattle.worked_examples.specs.Examples.{first, second, elsewhere, holding, three};
ghost use Rattle.worked_examples.specs.Examples.{compared};

/// On the equal edge each copy of the lookup's result is 0, on the other the address of a cell.
pub fn null_checks()
    ensures equal { compared (MayCell first) (MayCell first) Bits64 Eq (Imm (pos 0)) true
        ≡ Some (Num (single 0), Num (single 0), Kept (Num (single 0))) }
    ensures not_equal { compared (MayCell first) (MayCell first) Bits64 Eq (Imm (pos 0)) false
        ≡ Some (Cell (Found first), Cell (Found first), Kept (Cell (Found first))) }
    ensures unequal { compared (MayCell first) (MayCell first) Bits64 Ne (Imm (pos 0)) true
        ≡ Some (Cell (Found first), Cell (Found first), Kept (Cell (Found first))) }
    ensures not_unequal { compared (MayCell first) (MayCell first) Bits64 Ne (Imm (pos 0)) false
        ≡ Some (Num (single 0), Num (single 0), Kept (Num (single 0))) }
    ensures other_call { compared (MayCell first) (MayCell second) Bits64 Eq (Imm (pos 0)) true
        ≡ Some (Num (single 0), MayCell second, Kept (MayCell second)) }
    ensures by_the_call { compared (MayCell first) (MayCell elsewhere) Bits64 Ne (Imm (pos 0)) true
        ≡ Some (Cell (Found first), Cell (Found elsewhere), Kept (Cell (Found elsewhere))) }
    ensures cell_copy { compared (MayCell first) (Cell (Found first)) Bits64 Eq (Imm (pos 0)) true
        ≡ Some (Num (single 0), Num (single 0), Kept (Num (single 0))) }
{}

/// The address of a cell isn't 0. Other comparisons don't narrow a pointer.
pub fn other_checks()
    ensures cell { compared (Cell (Found first)) (MayCell second) Bits64 Eq (Imm (pos 0)) true
        ≡ None }
    ensures cell_kept { compared (Cell (Found first)) (MayCell first) Bits64 Eq (Imm (pos 0)) false
        ≡ Some (Cell (Found first), MayCell first, Kept (MayCell first)) }
    ensures fixed { compared (Cell (Fixed 3)) (Stk 0) Bits64 Ne (Imm (pos 0)) false ≡ None }
    ensures fixed_kept { compared (Cell (Fixed 3)) (Stk 0) Bits64 Ne (Imm (pos 0)) true
        ≡ Some (Cell (Fixed 3), Stk 0, Kept (Stk 0)) }
    ensures low_half { compared (MayCell first) (MayCell first) Bits32 Eq (Imm (pos 0)) true
        ≡ Some (MayCell first, MayCell first, Kept (MayCell first)) }
    ensures with_one { compared (MayCell first) (MayCell first) Bits64 Eq (Imm (pos 1)) true
        ≡ Some (MayCell first, MayCell first, Kept (MayCell first)) }
    ensures above { compared (MayCell first) (MayCell first) Bits64 Gt (Imm (pos 0)) true
        ≡ Some (MayCell first, MayCell first, Kept (MayCell first)) }
    ensures with_itself { compared (Num (span 0 9)) (Stk 0) Bits64 Ne (Register reg.R0) true
        ≡ Some (Num (span 0 9), Stk 0, Kept (Stk 0)) }
    ensures narrowed { compared (Num (span 0 9)) (Num (single 4)) Bits64 Gt (Register reg.R6) true
        ≡ Some (Num (span 5 9), Num (single 4), Kept (Num (single 4))) }
    ensures zero { compared (Num (span 0 9)) (Stk 0) Bits64 Ne (Imm (pos 0)) true
        ≡ Some (Num (span 1 9), Stk 0, Kept (Stk 0)) }
{}

/// R0 is the helper's result and R1 to R5 are unset; R6 to R10 and the stack are unchanged.
pub fn call_results()
    ensures lookup { call_value (pos 1) 9 (Map 0) ≡ MayCell second }
    ensures no_map { call_value (pos 1) 9 (Num (single 0)) ≡ Unusable }
    ensures compared_text { call_value (pos 2) 9 (Num (single 0)) ≡ Num (up_to 1) }
    ensures length { call_value (pos 3) 9 (Num (single 0)) ≡ Num (up_to 1024) }
    ensures bucket { call_value (pos 4) 9 (Num (single 0)) ≡ Num (up_to 9999) }
    ensures no_helper { call_value (pos 0) 9 (Map 0) ≡ Unusable }
    ensures fifth { call_value (pos 5) 9 (Num (single 0)) ≡ Unusable }
    ensures negative { call_value (negsuc 0) 9 (Map 0) ≡ Unusable }
    ensures kept { three (called (holding (Num (single 1)) (MayCell first)) (pos 3) 9)
        ≡ (Num (up_to 1024), MayCell first, Kept (MayCell first)) }
    ensures argument { value_at (called (holding (Stk 0) (Stk 0)) (pos 3) 9) 1 ≡ Unusable }
    ensures frame { value_at (called (holding (Stk 0) (Stk 0)) (pos 3) 9) 10 ≡ Stk 512 }
{}
