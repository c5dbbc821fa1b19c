//! Narrowing on the edges of conditional jumps, for numbers worked out by hand: for each edge the
//! tightest result, and the case in which it is dropped.

ghost use Rattle.std.specs.Prelude.{◌≡◌, Some, None, true, false};
ghost use Rattle.bpf_insn.specs.declared.operand.Bits.TheVariants.{Bits64, Bits32};
ghost use Rattle.bpf_insn.specs.declared.operand.Condition.TheVariants as jump;
ghost use Rattle.worked_examples.specs.Examples.{span};
ghost use Rattle.abs_value.specs.Numbers.{single, up_to};
ghost use Rattle.abs_value.specs.Narrowing.{narrowed};

/// Below, at most, and their opposites.
pub fn orders()
    ensures below { narrowed Bits64 jump.Lt true (span 3 9) (span 3 4)
        ≡ Some (single 3, single 4) }
    ensures nowhere_below { narrowed Bits64 jump.Lt true (span 3 9) (span 1 3) ≡ None }
    ensures not_below { narrowed Bits64 jump.Lt false (span 0 10) (span 5 7)
        ≡ Some (span 5 10, span 5 7) }
    ensures at_most { narrowed Bits64 jump.Le true (span 3 9) (span 1 3)
        ≡ Some (single 3, single 3) }
    ensures nowhere_at_most { narrowed Bits64 jump.Le true (span 3 9) (span 1 2) ≡ None }
    ensures above { narrowed Bits64 jump.Gt true (span 3 9) (single 8)
        ≡ Some (single 9, single 8) }
    ensures not_above { narrowed Bits64 jump.Gt false (span 3 9) (single 8)
        ≡ Some (span 3 8, single 8) }
    ensures at_least { narrowed Bits64 jump.Ge true (span 3 9) (single 9)
        ≡ Some (single 9, single 9) }
    ensures nowhere_at_least { narrowed Bits64 jump.Ge true (span 3 9) (single 10) ≡ None }
{}

/// Equal and unequal: the common part, and an end that moves in by one.
pub fn equalities()
    ensures common { narrowed Bits64 jump.Eq true (span 0 10) (span 5 20)
        ≡ Some (span 5 10, span 5 10) }
    ensures one_common { narrowed Bits64 jump.Eq true (span 0 5) (span 5 20)
        ≡ Some (single 5, single 5) }
    ensures apart { narrowed Bits64 jump.Eq true (span 0 4) (span 5 9) ≡ None }
    ensures least { narrowed Bits64 jump.Ne true (span 0 10) (single 0)
        ≡ Some (span 1 10, single 0) }
    ensures greatest { narrowed Bits64 jump.Eq false (single 10) (span 0 10)
        ≡ Some (single 10, span 0 9) }
    ensures within { narrowed Bits64 jump.Ne true (span 0 10) (single 5)
        ≡ Some (span 0 10, single 5) }
    ensures ranges { narrowed Bits64 jump.Ne true (span 0 5) (span 0 5)
        ≡ Some (span 0 5, span 0 5) }
{}

/// Two single numbers decide the condition, whatever it is.
pub fn decisions()
    ensures equal { narrowed Bits64 jump.Eq true (single 3) (single 3) ≡ Some (single 3, single 3) }
    ensures not_equal { narrowed Bits64 jump.Eq false (single 3) (single 3) ≡ None }
    ensures common_bit { narrowed Bits64 jump.Set false (single 6) (single 2) ≡ None }
    ensures no_common_bit { narrowed Bits64 jump.Set true (single 4) (single 2) ≡ None }
    ensures signed { narrowed Bits64 jump.Slt false (single 0xFFFFFFFFFFFFFFFF) (single 0) ≡ None }
    ensures low_halves { narrowed Bits32 jump.Ne true (single 0x100000005) (single 5) ≡ None }
    ensures signed32 { narrowed Bits32 jump.Sgt true (single 0x80000000) (single 0) ≡ None }
{}

/// Signed comparisons narrow on one side of the sign bit, and 32-bit comparisons below 2 to the 32.
pub fn sides()
    ensures positive { narrowed Bits64 jump.Slt true (up_to 0x7FFFFFFFFFFFFFFF) (single 5)
        ≡ Some (up_to 4, single 5) }
    ensures crossing { narrowed Bits64 jump.Slt true (up_to 0x8000000000000000) (single 5)
        ≡ Some (up_to 0x8000000000000000, single 5) }
    ensures negative { narrowed Bits64 jump.Sge false
        (span 0x8000000000000000 0xFFFFFFFFFFFFFFFF) (single 0xFFFFFFFFFFFFFFFF)
        ≡ Some (span 0x8000000000000000 0xFFFFFFFFFFFFFFFE, single 0xFFFFFFFFFFFFFFFF) }
    ensures short { narrowed Bits32 jump.Lt true (up_to 0xFFFFFFFF) (single 5)
        ≡ Some (up_to 4, single 5) }
    ensures long { narrowed Bits32 jump.Lt true (up_to 0x100000000) (single 5)
        ≡ Some (up_to 0x100000000, single 5) }
    ensures positive32 { narrowed Bits32 jump.Sle true (up_to 0x7FFFFFFF) (single 5)
        ≡ Some (up_to 5, single 5) }
    ensures crossing32 { narrowed Bits32 jump.Sle true (up_to 0x80000000) (single 5)
        ≡ Some (up_to 0x80000000, single 5) }
{}
