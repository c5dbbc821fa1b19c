//! Known bits worked out by hand: how they and an interval tighten each other, once, and the known
//! bits after operations and JSET.

ghost use Rattle.std.specs.Prelude.{◌≡◌, true, false, Some, None};
ghost use Rattle.bpf_insn.specs.declared.operand.AluOp.TheVariants.{Add, And, Or, Xor, Lsh, Rsh};
ghost use Rattle.bpf_insn.specs.declared.operand.Bits.TheVariants.{Bits64, Bits32};
ghost use Rattle.bpf_insn.specs.declared.operand.Condition.TheVariants.{Eq, Set};
ghost use Rattle.worked_examples.specs.Examples.{with_bits};
ghost use Rattle.abs_value.specs.Intervals.{interval};
ghost use Rattle.abs_value.specs.Known.{known};
ghost use Rattle.abs_value.specs.Numbers.{single, up_to, tidy, is_empty, tidied, join_numbers};
ghost use Rattle.abs_value.specs.Results.{alu_number, copied_number};
ghost use Rattle.abs_value.specs.Narrowing.{narrowed};

/// The ends move in to the bits, and then the bits above those in which the ends differ are known.
/// This is done once, so tidying a tidied number may change it again. Then the join of a number
/// with itself isn't that number.
pub fn tidied_once()
    ensures to_the_bits { tidy (interval 1 255) (known 4 12) ≡ with_bits 4 12 4 12 }
    ensures from_the_ends { tidy (interval 8 9) (known 0 255) ≡ with_bits 8 9 8 9 }
    ensures of_one { tidy (interval 6 6) (known 0 255) ≡ single 6 }
    ensures once { tidy (interval 4 7) (known 1 255) ≡ with_bits 4 7 5 7 }
    ensures again { tidy (interval 4 7) (known 5 7) ≡ with_bits 5 7 5 7 }
    ensures copied { copied_number Bits64 (with_bits 4 7 5 7) ≡ with_bits 5 7 5 7 }
    ensures joined { join_numbers (with_bits 4 7 5 7) (with_bits 4 7 5 7) ≡ with_bits 5 7 5 7 }
    ensures joined_again { join_numbers (with_bits 5 7 5 7) (with_bits 5 7 5 7)
        ≡ with_bits 5 7 5 7 }
{}

/// No number from 4 to 6 has the bits of 3. This is found only by tidying again. Then a result or a
/// join stays as it was computed, and only an edge is dropped.
pub fn found_empty()
    ensures not_at_once { tidied (interval 4 6) (known 3 255) ≡ with_bits 4 6 7 7 }
    ensures again { is_empty (tidy (interval 4 6) (known 7 7)) ≡ true }
    ensures copied { copied_number Bits64 (with_bits 4 6 7 7) ≡ with_bits 4 6 7 7 }
    ensures result { alu_number Bits64 Or (with_bits 4 6 7 7) (single 8) ≡ single 15 }
    ensures joined { join_numbers (with_bits 4 6 7 7) (with_bits 4 6 7 7) ≡ with_bits 4 6 7 7 }
    ensures dropped { narrowed Bits64 Eq false (with_bits 4 6 7 7) (up_to 255) ≡ None }
{}

/// AND, OR and XOR know each bit separately, and shifts the bits that remain; sums know none. A
/// join knows the bits that both sides know to be the same.
pub fn bit_by_bit()
    ensures and { alu_number Bits64 And (with_bits 0 5 0 5) (single 6) ≡ with_bits 0 4 0 4 }
    ensures or { alu_number Bits64 Or (with_bits 0 4 0 4) (single 1) ≡ with_bits 1 5 1 5 }
    ensures or_of_two { alu_number Bits64 Or (with_bits 0 4 0 4) (with_bits 0 2 0 2)
        ≡ with_bits 0 6 0 6 }
    ensures xor { alu_number Bits64 Xor (with_bits 0 4 0 4) (single 5) ≡ with_bits 1 5 1 5 }
    ensures lsh { alu_number Bits64 Lsh (with_bits 1 5 1 5) (single 62)
        ≡ with_bits 0x4000000000000000 0x4000000000000000 0x4000000000000000 0x4000000000000000 }
    ensures rsh32 { alu_number Bits32 Rsh (with_bits 0 0x500000028 0 0x500000028) (single 3)
        ≡ with_bits 0 5 0 5 }
    ensures sum { alu_number Bits64 Add (with_bits 0 4 0 4) (single 4) ≡ with_bits 4 8 0 15 }
    ensures joined { join_numbers (with_bits 0 4 0 4) (with_bits 1 3 1 3) ≡ with_bits 0 4 0 7 }
{}

/// On the fall-through edge of JSET, no bit of a single number is set. On the edge that jumps at
/// least one is, and it is known if there is only one.
pub fn bits_in_common()
    ensures goes_on { narrowed Bits64 Set false (up_to 3) (single 2) ≡ Some (up_to 1, single 2) }
    ensures jumps { narrowed Bits64 Set true (up_to 3) (single 2)
        ≡ Some (with_bits 2 3 2 3, single 2) }
    ensures jumps_by_two { narrowed Bits64 Set true (up_to 3) (single 3)
        ≡ Some (up_to 3, single 3) }
    ensures none_there { narrowed Bits64 Set true (up_to 3) (single 4) ≡ None }
    ensures one_there { narrowed Bits64 Set false (with_bits 2 3 2 3) (single 6) ≡ None }
    ensures by_a_range { narrowed Bits64 Set false (up_to 3) (up_to 1)
        ≡ Some (up_to 3, up_to 1) }
    ensures long { narrowed Bits32 Set false (up_to 0x100000000) (single 2)
        ≡ Some (up_to 0x100000000, single 2) }
    ensures equal { narrowed Bits64 Eq true (with_bits 0 6 0 6) (with_bits 0 5 0 5)
        ≡ Some (with_bits 0 4 0 4, with_bits 0 4 0 4) }
    ensures apart { narrowed Bits64 Eq true (with_bits 0 6 0 6) (with_bits 1 255 1 255) ≡ None }
{}
