//! The formulas on numbers worked out by hand, on both sides of each of their bounds. Each function
//! is a law about the definitions, which the code equals.

ghost use Rattle.std.specs.Prelude.{◌≡◌};
ghost use Rattle.bpf_insn.specs.declared.operand.AluOp.TheVariants.{Add, Sub, Or, And, Xor};
ghost use Rattle.bpf_insn.specs.declared.operand.AluOp.TheVariants.{Mul, Div, Sdiv, Mod, Smod};
ghost use Rattle.bpf_insn.specs.declared.operand.AluOp.TheVariants.{Lsh, Rsh, Arsh};
ghost use Rattle.bpf_insn.specs.declared.operand.Bits.TheVariants.{Bits64, Bits32};
ghost use Rattle.bpf_insn.specs.declared.operand.ByteOrder.TheVariants.{Little, Big};
ghost use Rattle.bpf_insn.specs.declared.operand.EndSize.TheVariants as end;
ghost use Rattle.bpf_insn.specs.declared.operand.Extension.TheVariants.{Byte64, Half32};
ghost use Rattle.worked_examples.specs.Examples.{span, with_bits};
ghost use Rattle.abs_value.specs.Numbers.{single, up_to};
ghost use Rattle.abs_value.specs.Results.{alu_number, copied_number};
ghost use Rattle.abs_value.specs.Results.{extended_number, reordered_number};

/// ADD adds the ends, and gives the whole class if the greatest sum doesn't fit.
pub fn sums()
    ensures inside { alu_number Bits64 Add (span 1 5) (span 10 20) ≡ span 11 25 }
    ensures fits { alu_number Bits64 Add (span 5 0xFFFFFFFFFFFFFFF5) (span 0 10)
        ≡ span 5 0xFFFFFFFFFFFFFFFF }
    ensures wraps { alu_number Bits64 Add (span 5 0xFFFFFFFFFFFFFFF5) (span 0 11)
        ≡ up_to 0xFFFFFFFFFFFFFFFF }
    ensures fits32 { alu_number Bits32 Add (span 5 0xFFFFFFF5) (span 0 10)
        ≡ span 5 0xFFFFFFFF }
    ensures wraps32 { alu_number Bits32 Add (span 5 0xFFFFFFF5) (span 0 11) ≡ up_to 0xFFFFFFFF }
    ensures low_half { alu_number Bits32 Add (span 3 4) (single 0x100000005) ≡ span 8 9 }
    ensures single_wraps { alu_number Bits64 Add (single 0xFFFFFFFFFFFFFFFF) (single 2) ≡ single 1 }
{}

/// SUB subtracts the ends crosswise if no number of the first is below one of the second.
pub fn differences()
    ensures touching { alu_number Bits64 Sub (span 10 20) (span 3 10) ≡ span 0 17 }
    ensures below { alu_number Bits64 Sub (span 10 20) (span 3 11) ≡ up_to 0xFFFFFFFFFFFFFFFF }
    ensures below32 { alu_number Bits32 Sub (span 10 20) (span 3 11) ≡ up_to 0xFFFFFFFF }
    ensures single_wraps { alu_number Bits64 Sub (single 3) (single 5) ≡ single 0xFFFFFFFFFFFFFFFE }
    ensures negated { alu_number Bits64 Sub (single 0) (span 1 2) ≡ up_to 0xFFFFFFFFFFFFFFFF }
    ensures negated32 { alu_number Bits32 Sub (single 0) (span 1 2) ≡ up_to 0xFFFFFFFF }
    ensures negated_one { alu_number Bits64 Sub (single 0) (single 1) ≡ single 0xFFFFFFFFFFFFFFFF }
{}

/// MUL multiplies the ends, and gives the whole class if the greatest product doesn't fit.
pub fn products()
    ensures inside { alu_number Bits64 Mul (span 2 5) (span 10 20) ≡ span 20 100 }
    ensures fits { alu_number Bits64 Mul (span 1 0xFFFFFFFF) (span 2 0x100000001)
        ≡ span 2 0xFFFFFFFFFFFFFFFF }
    ensures wraps { alu_number Bits64 Mul (span 1 0x100000000) (span 2 0x100000000)
        ≡ up_to 0xFFFFFFFFFFFFFFFF }
    ensures fits32 { alu_number Bits32 Mul (span 1 0xFFFF) (span 2 0x10001) ≡ span 2 0xFFFFFFFF }
    ensures wraps32 { alu_number Bits32 Mul (span 1 0x10000) (span 2 0x10000)
        ≡ up_to 0xFFFFFFFF }
    ensures low_half { alu_number Bits32 Mul (span 3 4) (single 0x100000005) ≡ span 15 20 }
    ensures single_wraps { alu_number Bits64 Mul (single 0x8000000000000000) (single 2)
        ≡ single 0 }
{}

/// DIV divides the ends crosswise if no divisor is 0; otherwise the result is at most the dividend.
pub fn quotients()
    ensures inside { alu_number Bits64 Div (span 10 20) (span 3 5) ≡ span 2 6 }
    ensures by_single { alu_number Bits64 Div (span 100 9999) (single 100) ≡ span 1 99 }
    ensures from_zero { alu_number Bits64 Div (span 10 20) (span 0 5) ≡ up_to 20 }
    ensures by_zero { alu_number Bits64 Div (span 10 20) (single 0) ≡ up_to 20 }
    ensures single_by_zero { alu_number Bits64 Div (single 7) (single 0) ≡ single 0 }
    ensures div32 { alu_number Bits32 Div (span 10 20) (single 0x100000002) ≡ span 5 10 }
    ensures div32_past { alu_number Bits32 Div (span 1 0x100000000) (single 2)
        ≡ up_to 0x7FFFFFFF }
    ensures sdiv { alu_number Bits64 Sdiv (span 10 20) (single 2) ≡ up_to 0xFFFFFFFFFFFFFFFF }
    ensures sdiv32 { alu_number Bits32 Sdiv (span 10 20) (single 2) ≡ up_to 0xFFFFFFFF }
    ensures single_sdiv { alu_number Bits64 Sdiv (single 0xFFFFFFFFFFFFFFF3) (single 3)
        ≡ single 0xFFFFFFFFFFFFFFFC }
{}

/// MOD is below the greatest divisor if none is 0, and never above the dividend.
pub fn remainders()
    ensures by_single { alu_number Bits64 Mod (span 10 9999) (single 4) ≡ up_to 3 }
    ensures by_range { alu_number Bits64 Mod (span 10 9999) (span 1 5) ≡ up_to 4 }
    ensures of_less { alu_number Bits64 Mod (span 1 2) (single 4) ≡ up_to 2 }
    ensures from_zero { alu_number Bits64 Mod (span 10 20) (span 0 5) ≡ up_to 20 }
    ensures by_zero { alu_number Bits64 Mod (span 10 20) (single 0) ≡ up_to 20 }
    ensures single_by_zero { alu_number Bits64 Mod (single 7) (single 0) ≡ single 7 }
    ensures mod32 { alu_number Bits32 Mod (span 1 0x100000000) (single 0x10000000A) ≡ up_to 9 }
    ensures mod32_by_zero { alu_number Bits32 Mod (span 1 0x100000000) (single 0)
        ≡ up_to 0xFFFFFFFF }
    ensures single32_by_zero { alu_number Bits32 Mod (single 0x700000005) (single 0) ≡ single 5 }
    ensures smod { alu_number Bits64 Smod (span 10 20) (single 4) ≡ up_to 0xFFFFFFFFFFFFFFFF }
    ensures smod32 { alu_number Bits32 Smod (span 10 20) (single 4) ≡ up_to 0xFFFFFFFF }
    ensures single_smod { alu_number Bits64 Smod (single 0xFFFFFFFFFFFFFFF3) (single 3)
        ≡ single 0xFFFFFFFFFFFFFFFF }
{}

/// AND is at most the lesser of the greatest numbers. OR and XOR have no bit above those of the
/// greater one, and XOR has no bit that is known to be in both.
pub fn bit_operations()
    ensures and { alu_number Bits64 And (span 5 12) (span 7 200) ≡ up_to 12 }
    ensures and_too { alu_number Bits64 And (span 5 200) (span 7 12) ≡ up_to 12 }
    ensures or_7 { alu_number Bits64 Or (span 0 7) (span 1 3) ≡ up_to 7 }
    ensures or_8 { alu_number Bits64 Or (span 1 3) (span 0 8) ≡ up_to 15 }
    ensures or_high { alu_number Bits64 Or (span 0 0x8000000000000000) (span 0 1)
        ≡ up_to 0xFFFFFFFFFFFFFFFF }
    ensures xor_7 { alu_number Bits64 Xor (span 6 7) (span 6 7) ≡ up_to 1 }
    ensures xor_8 { alu_number Bits64 Xor (span 0 8) (single 0) ≡ up_to 15 }
    ensures xor32 { alu_number Bits32 Xor (span 0 0x80000000) (span 0 1) ≡ up_to 0xFFFFFFFF }
    ensures single_xor { alu_number Bits64 Xor (single 12) (single 10) ≡ single 6 }
{}

/// A single count is masked, and shifts both ends: to the left if the greatest fits, and with the
/// sign if no number has it. The bits that are shifted in are 0. A range of counts may give any
/// number.
pub fn shifts()
    ensures lsh_fits { alu_number Bits64 Lsh (span 1 0xFFFFFFFFFFFFFFF) (single 4)
        ≡ with_bits 16 0xFFFFFFFFFFFFFFF0 0 0xFFFFFFFFFFFFFFF0 }
    ensures lsh_wraps { alu_number Bits64 Lsh (span 1 0x1000000000000000) (single 4)
        ≡ with_bits 0 0xFFFFFFFFFFFFFFF0 0 0xFFFFFFFFFFFFFFF0 }
    ensures lsh_masked { alu_number Bits64 Lsh (span 1 3) (single 66)
        ≡ with_bits 4 12 0 12 }
    ensures lsh_by_range { alu_number Bits64 Lsh (span 1 3) (span 0 1)
        ≡ up_to 0xFFFFFFFFFFFFFFFF }
    ensures lsh32_fits { alu_number Bits32 Lsh (span 1 0xFFFFFFF) (single 4)
        ≡ with_bits 16 0xFFFFFFF0 0 0xFFFFFFF0 }
    ensures lsh32_wraps { alu_number Bits32 Lsh (span 1 0x10000000) (single 4)
        ≡ with_bits 0 0xFFFFFFF0 0 0xFFFFFFF0 }
    ensures lsh32_masked { alu_number Bits32 Lsh (span 1 3) (single 34)
        ≡ with_bits 4 12 0 12 }
    ensures rsh { alu_number Bits64 Rsh (span 7 17) (single 2) ≡ span 1 4 }
    ensures rsh32 { alu_number Bits32 Rsh (span 0 0x10000000000) (single 36) ≡ up_to 0xFFFFFFF }
    ensures rsh_by_range { alu_number Bits64 Rsh (span 1 3) (span 0 1)
        ≡ up_to 0xFFFFFFFFFFFFFFFF }
    ensures arsh_low { alu_number Bits64 Arsh (span 8 0x7FFFFFFFFFFFFFFF) (single 1)
        ≡ span 4 0x3FFFFFFFFFFFFFFF }
    ensures arsh_sign { alu_number Bits64 Arsh (span 8 0x8000000000000000) (single 1)
        ≡ up_to 0xFFFFFFFFFFFFFFFF }
    ensures arsh32_low { alu_number Bits32 Arsh (span 8 0x7FFFFFFF) (single 1)
        ≡ span 4 0x3FFFFFFF }
    ensures arsh32_sign { alu_number Bits32 Arsh (span 8 0x80000000) (single 1)
        ≡ up_to 0xFFFFFFFF }
    ensures single_arsh { alu_number Bits32 Arsh (single 0x80000000) (single 4)
        ≡ single 0xF8000000 }
{}

/// 32-bit MOV, MOVSX and END: single numbers as the machine computes them, ranges by their size.
pub fn sizes()
    ensures mov32_below { copied_number Bits32 (span 1 0xFFFFFFFF) ≡ span 1 0xFFFFFFFF }
    ensures mov32_past { copied_number Bits32 (span 1 0x100000000) ≡ up_to 0xFFFFFFFF }
    ensures mov32_single { copied_number Bits32 (single 0x100000007) ≡ single 7 }
    ensures movsx8 { extended_number Byte64 (span 0 1) ≡ up_to 0xFFFFFFFFFFFFFFFF }
    ensures movsx8_single { extended_number Byte64 (single 0x80) ≡ single 0xFFFFFFFFFFFFFF80 }
    ensures movsx16w { extended_number Half32 (span 0 1) ≡ up_to 0xFFFFFFFF }
    ensures le16 { reordered_number Little end.Half (span 0 1) ≡ up_to 0xFFFF }
    ensures be32 { reordered_number Big end.Word (span 0 1) ≡ up_to 0xFFFFFFFF }
    ensures le64 { reordered_number Little end.Double (span 0 1) ≡ up_to 0xFFFFFFFFFFFFFFFF }
    ensures be16_single { reordered_number Big end.Half (single 0x0102) ≡ single 0x0201 }
{}
