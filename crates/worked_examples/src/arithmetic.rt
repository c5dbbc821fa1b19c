//! The formulas of arithmetic on numbers worked out by hand (RFC 9669, "Arithmetic Instructions"
//! and "Byte Swap Instructions").

ghost use Rattle.std.specs.Prelude.{◌≡◌, pos, negsuc};
ghost use Rattle.bpf_insn.specs.declared.operand.AluOp.TheVariants.{Add, Sub, Or, And};
ghost use Rattle.bpf_insn.specs.declared.operand.AluOp.TheVariants.{Xor, Lsh, Rsh, Arsh};
ghost use Rattle.bpf_insn.specs.declared.operand.Bits.TheVariants.{Bits64, Bits32};
ghost use Rattle.bpf_insn.specs.declared.operand.ByteOrder.TheVariants.{Little, Big, Swap};
ghost use Rattle.bpf_insn.specs.declared.operand.EndSize.TheVariants.{Half, Word, Double};
ghost use Rattle.bpf_insn.specs.declared.operand.Extension.TheVariants.{Byte64, Half64};
ghost use Rattle.bpf_insn.specs.declared.operand.Extension.TheVariants.{Word64, Byte32, Half32};
ghost use Rattle.bpf_insn.specs.Words.{immediate};
ghost use Rattle.bpf_insn.specs.Arithmetic.{alu_result, negated, extended, reordered};

/// Sums and differences wrap; with 32 bits only the low halves count: `add`, `add32`, `sub`,
/// `sub32`.
pub fn sums()
    ensures add { alu_result Bits64 Add 0xFFFFFFFFFFFFFFFF 2 ≡ 1 }
    ensures add_carries { alu_result Bits64 Add 0xFFFFFFFF 1 ≡ 0x100000000 }
    ensures add32 { alu_result Bits32 Add 0x1FFFFFFFF 0x500000002 ≡ 1 }
    ensures sub { alu_result Bits64 Sub 3 5 ≡ 0xFFFFFFFFFFFFFFFE }
    ensures sub_nothing { alu_result Bits64 Sub 5 0 ≡ 5 }
    ensures sub32 { alu_result Bits32 Sub 0x700000003 5 ≡ 0xFFFFFFFE }
{}

/// `neg` and `neg32`.
pub fn negations()
    ensures one { negated Bits64 1 ≡ 0xFFFFFFFFFFFFFFFF }
    ensures zero { negated Bits64 0 ≡ 0 }
    ensures lowest { negated Bits64 0x8000000000000000 ≡ 0x8000000000000000 }
    ensures one_of_32 { negated Bits32 1 ≡ 0xFFFFFFFF }
    ensures low_half { negated Bits32 0x7FFFFFFFE ≡ 2 }
{}

/// `or`, `and`, `xor`; with 32 bits only the low halves count.
pub fn bit_operations()
    ensures or { alu_result Bits64 Or 0xF0F000000000F0F0 0x0FF0 ≡ 0xF0F000000000FFF0 }
    ensures and { alu_result Bits64 And 0xF0F000000000F0F0 0xFF00000000000FF0 ≡ 0xF0000000000000F0 }
    ensures xor { alu_result Bits64 Xor 0xF0F000000000F0F0 0xFF00000000000FF0 ≡ 0x0FF000000000FF00 }
    ensures or32 { alu_result Bits32 Or 0x700000001 0x900000002 ≡ 3 }
    ensures and32 { alu_result Bits32 And 0x700000003 0x900000002 ≡ 2 }
    ensures xor32 { alu_result Bits32 Xor 0x700000003 0x900000002 ≡ 1 }
{}

/// `lsh` and `rsh` mask their count by 63, or with 32 bits by 31.
pub fn shifts()
    ensures lsh { alu_result Bits64 Lsh 3 63 ≡ 0x8000000000000000 }
    ensures lsh_masked { alu_result Bits64 Lsh 3 65 ≡ 6 }
    ensures lsh32 { alu_result Bits32 Lsh 0x780000001 4 ≡ 0x10 }
    ensures lsh32_masked { alu_result Bits32 Lsh 3 32 ≡ 3 }
    ensures rsh { alu_result Bits64 Rsh 0xC000000000000000 62 ≡ 3 }
    ensures rsh_masked { alu_result Bits64 Rsh 6 0xFFFFFFFFFFFFFFC1 ≡ 3 }
    ensures rsh32 { alu_result Bits32 Rsh 0x7C0000000 30 ≡ 3 }
    ensures rsh32_masked { alu_result Bits32 Rsh 6 0x900000021 ≡ 3 }
{}

/// `arsh` copies the sign bit of its width and rounds down.
pub fn arithmetic_shifts()
    ensures negative { alu_result Bits64 Arsh 0xFFFFFFFFFFFFFFF0 2 ≡ 0xFFFFFFFFFFFFFFFC }
    ensures rounds_down { alu_result Bits64 Arsh 0xFFFFFFFFFFFFFFF7 1 ≡ 0xFFFFFFFFFFFFFFFB }
    ensures lowest { alu_result Bits64 Arsh 0x8000000000000000 63 ≡ 0xFFFFFFFFFFFFFFFF }
    ensures masked { alu_result Bits64 Arsh 0xFFFFFFFFFFFFFFF0 66 ≡ 0xFFFFFFFFFFFFFFFC }
    ensures positive { alu_result Bits64 Arsh 0x7FFFFFFFFFFFFFFF 60 ≡ 7 }
    ensures negative_of_32 { alu_result Bits32 Arsh 0x80000000 4 ≡ 0xF8000000 }
    ensures masked_of_32 { alu_result Bits32 Arsh 0x1234567880000000 36 ≡ 0xF8000000 }
    ensures positive_of_32 { alu_result Bits32 Arsh 0xFFFFFFFF7FFFFFFF 4 ≡ 0x07FFFFFF }
{}

/// `movsx8`, `movsx16`, `movsx32`, and `movsx8w`, `movsx16w`, which make the upper half 0.
pub fn sign_extensions()
    ensures movsx8 { extended Byte64 0x180 ≡ 0xFFFFFFFFFFFFFF80 }
    ensures movsx8_positive { extended Byte64 0xFFFFFFFFFFFFFF7F ≡ 0x7F }
    ensures movsx16 { extended Half64 0x18000 ≡ 0xFFFFFFFFFFFF8000 }
    ensures movsx16_positive { extended Half64 0xFFFFFFFFFFFF7FFF ≡ 0x7FFF }
    ensures movsx32 { extended Word64 0x180000000 ≡ 0xFFFFFFFF80000000 }
    ensures movsx32_positive { extended Word64 0xFFFFFFFF7FFFFFFF ≡ 0x7FFFFFFF }
    ensures movsx8w { extended Byte32 0xFFFFFFFF00000080 ≡ 0xFFFFFF80 }
    ensures movsx8w_positive { extended Byte32 0xFFFFFFFFFFFFFF7F ≡ 0x7F }
    ensures movsx16w { extended Half32 0x12348001 ≡ 0xFFFF8001 }
    ensures movsx16w_positive { extended Half32 0xFFFFFFFFFFFF7001 ≡ 0x7001 }
{}

/// `le16` to `le64` keep the low bytes, `be16` to `be64` and `swap16` to `swap64` reverse them; the
/// rest is cleared.
pub fn byte_orders()
    ensures le16 { reordered Little Half 0x0102030405060708 ≡ 0x0708 }
    ensures le32 { reordered Little Word 0x0102030405060708 ≡ 0x05060708 }
    ensures le64 { reordered Little Double 0x0102030405060708 ≡ 0x0102030405060708 }
    ensures be16 { reordered Big Half 0x0102030405060708 ≡ 0x0807 }
    ensures be32 { reordered Big Word 0x0102030405060708 ≡ 0x08070605 }
    ensures be64 { reordered Big Double 0x0102030405060708 ≡ 0x0807060504030201 }
    ensures swap16 { reordered Swap Half 0x0102030405060708 ≡ 0x0807 }
    ensures swap32 { reordered Swap Word 0x0102030405060708 ≡ 0x08070605 }
    ensures swap64 { reordered Swap Double 0x0102030405060708 ≡ 0x0807060504030201 }
{}

/// An imm as an operand: sign-extended to 64 bits, or as 32 bits.
pub fn immediates()
    ensures minus_one { immediate Bits64 (negsuc 0) ≡ 0xFFFFFFFFFFFFFFFF }
    ensures lowest { immediate Bits64 (negsuc 2147483647) ≡ 0xFFFFFFFF80000000 }
    ensures highest { immediate Bits64 (pos 2147483647) ≡ 0x7FFFFFFF }
    ensures minus_one_of_32 { immediate Bits32 (negsuc 0) ≡ 0xFFFFFFFF }
    ensures lowest_of_32 { immediate Bits32 (negsuc 2147483647) ≡ 0x80000000 }
    ensures highest_of_32 { immediate Bits32 (pos 2147483647) ≡ 0x7FFFFFFF }
{}
