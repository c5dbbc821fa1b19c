//! Products, quotients and remainders (RFC 9669, "Arithmetic Instructions") worked out by hand.
//! Each row has one number and five second operands: 0, 1, the highest signed number, the lowest
//! and -1. In a register these are the numbers of the class, and as an imm those of 32 bits.

ghost use Rattle.std.specs.Prelude.{◌≡◌, [], ◌∷◌, map, negsuc};
ghost use Rattle.bpf_insn.specs.declared.operand.AluOp.TheVariants.{Mul, Div, Sdiv, Mod, Smod};
ghost use Rattle.bpf_insn.specs.declared.operand.Bits.TheVariants.{Bits64, Bits32};
ghost use Rattle.bpf_insn.specs.Arithmetic.{alu_result};
ghost use Rattle.bpf_insn.specs.Words.{immediate};
ghost use Rattle.worked_examples.specs.Ends.{ends, imm_ends, by_each, by_imms};

/// `mul` and `mul32` wrap.
pub fn products()
    ensures zero { by_each Bits64 Mul 0 ≡ 0 ∷ 0 ∷ 0 ∷ 0 ∷ 0 ∷ [] }
    ensures one { by_each Bits64 Mul 1
        ≡ 0 ∷ 1 ∷ 0x7FFFFFFFFFFFFFFF ∷ 0x8000000000000000 ∷ 0xFFFFFFFFFFFFFFFF ∷ [] }
    ensures highest { by_each Bits64 Mul 0x7FFFFFFFFFFFFFFF
        ≡ 0 ∷ 0x7FFFFFFFFFFFFFFF ∷ 1 ∷ 0x8000000000000000 ∷ 0x8000000000000001 ∷ [] }
    ensures lowest { by_each Bits64 Mul 0x8000000000000000
        ≡ 0 ∷ 0x8000000000000000 ∷ 0x8000000000000000 ∷ 0 ∷ 0x8000000000000000 ∷ [] }
    ensures minus_one { by_each Bits64 Mul 0xFFFFFFFFFFFFFFFF
        ≡ 0 ∷ 0xFFFFFFFFFFFFFFFF ∷ 0x8000000000000001 ∷ 0x8000000000000000 ∷ 1 ∷ [] }
    ensures zero_by_imm { by_imms Bits64 Mul 0 ≡ 0 ∷ 0 ∷ 0 ∷ 0 ∷ 0 ∷ [] }
    ensures one_by_imm { by_imms Bits64 Mul 1
        ≡ 0 ∷ 1 ∷ 0x7FFFFFFF ∷ 0xFFFFFFFF80000000 ∷ 0xFFFFFFFFFFFFFFFF ∷ [] }
    ensures highest_by_imm { by_imms Bits64 Mul 0x7FFFFFFFFFFFFFFF
        ≡ 0 ∷ 0x7FFFFFFFFFFFFFFF ∷ 0x7FFFFFFF80000001 ∷ 0x80000000 ∷ 0x8000000000000001 ∷ [] }
    ensures lowest_by_imm { by_imms Bits64 Mul 0x8000000000000000
        ≡ 0 ∷ 0x8000000000000000 ∷ 0x8000000000000000 ∷ 0 ∷ 0x8000000000000000 ∷ [] }
    ensures minus_one_by_imm { by_imms Bits64 Mul 0xFFFFFFFFFFFFFFFF
        ≡ 0 ∷ 0xFFFFFFFFFFFFFFFF ∷ 0xFFFFFFFF80000001 ∷ 0x80000000 ∷ 1 ∷ [] }
    ensures zero_of_32 { by_each Bits32 Mul 0 ≡ 0 ∷ 0 ∷ 0 ∷ 0 ∷ 0 ∷ [] }
    ensures one_of_32 { by_each Bits32 Mul 1 ≡ 0 ∷ 1 ∷ 0x7FFFFFFF ∷ 0x80000000 ∷ 0xFFFFFFFF ∷ [] }
    ensures highest_of_32 { by_each Bits32 Mul 0x7FFFFFFF
        ≡ 0 ∷ 0x7FFFFFFF ∷ 1 ∷ 0x80000000 ∷ 0x80000001 ∷ [] }
    ensures lowest_of_32 { by_each Bits32 Mul 0x80000000
        ≡ 0 ∷ 0x80000000 ∷ 0x80000000 ∷ 0 ∷ 0x80000000 ∷ [] }
    ensures minus_one_of_32 { by_each Bits32 Mul 0xFFFFFFFF
        ≡ 0 ∷ 0xFFFFFFFF ∷ 0x80000001 ∷ 0x80000000 ∷ 1 ∷ [] }
{}

/// `div` and `div32` of unsigned numbers; division by 0 gives 0.
pub fn quotients()
    ensures zero { by_each Bits64 Div 0 ≡ 0 ∷ 0 ∷ 0 ∷ 0 ∷ 0 ∷ [] }
    ensures one { by_each Bits64 Div 1 ≡ 0 ∷ 1 ∷ 0 ∷ 0 ∷ 0 ∷ [] }
    ensures highest { by_each Bits64 Div 0x7FFFFFFFFFFFFFFF
        ≡ 0 ∷ 0x7FFFFFFFFFFFFFFF ∷ 1 ∷ 0 ∷ 0 ∷ [] }
    ensures lowest { by_each Bits64 Div 0x8000000000000000
        ≡ 0 ∷ 0x8000000000000000 ∷ 1 ∷ 1 ∷ 0 ∷ [] }
    ensures minus_one { by_each Bits64 Div 0xFFFFFFFFFFFFFFFF
        ≡ 0 ∷ 0xFFFFFFFFFFFFFFFF ∷ 2 ∷ 1 ∷ 1 ∷ [] }
    ensures zero_by_imm { by_imms Bits64 Div 0 ≡ 0 ∷ 0 ∷ 0 ∷ 0 ∷ 0 ∷ [] }
    ensures one_by_imm { by_imms Bits64 Div 1 ≡ 0 ∷ 1 ∷ 0 ∷ 0 ∷ 0 ∷ [] }
    ensures highest_by_imm { by_imms Bits64 Div 0x7FFFFFFFFFFFFFFF
        ≡ 0 ∷ 0x7FFFFFFFFFFFFFFF ∷ 0x100000002 ∷ 0 ∷ 0 ∷ [] }
    ensures lowest_by_imm { by_imms Bits64 Div 0x8000000000000000
        ≡ 0 ∷ 0x8000000000000000 ∷ 0x100000002 ∷ 0 ∷ 0 ∷ [] }
    ensures minus_one_by_imm { by_imms Bits64 Div 0xFFFFFFFFFFFFFFFF
        ≡ 0 ∷ 0xFFFFFFFFFFFFFFFF ∷ 0x200000004 ∷ 1 ∷ 1 ∷ [] }
    ensures zero_of_32 { by_each Bits32 Div 0 ≡ 0 ∷ 0 ∷ 0 ∷ 0 ∷ 0 ∷ [] }
    ensures one_of_32 { by_each Bits32 Div 1 ≡ 0 ∷ 1 ∷ 0 ∷ 0 ∷ 0 ∷ [] }
    ensures highest_of_32 { by_each Bits32 Div 0x7FFFFFFF ≡ 0 ∷ 0x7FFFFFFF ∷ 1 ∷ 0 ∷ 0 ∷ [] }
    ensures lowest_of_32 { by_each Bits32 Div 0x80000000 ≡ 0 ∷ 0x80000000 ∷ 1 ∷ 1 ∷ 0 ∷ [] }
    ensures minus_one_of_32 { by_each Bits32 Div 0xFFFFFFFF ≡ 0 ∷ 0xFFFFFFFF ∷ 2 ∷ 1 ∷ 1 ∷ [] }
{}

/// `sdiv` and `sdiv32` round toward 0; division by 0 gives 0, and the lowest number divided by -1
/// is itself.
pub fn signed_quotients()
    ensures zero { by_each Bits64 Sdiv 0 ≡ 0 ∷ 0 ∷ 0 ∷ 0 ∷ 0 ∷ [] }
    ensures one { by_each Bits64 Sdiv 1 ≡ 0 ∷ 1 ∷ 0 ∷ 0 ∷ 0xFFFFFFFFFFFFFFFF ∷ [] }
    ensures highest { by_each Bits64 Sdiv 0x7FFFFFFFFFFFFFFF
        ≡ 0 ∷ 0x7FFFFFFFFFFFFFFF ∷ 1 ∷ 0 ∷ 0x8000000000000001 ∷ [] }
    ensures lowest { by_each Bits64 Sdiv 0x8000000000000000
        ≡ 0 ∷ 0x8000000000000000 ∷ 0xFFFFFFFFFFFFFFFF ∷ 1 ∷ 0x8000000000000000 ∷ [] }
    ensures minus_one { by_each Bits64 Sdiv 0xFFFFFFFFFFFFFFFF
        ≡ 0 ∷ 0xFFFFFFFFFFFFFFFF ∷ 0 ∷ 0 ∷ 1 ∷ [] }
    ensures zero_by_imm { by_imms Bits64 Sdiv 0 ≡ 0 ∷ 0 ∷ 0 ∷ 0 ∷ 0 ∷ [] }
    ensures one_by_imm { by_imms Bits64 Sdiv 1 ≡ 0 ∷ 1 ∷ 0 ∷ 0 ∷ 0xFFFFFFFFFFFFFFFF ∷ [] }
    ensures highest_by_imm { by_imms Bits64 Sdiv 0x7FFFFFFFFFFFFFFF
        ≡ 0 ∷ 0x7FFFFFFFFFFFFFFF ∷ 0x100000002 ∷ 0xFFFFFFFF00000001 ∷ 0x8000000000000001 ∷ [] }
    ensures lowest_by_imm { by_imms Bits64 Sdiv 0x8000000000000000
        ≡ 0 ∷ 0x8000000000000000 ∷ 0xFFFFFFFEFFFFFFFE ∷ 0x100000000 ∷ 0x8000000000000000 ∷ [] }
    ensures minus_one_by_imm { by_imms Bits64 Sdiv 0xFFFFFFFFFFFFFFFF
        ≡ 0 ∷ 0xFFFFFFFFFFFFFFFF ∷ 0 ∷ 0 ∷ 1 ∷ [] }
    ensures zero_of_32 { by_each Bits32 Sdiv 0 ≡ 0 ∷ 0 ∷ 0 ∷ 0 ∷ 0 ∷ [] }
    ensures one_of_32 { by_each Bits32 Sdiv 1 ≡ 0 ∷ 1 ∷ 0 ∷ 0 ∷ 0xFFFFFFFF ∷ [] }
    ensures highest_of_32 { by_each Bits32 Sdiv 0x7FFFFFFF
        ≡ 0 ∷ 0x7FFFFFFF ∷ 1 ∷ 0 ∷ 0x80000001 ∷ [] }
    ensures lowest_of_32 { by_each Bits32 Sdiv 0x80000000
        ≡ 0 ∷ 0x80000000 ∷ 0xFFFFFFFF ∷ 1 ∷ 0x80000000 ∷ [] }
    ensures minus_one_of_32 { by_each Bits32 Sdiv 0xFFFFFFFF ≡ 0 ∷ 0xFFFFFFFF ∷ 0 ∷ 0 ∷ 1 ∷ [] }
{}

/// `mod` and `mod32` of unsigned numbers; the remainder of division by 0 is the dividend.
pub fn remainders()
    ensures zero { by_each Bits64 Mod 0 ≡ 0 ∷ 0 ∷ 0 ∷ 0 ∷ 0 ∷ [] }
    ensures one { by_each Bits64 Mod 1 ≡ 1 ∷ 0 ∷ 1 ∷ 1 ∷ 1 ∷ [] }
    ensures highest { by_each Bits64 Mod 0x7FFFFFFFFFFFFFFF
        ≡ 0x7FFFFFFFFFFFFFFF ∷ 0 ∷ 0 ∷ 0x7FFFFFFFFFFFFFFF ∷ 0x7FFFFFFFFFFFFFFF ∷ [] }
    ensures lowest { by_each Bits64 Mod 0x8000000000000000
        ≡ 0x8000000000000000 ∷ 0 ∷ 1 ∷ 0 ∷ 0x8000000000000000 ∷ [] }
    ensures minus_one { by_each Bits64 Mod 0xFFFFFFFFFFFFFFFF
        ≡ 0xFFFFFFFFFFFFFFFF ∷ 0 ∷ 1 ∷ 0x7FFFFFFFFFFFFFFF ∷ 0 ∷ [] }
    ensures zero_by_imm { by_imms Bits64 Mod 0 ≡ 0 ∷ 0 ∷ 0 ∷ 0 ∷ 0 ∷ [] }
    ensures one_by_imm { by_imms Bits64 Mod 1 ≡ 1 ∷ 0 ∷ 1 ∷ 1 ∷ 1 ∷ [] }
    ensures highest_by_imm { by_imms Bits64 Mod 0x7FFFFFFFFFFFFFFF
        ≡ 0x7FFFFFFFFFFFFFFF ∷ 0 ∷ 1 ∷ 0x7FFFFFFFFFFFFFFF ∷ 0x7FFFFFFFFFFFFFFF ∷ [] }
    ensures lowest_by_imm { by_imms Bits64 Mod 0x8000000000000000
        ≡ 0x8000000000000000 ∷ 0 ∷ 2 ∷ 0x8000000000000000 ∷ 0x8000000000000000 ∷ [] }
    ensures minus_one_by_imm { by_imms Bits64 Mod 0xFFFFFFFFFFFFFFFF
        ≡ 0xFFFFFFFFFFFFFFFF ∷ 0 ∷ 3 ∷ 0x7FFFFFFF ∷ 0 ∷ [] }
    ensures zero_of_32 { by_each Bits32 Mod 0 ≡ 0 ∷ 0 ∷ 0 ∷ 0 ∷ 0 ∷ [] }
    ensures one_of_32 { by_each Bits32 Mod 1 ≡ 1 ∷ 0 ∷ 1 ∷ 1 ∷ 1 ∷ [] }
    ensures highest_of_32 { by_each Bits32 Mod 0x7FFFFFFF
        ≡ 0x7FFFFFFF ∷ 0 ∷ 0 ∷ 0x7FFFFFFF ∷ 0x7FFFFFFF ∷ [] }
    ensures lowest_of_32 { by_each Bits32 Mod 0x80000000
        ≡ 0x80000000 ∷ 0 ∷ 1 ∷ 0 ∷ 0x80000000 ∷ [] }
    ensures minus_one_of_32 { by_each Bits32 Mod 0xFFFFFFFF
        ≡ 0xFFFFFFFF ∷ 0 ∷ 1 ∷ 0x7FFFFFFF ∷ 0 ∷ [] }
{}

/// `smod` and `smod32` have the sign of the dividend; the remainder of division by 0 is the
/// dividend.
pub fn signed_remainders()
    ensures zero { by_each Bits64 Smod 0 ≡ 0 ∷ 0 ∷ 0 ∷ 0 ∷ 0 ∷ [] }
    ensures one { by_each Bits64 Smod 1 ≡ 1 ∷ 0 ∷ 1 ∷ 1 ∷ 0 ∷ [] }
    ensures highest { by_each Bits64 Smod 0x7FFFFFFFFFFFFFFF
        ≡ 0x7FFFFFFFFFFFFFFF ∷ 0 ∷ 0 ∷ 0x7FFFFFFFFFFFFFFF ∷ 0 ∷ [] }
    ensures lowest { by_each Bits64 Smod 0x8000000000000000
        ≡ 0x8000000000000000 ∷ 0 ∷ 0xFFFFFFFFFFFFFFFF ∷ 0 ∷ 0 ∷ [] }
    ensures minus_one { by_each Bits64 Smod 0xFFFFFFFFFFFFFFFF
        ≡ 0xFFFFFFFFFFFFFFFF ∷ 0 ∷ 0xFFFFFFFFFFFFFFFF ∷ 0xFFFFFFFFFFFFFFFF ∷ 0 ∷ [] }
    ensures zero_by_imm { by_imms Bits64 Smod 0 ≡ 0 ∷ 0 ∷ 0 ∷ 0 ∷ 0 ∷ [] }
    ensures one_by_imm { by_imms Bits64 Smod 1 ≡ 1 ∷ 0 ∷ 1 ∷ 1 ∷ 0 ∷ [] }
    ensures highest_by_imm { by_imms Bits64 Smod 0x7FFFFFFFFFFFFFFF
        ≡ 0x7FFFFFFFFFFFFFFF ∷ 0 ∷ 1 ∷ 0x7FFFFFFF ∷ 0 ∷ [] }
    ensures lowest_by_imm { by_imms Bits64 Smod 0x8000000000000000
        ≡ 0x8000000000000000 ∷ 0 ∷ 0xFFFFFFFFFFFFFFFE ∷ 0 ∷ 0 ∷ [] }
    ensures minus_one_by_imm { by_imms Bits64 Smod 0xFFFFFFFFFFFFFFFF
        ≡ 0xFFFFFFFFFFFFFFFF ∷ 0 ∷ 0xFFFFFFFFFFFFFFFF ∷ 0xFFFFFFFFFFFFFFFF ∷ 0 ∷ [] }
    ensures zero_of_32 { by_each Bits32 Smod 0 ≡ 0 ∷ 0 ∷ 0 ∷ 0 ∷ 0 ∷ [] }
    ensures one_of_32 { by_each Bits32 Smod 1 ≡ 1 ∷ 0 ∷ 1 ∷ 1 ∷ 0 ∷ [] }
    ensures highest_of_32 { by_each Bits32 Smod 0x7FFFFFFF
        ≡ 0x7FFFFFFF ∷ 0 ∷ 0 ∷ 0x7FFFFFFF ∷ 0 ∷ [] }
    ensures lowest_of_32 { by_each Bits32 Smod 0x80000000
        ≡ 0x80000000 ∷ 0 ∷ 0xFFFFFFFF ∷ 0 ∷ 0 ∷ [] }
    ensures minus_one_of_32 { by_each Bits32 Smod 0xFFFFFFFF
        ≡ 0xFFFFFFFF ∷ 0 ∷ 0xFFFFFFFF ∷ 0xFFFFFFFF ∷ 0 ∷ [] }
{}

/// A 32-bit imm is an operand with the same bits, so the 32-bit rows are the same for an imm and
/// for a register.
pub fn immediates()
    ensures { map (immediate Bits32) imm_ends ≡ ends Bits32 }
{}

/// 13 and -13 divided by 3 and -3.
pub fn signs()
    ensures quotient { alu_result Bits64 Sdiv 13 3 ≡ 4 }
    ensures of_negative { alu_result Bits64 Sdiv 0xFFFFFFFFFFFFFFF3 3 ≡ 0xFFFFFFFFFFFFFFFC }
    ensures by_negative { alu_result Bits64 Sdiv 13 0xFFFFFFFFFFFFFFFD ≡ 0xFFFFFFFFFFFFFFFC }
    ensures of_both { alu_result Bits64 Sdiv 0xFFFFFFFFFFFFFFF3 0xFFFFFFFFFFFFFFFD ≡ 4 }
    ensures remainder { alu_result Bits64 Smod 13 3 ≡ 1 }
    ensures rest_of_negative { alu_result Bits64 Smod 0xFFFFFFFFFFFFFFF3 3 ≡ 0xFFFFFFFFFFFFFFFF }
    ensures rest_by_negative { alu_result Bits64 Smod 13 0xFFFFFFFFFFFFFFFD ≡ 1 }
    ensures rest_of_both { alu_result Bits64 Smod 0xFFFFFFFFFFFFFFF3 0xFFFFFFFFFFFFFFFD
        ≡ 0xFFFFFFFFFFFFFFFF }
    ensures unsigned { alu_result Bits64 Div 0xFFFFFFFFFFFFFFF3 3 ≡ 0x5555555555555551 }
    ensures unsigned_rest { alu_result Bits64 Mod 0xFFFFFFFFFFFFFFF3 3 ≡ 0 }
    ensures by_imm { alu_result Bits64 Sdiv 13 (immediate Bits64 (negsuc 2))
        ≡ 0xFFFFFFFFFFFFFFFC }
    ensures unsigned_by_imm { alu_result Bits64 Div 13 (immediate Bits64 (negsuc 2)) ≡ 0 }
    ensures rest_by_imm { alu_result Bits64 Mod 13 (immediate Bits64 (negsuc 2)) ≡ 13 }
{}

/// With 32 bits only the low halves count, and the upper half of the result is 0.
pub fn low_halves()
    ensures mul32 { alu_result Bits32 Mul 0x700000003 0x900000005 ≡ 15 }
    ensures div32 { alu_result Bits32 Div 0x70000000D 0x900000003 ≡ 4 }
    ensures sdiv32 { alu_result Bits32 Sdiv 0x7FFFFFFF3 0x900000003 ≡ 0xFFFFFFFC }
    ensures mod32 { alu_result Bits32 Mod 0x70000000D 0x900000003 ≡ 1 }
    ensures smod32 { alu_result Bits32 Smod 0x7FFFFFFF3 0x900000003 ≡ 0xFFFFFFFF }
    ensures div32_by_zero { alu_result Bits32 Div 0x70000000D 0x100000000 ≡ 0 }
    ensures sdiv32_by_zero { alu_result Bits32 Sdiv 0x70000000D 0x100000000 ≡ 0 }
    ensures mod32_by_zero { alu_result Bits32 Mod 0x70000000D 0x100000000 ≡ 13 }
    ensures smod32_by_zero { alu_result Bits32 Smod 0x7FFFFFFF3 0x100000000 ≡ 0xFFFFFFF3 }
{}
