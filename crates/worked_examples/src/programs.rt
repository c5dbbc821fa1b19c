//! Whole programs of arithmetic and jumps: the definitions of a step and a run are compared with
//! results worked out by hand. Each law holds for all attributes.

ghost use Rattle.bpf_semantics.specs.Run.{AlwaysEnds};
ghost use Rattle.worked_examples.specs.Programs as worked;

/// `mov r0, 0 / exit` ends with 0 after two instructions, and `mov r0, 3 / exit` with 3.
pub fn choices()
    ensures none { AlwaysEnds worked.none_program 0 2 }
    ensures third { AlwaysEnds worked.third_program 3 2 }
{}

/// A 32-bit sum wraps, `mov r0, -1 / add32 r0, 1 / exit` ends with 0, and clears the upper half,
/// `mov r0, -2 / add32 r0, 1 / exit` ends with 4294967295. The count of a shift is masked:
/// `mov r0, 1 / lsh r0, 64 / exit` ends with 1.
pub fn wrapping()
    ensures wraps { AlwaysEnds worked.wrapping_program 0 3 }
    ensures low_half { AlwaysEnds worked.low_sum_program 4294967295 3 }
    ensures masked { AlwaysEnds worked.masked_program 1 3 }
{}

/// A wide load is one instruction of two slots: `lddw r0, 21474836483 / rsh r0, 32 / exit` ends
/// with 5.
pub fn wide_load()
    ensures { AlwaysEnds worked.wide_program 5 3 }
{}

/// An imm is sign-extended with 64 bits: `mov r0, -1 / and r0, -1 / rsh r0, 32 / exit`. With 32
/// bits it isn't: `mov r0, -1 / and32 r0, -1 / exit` and `mov32 r0, -1 / exit`. A register is
/// truncated with 32 bits: `mov r2, -1 / mov32 r0, r2 / exit`. Each ends with 4294967295.
pub fn operands()
    ensures extended { AlwaysEnds worked.all_ones_program 4294967295 4 }
    ensures not_extended { AlwaysEnds worked.low_ones_program 4294967295 3 }
    ensures moved { AlwaysEnds worked.mov32_imm_program 4294967295 2 }
    ensures cut { AlwaysEnds worked.mov32_register_program 4294967295 3 }
{}

/// `mov r2, 128 / movsx8 r0, r2 / neg r0 / exit` ends with 128, `mov r2, 128 / movsx8w r0, r2 /
/// exit` with 4294967168, and `mov r0, 1 / neg32 r0 / exit` with 4294967295. `mov r0, 66051 / be16
/// r0 / exit` changes 0x010203 to 0x0302, and ends with 770.
pub fn one_operand()
    ensures movsx8 { AlwaysEnds worked.movsx8_program 128 4 }
    ensures movsx8w { AlwaysEnds worked.movsx8w_program 4294967168 3 }
    ensures neg32 { AlwaysEnds worked.neg32_program 4294967295 3 }
    ensures be16 { AlwaysEnds worked.be16_program 770 3 }
{}

/// A jump counts slots from the instruction after it. `ja +1 / exit / mov r0, 2 / exit` and the
/// same with `jal` end with 2, `mov r0, 5 / ja +1 / exit / ja -2` with 5 after four instructions,
/// and `ja +2 / lddw r0, 7 / mov r0, 1 / exit` with 1.
pub fn jumps()
    ensures short { AlwaysEnds worked.ja_program 2 3 }
    ensures long { AlwaysEnds worked.jal_program 2 3 }
    ensures back { AlwaysEnds worked.back_program 5 4 }
    ensures over_wide { AlwaysEnds worked.over_wide_program 1 3 }
{}

/// `mov r0, 1 / mov r2, -1 / jsgt r0, r2, +1 / mov r0, 0 / exit` jumps and ends with 1; with `jgt`
/// it falls through and ends with 0.
pub fn signs()
    ensures signed { AlwaysEnds worked.signed_program 1 4 }
    ensures unsigned { AlwaysEnds worked.unsigned_program 0 5 }
{}

/// `mov r0, 1 / mov32 r2, -1 / jeq r2, -1, +1 / mov r0, 0 / exit` falls through and ends with 0,
/// since the imm has 64 ones; with `jeq32` it jumps and ends with 1.
pub fn halves()
    ensures whole { AlwaysEnds worked.jeq_program 0 5 }
    ensures low { AlwaysEnds worked.jeq32_program 1 4 }
{}
