//! The conditions of jumps on numbers worked out by hand (RFC 9669, "Jump Instructions"). As signed
//! numbers 0xFFFFFFFFFFFFFFFF is -1, and 0xFFFFFFFFFFFFFFFE is -2.

ghost use Rattle.std.specs.Prelude.{IsTrue, IsFalse};
ghost use Rattle.bpf_insn.specs.declared.operand.Bits.TheVariants.{Bits64, Bits32};
ghost use Rattle.bpf_insn.specs.declared.operand.Condition.TheVariants.{Eq, Gt, Ge, Set, Ne, Sgt};
ghost use Rattle.bpf_insn.specs.declared.operand.Condition.TheVariants.{Sge, Lt, Le, Slt, Sle};
ghost use Rattle.bpf_insn.specs.Conditions.{holds};

/// `jeq`, `jne`, and `jset`, which tests for a common bit.
pub fn equalities()
    ensures jeq { IsTrue (holds Bits64 Eq 7 7) }
    ensures jeq_less { IsFalse (holds Bits64 Eq 7 0x100000007) }
    ensures jeq_greater { IsFalse (holds Bits64 Eq 0x100000007 7) }
    ensures jne_less { IsTrue (holds Bits64 Ne 7 0x100000007) }
    ensures jne_greater { IsTrue (holds Bits64 Ne 0x100000007 7) }
    ensures jne_same { IsFalse (holds Bits64 Ne 7 7) }
    ensures jset { IsTrue (holds Bits64 Set 6 3) }
    ensures jset_not { IsFalse (holds Bits64 Set 6 9) }
{}

/// `jgt`, `jge`, `jlt`, `jle` compare unsigned numbers: -1 is the greatest.
pub fn unsigned_orders()
    ensures jgt { IsTrue (holds Bits64 Gt 0xFFFFFFFFFFFFFFFF 1) }
    ensures jgt_less { IsFalse (holds Bits64 Gt 1 0xFFFFFFFFFFFFFFFF) }
    ensures jgt_same { IsFalse (holds Bits64 Gt 1 1) }
    ensures jge { IsTrue (holds Bits64 Ge 0xFFFFFFFFFFFFFFFF 1) }
    ensures jge_less { IsFalse (holds Bits64 Ge 1 0xFFFFFFFFFFFFFFFF) }
    ensures jge_same { IsTrue (holds Bits64 Ge 1 1) }
    ensures jlt { IsTrue (holds Bits64 Lt 1 0xFFFFFFFFFFFFFFFF) }
    ensures jlt_greater { IsFalse (holds Bits64 Lt 0xFFFFFFFFFFFFFFFF 1) }
    ensures jlt_same { IsFalse (holds Bits64 Lt 1 1) }
    ensures jle { IsTrue (holds Bits64 Le 1 0xFFFFFFFFFFFFFFFF) }
    ensures jle_greater { IsFalse (holds Bits64 Le 0xFFFFFFFFFFFFFFFF 1) }
    ensures jle_same { IsTrue (holds Bits64 Le 1 1) }
{}

/// `jsgt`, `jsge`, `jslt`, `jsle` compare signed numbers: -2 < -1 < 1.
pub fn signed_orders()
    ensures jsgt { IsTrue (holds Bits64 Sgt 1 0xFFFFFFFFFFFFFFFF) }
    ensures jsgt_negative { IsTrue (holds Bits64 Sgt 0xFFFFFFFFFFFFFFFF 0xFFFFFFFFFFFFFFFE) }
    ensures jsgt_less { IsFalse (holds Bits64 Sgt 0xFFFFFFFFFFFFFFFF 1) }
    ensures jsgt_same { IsFalse (holds Bits64 Sgt 0xFFFFFFFFFFFFFFFF 0xFFFFFFFFFFFFFFFF) }
    ensures jsge { IsTrue (holds Bits64 Sge 1 0xFFFFFFFFFFFFFFFF) }
    ensures jsge_less { IsFalse (holds Bits64 Sge 0xFFFFFFFFFFFFFFFE 0xFFFFFFFFFFFFFFFF) }
    ensures jsge_same { IsTrue (holds Bits64 Sge 0xFFFFFFFFFFFFFFFF 0xFFFFFFFFFFFFFFFF) }
    ensures jslt { IsTrue (holds Bits64 Slt 0xFFFFFFFFFFFFFFFF 1) }
    ensures jslt_greater { IsFalse (holds Bits64 Slt 0xFFFFFFFFFFFFFFFF 0xFFFFFFFFFFFFFFFE) }
    ensures jslt_same { IsFalse (holds Bits64 Slt 0xFFFFFFFFFFFFFFFF 0xFFFFFFFFFFFFFFFF) }
    ensures jsle { IsTrue (holds Bits64 Sle 0xFFFFFFFFFFFFFFFE 0xFFFFFFFFFFFFFFFF) }
    ensures jsle_greater { IsFalse (holds Bits64 Sle 1 0xFFFFFFFFFFFFFFFF) }
    ensures jsle_same { IsTrue (holds Bits64 Sle 0xFFFFFFFFFFFFFFFF 0xFFFFFFFFFFFFFFFF) }
{}

/// Class JMP32 compares low halves: `jeq32`, `jset32`, `jgt32`, and `jsgt32`, `jsge32`, `jslt32`,
/// `jsle32`, whose sign is bit 31.
pub fn low_halves()
    ensures jeq32 { IsTrue (holds Bits32 Eq 7 0x100000007) }
    ensures jset32 { IsFalse (holds Bits32 Set 0x100000001 0x100000002) }
    ensures jgt32 { IsFalse (holds Bits32 Gt 0x700000001 2) }
    ensures jsgt32 { IsTrue (holds Bits32 Sgt 0 0x80000000) }
    ensures jsgt_of_64 { IsFalse (holds Bits64 Sgt 0 0x80000000) }
    ensures jsge32 { IsTrue (holds Bits32 Sge 0xFFFFFFFF7FFFFFFF 0) }
    ensures jsge32_negative { IsFalse (holds Bits32 Sge 0x80000000 0) }
    ensures jslt32 { IsTrue (holds Bits32 Slt 0x80000000 0) }
    ensures jslt_of_64 { IsFalse (holds Bits64 Slt 0x80000000 0) }
    ensures jsle32 { IsTrue (holds Bits32 Sle 0xFFFFFFFF 0) }
{}
