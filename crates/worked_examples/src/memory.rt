//! Whole programs of loads and stores on the stack: what stores write, what loads read, and the
//! order of bytes.

ghost use Rattle.std.specs.Prelude.{negsuc};
ghost use Rattle.bpf_insn.specs.declared.operand.LoadKind.TheVariants as load;
ghost use Rattle.bpf_insn.specs.declared.operand.Size.TheVariants as size;
ghost use Rattle.bpf_semantics.specs.Run.{AlwaysEnds};
ghost use Rattle.worked_examples.specs.MemoryPrograms as worked;

/// `mov r2, 7 / stxdw [r10-8], r2 / ldxdw r0, [r10-8] / exit` ends with 7; so does `mov r2, 7 /
/// stxw [r10-8], r2 / stw [r10-4], 0 / ldxdw r0, [r10-8] / and r0, 7 / exit`.
pub fn round_trips()
    ensures whole { AlwaysEnds worked.round_trip_program 7 4 }
    ensures joined { AlwaysEnds worked.joined_program 7 6 }
{}

/// A store writes only its low bytes. `stdw [r10-8], 0 / mov r2, -1 / stxh [r10-8], r2 / ldxdw r0,
/// [r10-8] / exit` ends with 65535. `stdw [r10-8], 16909060 / stb [r10-8], 9 / ldxw r0, [r10-8] /
/// exit` changes 0x01020304 to 0x01020309, and ends with 16909065.
pub fn partial_stores()
    ensures half { AlwaysEnds worked.partial_program 65535 5 }
    ensures byte { AlwaysEnds worked.overwritten_program 16909065 4 }
{}

/// Bytes are little-endian, at any alignment: `stw [r10-7], 16909060 / ldxh r0, [r10-6] / exit`
/// reads 0x0203 of 0x01020304 and ends with 515. The lowest byte of the stack is 512 below its top:
/// `stb [r10-512], 1 / ldxb r0, [r10-512] / exit` ends with 1.
pub fn places()
    ensures unaligned { AlwaysEnds worked.unaligned_program 515 3 }
    ensures lowest { AlwaysEnds worked.lowest_program 1 3 }
{}

/// `stdw` stores its imm sign-extended: `stdw [r10-8], -2 / ldxw r0, [r10-4] / exit` ends with
/// 4294967295.
pub fn extended_store()
    ensures { AlwaysEnds worked.stdw_program 4294967295 3 }
{}

/// Mode MEM extends with zeroes, and MEMSX with the sign. `stb [r10-1], -2 / ldxb r0, [r10-1] /
/// exit` ends with 254; with `ldsxb` it ends with -2. The same holds for `sth` with `ldxh` and
/// `ldsxh`, `stw` with `ldxw` and `ldsxw`, and `stdw` with `ldxdw`. No load reads past the top of
/// the stack.
pub fn negative_loads()
    ensures ldxb { AlwaysEnds (worked.negative_program size.Byte load.Byte (negsuc 0)) 0xFE 3 }
    ensures ldxh { AlwaysEnds (worked.negative_program size.Half load.Half (negsuc 1)) 0xFFFE 3 }
    ensures ldxw { AlwaysEnds
        (worked.negative_program size.Word load.Word (negsuc 3)) 0xFFFFFFFE 3 }
    ensures ldxdw { AlwaysEnds
        (worked.negative_program size.Double load.Double (negsuc 7)) 0xFFFFFFFFFFFFFFFE 3 }
    ensures ldsxb { AlwaysEnds
        (worked.negative_program size.Byte load.SignedByte (negsuc 0)) 0xFFFFFFFFFFFFFFFE 3 }
    ensures ldsxh { AlwaysEnds
        (worked.negative_program size.Half load.SignedHalf (negsuc 1)) 0xFFFFFFFFFFFFFFFE 3 }
    ensures ldsxw { AlwaysEnds
        (worked.negative_program size.Word load.SignedWord (negsuc 3)) 0xFFFFFFFFFFFFFFFE 3 }
{}

/// A number that isn't negative is unchanged: `stb [r10-1], 127 / ldsxb r0, [r10-1] / exit` ends
/// with 127, and likewise `sth` with `ldsxh` and `stw` with `ldsxw`.
pub fn positive_loads()
    ensures ldsxb { AlwaysEnds
        (worked.positive_program size.Byte load.SignedByte (negsuc 0)) 127 3 }
    ensures ldsxh { AlwaysEnds
        (worked.positive_program size.Half load.SignedHalf (negsuc 1)) 127 3 }
    ensures ldsxw { AlwaysEnds
        (worked.positive_program size.Word load.SignedWord (negsuc 3)) 127 3 }
{}
