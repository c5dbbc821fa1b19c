//! Whole programs that read the context, for all attributes.

ghost use Rattle.std.specs.Prelude.{◌≡◌, ◌<◌, ◌≤◌, slice_index};
ghost use Rattle.attrs.specs.Attributes.{Attributes};
ghost use Rattle.bpf_semantics.specs.Run.{EndsWith, AlwaysEnds};
ghost use Rattle.worked_examples.specs.ContextPrograms as worked;

/// `ldxh r2, [r1+16] / mov r0, 0 / jge r2, 100, +1 / mov r0, 1 / exit` chooses release 1 for the
/// buckets below 100 after five instructions, and no release for the others after four.
pub fn buckets()
    ensures below { (a : Attributes) → a.context.bucket < 100
        → EndsWith worked.bucket_program a 1 5 }
    ensures from_limit { (a : Attributes) → 100 ≤ a.context.bucket → a.context.bucket < 10000
        → EndsWith worked.bucket_program a 0 4 }
{}

/// `ldxw r2, [r1+0] / mov r0, 0 / jslt32 r2, 0, +1 / mov r0, 1 / exit` reads the first number of
/// the version as a signed 32-bit number.
pub fn versions()
    ensures small { (a : Attributes) → slice_index a.context.version 0 ≡ 1
        → EndsWith worked.version_program a 1 5 }
    ensures largest { (a : Attributes) → slice_index a.context.version 0 ≡ 4294967295
        → EndsWith worked.version_program a 0 4 }
{}

/// The last bytes of the context are zero: `ldxb r0, [r1+63] / exit` and
/// `ldxdw r0, [r1+56] / exit` end with 0.
pub fn context_end()
    ensures byte { AlwaysEnds worked.last_byte_program 0 2 }
    ensures double { AlwaysEnds worked.last_double_program 0 2 }
{}
