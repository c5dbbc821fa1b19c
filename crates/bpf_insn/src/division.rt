//! Quotients and remainders (RFC 9669, "Arithmetic Instructions"). Division by 0 gives 0, and its
//! remainder is the dividend. Signed division rounds toward 0.

ghost use Rattle.std.specs.Prelude.{◌≡◌};
ghost use Rattle.std.specs.Int.{w32, w64};
ghost use Rattle.bpf_insn.specs.declared.operand.AluOp.TheVariants.{Div, Sdiv, Mod, Smod};
ghost use Rattle.bpf_insn.specs.Arithmetic.{arithmetic};

/// DIV.
pub fn quotient(x: u64, y: u64) -> u64
    ensures { result ≡ arithmetic w64 Div x y }
{
    if y == 0 { 0 } else { x / y }
}

/// 32-bit DIV.
pub fn quotient32(a: u32, b: u32) -> u32
    ensures { result ≡ arithmetic w32 Div a b }
{
    if b == 0 { 0 } else { a / b }
}

/// SDIV: the least number divided by -1 wraps to itself.
pub fn signed_quotient(x: u64, y: u64) -> u64
    ensures { result ≡ arithmetic w64 Sdiv x y }
{
    if y == 0 {
        0
    } else {
        x.cast_signed()
            .wrapping_div(y.cast_signed())
            .cast_unsigned()
    }
}

/// 32-bit SDIV.
pub fn signed_quotient32(a: u32, b: u32) -> u32
    ensures { result ≡ arithmetic w32 Sdiv a b }
{
    if b == 0 {
        0
    } else {
        a.cast_signed()
            .wrapping_div(b.cast_signed())
            .cast_unsigned()
    }
}

/// MOD.
pub fn remainder(x: u64, y: u64) -> u64
    ensures { result ≡ arithmetic w64 Mod x y }
{
    if y == 0 { x } else { x % y }
}

/// 32-bit MOD.
pub fn remainder32(a: u32, b: u32) -> u32
    ensures { result ≡ arithmetic w32 Mod a b }
{
    if b == 0 { a } else { a % b }
}

/// SMOD: the remainder has the sign of the dividend.
pub fn signed_remainder(x: u64, y: u64) -> u64
    ensures { result ≡ arithmetic w64 Smod x y }
{
    if y == 0 {
        x
    } else {
        x.cast_signed()
            .wrapping_rem(y.cast_signed())
            .cast_unsigned()
    }
}

/// 32-bit SMOD.
pub fn signed_remainder32(a: u32, b: u32) -> u32
    ensures { result ≡ arithmetic w32 Smod a b }
{
    if b == 0 {
        a
    } else {
        a.cast_signed()
            .wrapping_rem(b.cast_signed())
            .cast_unsigned()
    }
}
