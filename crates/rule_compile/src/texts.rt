//! Writes the comparison of an attribute with a text: the text is stored below the top of the
//! stack, four bytes at a time, and a helper compares.

ghost use Rattle.std.specs.Prelude.{◌≡◌, ◌<◌, ◌≤◌, ◌+◌, ◌-◌, [], ◌∷◌, length, OnOk};
ghost use Rattle.bpf_insn.specs.Words.{little_endian};
ghost use Rattle.rule_compile.specs.Blocks as code;

use crate::blocks::put_jump;
use crate::code::Code;
use crate::compile_fault::CompileFault;
use crate::instructions as insn;
use bpf_insn::{Condition, Reg};
use bpf_semantics::helpers::ATTR_IS;

/// The last byte of the first word, as the number of bytes between it and the top of the stack.
const FIRST: u8 = 63;

/// The word of four bytes, little-endian.
fn word_of(a: u8, b: u8, c: u8, d: u8) -> u32
    ensures { result ≡ little_endian (a ∷ b ∷ c ∷ d ∷ []) }
{
    a as u32 + 256 * (b as u32 + 256 * (c as u32 + 256 * (d as u32)))
}

/// The place of the next word, four bytes nearer to the top.
fn word_after(left: u8) -> u8
    ensures { result ≡ left - 4 }
{
    if left < 4 { 0 } else { left - 4 }
}

/// The stores of a text, in words that are padded with zeroes.
#[tactic(auto, using(crate::proofs::Before::storing))]
fn put_stores(rest: &mut Code, left: u8, text: &[u8]) -> Result<(), CompileFault>
    ensures code { OnOk result (rest.new ≡ code.stores_code left text.now rest.old) }
    ensures long { result ≡ Err CompileFault.TooLong
        → 4096 < length (code.stores_code left text.now rest.old) }
{
    match text {
        [] => Ok(()),
        [a] => rest.put(insn::store_word(left, word_of(*a, 0, 0, 0))),
        [a, b] => rest.put(insn::store_word(left, word_of(*a, *b, 0, 0))),
        [a, b, c] => rest.put(insn::store_word(left, word_of(*a, *b, *c, 0))),
        [a, b, c, d, later @ ..] => {
            put_stores(rest, word_after(left), later)?;
            rest.put(insn::store_word(left, word_of(*a, *b, *c, *d)))
        }
    }
}

/// The call that compares the attribute with the stored text.
fn put_comparison(rest: &mut Code, attribute: u8, size: u8) -> Result<(), CompileFault>
    ensures code { OnOk result (rest.new ≡ code.compare_code attribute size rest.old) }
    ensures long { result ≡ Err CompileFault.TooLong → 4096 < length rest.old + 5 }
{
    rest.put(insn::call(ATTR_IS as u8))?;
    rest.put(insn::set_argument(Reg::R3, size))?;
    rest.put(insn::point_at_text())?;
    rest.put(insn::copy_top())?;
    rest.put(insn::set_argument(Reg::R1, attribute))
}

/// Tests whether an attribute, by its number, equals the text.
#[tactic(auto, using(crate::proofs::Before::storing))]
pub fn put_attribute(
    rest: &mut Code,
    attribute: u8,
    text: &[u8],
    sense: bool,
    label: usize,
) -> Result<(), CompileFault>
    requires label { label ≤ length rest.old }
    requires short { length text.now ≤ 64 }
    ensures code { OnOk result
        (rest.new ≡ code.attribute_code attribute text.now sense label rest.old) }
    ensures long { result ≡ Err CompileFault.TooLong
        → 4096 < length (code.attribute_code attribute text.now sense label rest.old) }
{
    put_jump(rest, insn::turned(sense, Condition::Ne), Reg::R0, 0, label)?;
    put_comparison(rest, attribute, text.len() as u8)?;
    put_stores(rest, FIRST, text)
}
