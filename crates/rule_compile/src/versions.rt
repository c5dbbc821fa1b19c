//! Writes the comparison of versions: word by word, and the first different word decides.

ghost use Rattle.std.specs.Prelude.{◌≡◌, ◌<◌, ◌≤◌, ◌+◌, ◌*◌, length, OnOk};
ghost use Rattle.rule_compile.specs.Blocks as code;

use crate::blocks::{label_if, put_field, put_jump};
use crate::code::Code;
use crate::compile_fault::CompileFault;
use crate::instructions::turned;
use bpf_insn::{Condition, LoadKind, Reg};

/// Compares the k-th word of the version with a number.
fn put_word(
    rest: &mut Code,
    k: u8,
    condition: Condition,
    number: u32,
    label: usize,
) -> Result<(), CompileFault>
    requires label { label ≤ length rest.old }
    requires word { k < 4 }
    ensures code { OnOk result
        (rest.new ≡ code.word_code k condition number label rest.old) }
    ensures long { result ≡ Err CompileFault.TooLong → 4096 < length rest.old + 2 }
{
    put_field(rest, LoadKind::Word, 4 * k, condition, number, label)
}

/// Tests whether the words from the k-th on equal these numbers.
#[tactic(auto, using(crate::proofs::VersionWords::equal_longer))]
pub fn put_equal(
    rest: &mut Code,
    k: u8,
    numbers: &[u32],
    sense: bool,
    label: usize,
) -> Result<(), CompileFault>
    requires label { label ≤ length rest.old }
    requires words { k + length numbers.now ≤ 4 }
    ensures code { OnOk result
        (rest.new ≡ code.equal_code k numbers.now sense label rest.old) }
    ensures long { result ≡ Err CompileFault.TooLong
        → 4096 < length (code.equal_code k numbers.now sense label rest.old) }
    ensures longer { OnOk result (length rest.old ≤ length rest.new) }
{
    match numbers {
        [] => Ok(()),
        [number] => put_word(rest, k, turned(sense, Condition::Eq), *number, label),
        [number, later @ ..] => {
            let other = label_if(sense, rest.len(), label);
            put_equal(rest, k + 1, later, sense, label)?;
            put_word(rest, k, Condition::Ne, *number, other)
        }
    }
}

/// Compares the words from the k-th on with these numbers: by `strict` for all but the last, and by
/// `last` for the last.
#[tactic(auto, using(crate::proofs::VersionWords::order_longer))]
pub fn put_order(
    rest: &mut Code,
    strict: Condition,
    last: Condition,
    k: u8,
    numbers: &[u32],
    sense: bool,
    label: usize,
) -> Result<(), CompileFault>
    requires label { label ≤ length rest.old }
    requires words { k + length numbers.now ≤ 4 }
    ensures code { OnOk result
        (rest.new ≡ code.order_code strict last k numbers.now sense label rest.old) }
    ensures long { result ≡ Err CompileFault.TooLong
        → 4096 < length (code.order_code strict last k numbers.now sense label rest.old) }
    ensures longer { OnOk result (length rest.old ≤ length rest.new) }
{
    match numbers {
        [] => Ok(()),
        [number] => put_word(rest, k, turned(sense, last), *number, label),
        [number, later @ ..] => {
            let met = label_if(sense, label, rest.len());
            let other = label_if(sense, rest.len(), label);
            put_order(rest, strict, last, k + 1, later, sense, label)?;
            put_jump(rest, Condition::Ne, Reg::R2, *number, other)?;
            put_word(rest, k, strict, *number, met)
        }
    }
}
