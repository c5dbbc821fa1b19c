//! Writes the code of a test in front of the rest: it jumps to the label if the test has the truth
//! value `sense`, and otherwise falls through.

ghost use Rattle.std.specs.Prelude.{◌≡◌, ◌<◌, ◌≤◌, ◌+◌, ◌^◌, length, if◌then◌else◌, OnOk};
ghost use Rattle.std.specs.Prelude.{IfSome};
ghost use Rattle.rule_compile.specs.Blocks as code;
ghost use Rattle.rule_compile.specs.Ranges.{IsBucketInRange};
ghost use Rattle.rule_compile.specs.Instructions as instructions;

use crate::code::Code;
use crate::compile_fault::CompileFault;
use crate::instructions as insn;
use attrs::Context;
use bpf_insn::{AtomicSize, Condition, LoadKind, Reg};
use bpf_semantics::helpers::BUCKET;

/// One of two labels.
pub fn label_if(sense: bool, there: usize, here: usize) -> usize
    ensures { result ≡ (if sense then there else here) }
{
    if sense { there } else { here }
}

/// A jump on the low half of a register.
pub fn put_jump(
    rest: &mut Code,
    condition: Condition,
    left: Reg,
    number: u32,
    label: usize,
) -> Result<(), CompileFault>
    requires { label ≤ length rest.old }
    ensures code { OnOk result
        (rest.new ≡ code.jump_to (instructions.jump_if condition left number) label rest.old) }
    ensures long { result ≡ Err CompileFault.TooLong → 4096 ≤ length rest.old }
{
    let slots = rest.slots_to(label);
    rest.put(insn::jump_if(condition, left, number, slots))
}

/// Compares a field of the context with a number.
pub fn put_field(
    rest: &mut Code,
    kind: LoadKind,
    offset: u8,
    condition: Condition,
    number: u32,
    label: usize,
) -> Result<(), CompileFault>
    requires { label ≤ length rest.old }
    ensures code { OnOk result
        (rest.new ≡ code.field_code kind offset condition number label rest.old) }
    ensures long { result ≡ Err CompileFault.TooLong → 4096 < length rest.old + 2 }
{
    put_jump(rest, condition, Reg::R2, number, label)?;
    rest.put(insn::load_field(kind, offset))
}

/// Tests a flag by its bit.
pub fn put_flag(rest: &mut Code, mask: u8, sense: bool, label: usize) -> Result<(), CompileFault>
    requires { label ≤ length rest.old }
    ensures code { OnOk result (rest.new ≡ code.flag_code mask sense label rest.old) }
    ensures long { result ≡ Err CompileFault.TooLong
        → 4096 < length (code.flag_code mask sense label rest.old) }
{
    if sense {
        return put_field(
            rest,
            LoadKind::Byte,
            Context::FLAGS_OFFSET,
            Condition::Set,
            mask as u32,
            label,
        );
    }
    put_jump(rest, Condition::Eq, Reg::R2, 0, label)?;
    rest.put(insn::mask_field(mask))?;
    rest.put(insn::load_field(LoadKind::Byte, Context::FLAGS_OFFSET))
}

// Compares a register, or its remainder by a modulus, with a number.
fn put_remainder(
    rest: &mut Code,
    modulus: Option<u32>,
    condition: Condition,
    left: Reg,
    number: u32,
    label: usize,
) -> Result<(), CompileFault>
    requires { label ≤ length rest.old }
    ensures code { OnOk result
        (rest.new ≡ code.remainder_code modulus condition left number label rest.old) }
    ensures long { result ≡ Err CompileFault.TooLong
        → 4096 < length (code.remainder_code modulus condition left number label rest.old) }
    ensures range { IfSome modulus (λ m. m < 2 ^ 32) }
{
    match modulus {
        None => put_jump(rest, condition, left, number, label),
        Some(modulus) => {
            let remainder = insn::take_remainder(left, modulus);
            put_jump(rest, condition, left, number, label)?;
            rest.put(remainder)
        }
    }
}

/// Compares the bucket, or the bucket under a salt, with a number; with a modulus, its remainder.
pub fn put_bucket(
    rest: &mut Code,
    salt: Option<u64>,
    modulus: Option<u32>,
    condition: Condition,
    number: u32,
    label: usize,
) -> Result<(), CompileFault>
    requires { label ≤ length rest.old }
    ensures code { OnOk result
        (rest.new ≡ code.bucket_code salt modulus condition number label rest.old) }
    ensures long { result ≡ Err CompileFault.TooLong
        → 4096 < length (code.bucket_code salt modulus condition number label rest.old) }
    ensures range { IsBucketInRange salt modulus number }
{
    match salt {
        None => {
            put_remainder(rest, modulus, condition, Reg::R2, number, label)?;
            rest.put(insn::load_field(LoadKind::Half, Context::BUCKET_OFFSET))
        }
        Some(salt) => {
            let load = insn::load_salt(salt);
            put_remainder(rest, modulus, condition, Reg::R0, number, label)?;
            rest.put(insn::call(BUCKET as u8))?;
            rest.put_wide(load)
        }
    }
}

/// Adds 1 to a cell.
pub fn put_count(
    rest: &mut Code,
    size: AtomicSize,
    array: u32,
    index: u16,
) -> Result<(), CompileFault>
    requires { array < 2 ^ 31 }
    ensures code { OnOk result (rest.new ≡ code.count_code size array index rest.old) }
    ensures long { result ≡ Err CompileFault.TooLong → 4096 < length rest.old + 4 }
{
    rest.put(insn::add_to_cell(size))?;
    rest.put(insn::set_argument(Reg::R2, 1))?;
    rest.put_wide(insn::load_cell(array, index))
}

/// Adds 1 to a cell, and compares the reply with the quota.
pub fn put_take(
    rest: &mut Code,
    array: u32,
    index: u16,
    quota: u64,
    sense: bool,
    label: usize,
) -> Result<(), CompileFault>
    requires label { label ≤ length rest.old }
    requires array { array < 2 ^ 31 }
    ensures code { OnOk result
        (rest.new ≡ code.take_code array index quota sense label rest.old) }
    ensures long { result ≡ Err CompileFault.TooLong → 4096 < length rest.old + 7 }
{
    let slots = rest.slots_to(label);
    rest.put(insn::jump_on_quota(sense, slots))?;
    rest.put_wide(insn::load_quota(quota))?;
    rest.put(insn::take_from_cell())?;
    rest.put(insn::set_argument(Reg::R2, 1))?;
    rest.put_wide(insn::load_cell(array, index))
}
