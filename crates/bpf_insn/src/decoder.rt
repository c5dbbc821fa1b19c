//! The decoder. It splits the first half into fields, looks up the row by the opcode, and builds
//! the instruction if the fields break no rule of the row. For a wide load it also reads the second
//! half.

ghost use Rattle.std.specs.Prelude.{◌≡◌, ◌<◌, ◌≤◌, ◌+◌, ◌*◌, length, IfSome, IfNone, IfOk, IfErr};
ghost use Rattle.bpf_insn.specs.declared.insn.Insn.{Insn};
ghost use Rattle.bpf_insn.specs.declared.fields.InsnFault.{InsnFault};
ghost use Rattle.bpf_insn.specs.Spelling.{width_of, HasFields, Spells, IsLeastFault};
ghost use Rattle.bpf_insn.specs.Halves.{IsOfRow, IsOnlySpelling, SpellsOrHasFault};

use crate::build::{common_fault, insn_in, wide_in};
use crate::fields::{Fields, InsnFault};
use crate::form::Form;
use crate::insn::{Insn, Width};
use crate::insn_fault::is_second_half;
use crate::layout::split_fields;
use crate::opcode::form_at;

/// The fields of the half in this slot, if all its eight bytes exist.
fn half_at(bytes: &[u8], slot: usize) -> Option<Fields>
    ensures some { IfSome result (λ f. HasFields bytes.now slot f) }
    ensures room { IfSome result (λ f. 8 * slot + 8 ≤ length bytes.now) }
    ensures none { IfNone result (length bytes.now < 8 * slot + 8) }
{
    if slot >= bytes.len() / 8 {
        return None;
    }
    Some(split_fields(&bytes[8 * slot..8 * slot + 8]))
}

/// The wide load whose first half is in this slot.
fn wide_at(bytes: &[u8], slot: usize, first: Fields) -> Result<Insn, InsnFault>
    requires room { 8 * slot + 8 ≤ length bytes.now }
    requires first { HasFields bytes.now slot first }
    requires row { IsOfRow Form.Wide first }
    ensures insn { IfOk result (λ i. IsOnlySpelling bytes.now slot i) }
    ensures fault { IfErr result (λ e. IsLeastFault bytes.now slot e) }
{
    let Some(second) = half_at(bytes, slot + 1) else {
        return Err(InsnFault::Truncated);
    };
    if let Some(fault) = common_fault(Form::Wide, first) {
        return Err(fault);
    }
    if !is_second_half(first.src, second) {
        return Err(InsnFault::SecondHalf);
    }
    Ok(wide_in(first, second))
}

/// The instruction whose first half is in this slot, by its row.
#[inline(always)]
fn row_at(bytes: &[u8], slot: usize, form: Form, first: Fields) -> Result<Insn, InsnFault>
    requires room { 8 * slot + 8 ≤ length bytes.now }
    requires first { HasFields bytes.now slot first }
    requires row { IsOfRow form first }
    ensures insn { IfOk result (λ i. IsOnlySpelling bytes.now slot i) }
    ensures fault { IfErr result (λ e. IsLeastFault bytes.now slot e) }
    ensures exclusive { SpellsOrHasFault bytes.now slot }
{
    match form {
        Form::Wide => wide_at(bytes, slot, first),
        _ => insn_in(form, first),
    }
}

/// The instruction that the bytes from this slot spell.
#[inline(always)]
fn insn_at(bytes: &[u8], slot: usize) -> Result<Insn, InsnFault>
    ensures insn { IfOk result (λ i. IsOnlySpelling bytes.now slot i) }
    ensures fault { IfErr result (λ e. IsLeastFault bytes.now slot e) }
    ensures exclusive { SpellsOrHasFault bytes.now slot }
{
    let Some(first) = half_at(bytes, slot) else {
        return Err(InsnFault::Truncated);
    };
    match form_at(first.opcode) {
        Some(form) => row_at(bytes, slot, form, first),
        None => Err(InsnFault::Opcode),
    }
}

/// The instruction that the bytes from `slot` spell, and its number of slots; or the least fault of
/// the bytes (RFC 9669, "Instruction Encoding"). Any slot is allowed: past the end the bytes are
/// truncated.
#[inline(always)]
pub fn decode_at(bytes: &[u8], slot: usize) -> Result<(Insn, Width), InsnFault>
    ensures spelled { IfOk result (λ d. Spells bytes.now slot d.0 × (d.1 ≡ width_of d.0)) }
    ensures only { (i : Insn) → Spells bytes.now slot i → result ≡ Ok (i, width_of i) }
    ensures fault { IfErr result (λ e. IsLeastFault bytes.now slot e) }
    ensures fault_only { (e : InsnFault) → IsLeastFault bytes.now slot e → result ≡ Err e }
{
    match insn_at(bytes, slot) {
        Ok(insn) => Ok((insn, insn.width())),
        Err(fault) => Err(fault),
    }
}
