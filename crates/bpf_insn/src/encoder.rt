//! The encoder: the row gives the opcode, the instruction's parts give the other fields, and the
//! second half follows the first.

ghost use Rattle.std.specs.Prelude.{◌≡◌, ℕ, ◌≤◌, length, take, slice_index, IfSome};
ghost use Rattle.bpf_insn.specs.Spelling.{fields_of, second_of, encoding, HasWideNumber};
ghost use Rattle.bpf_insn.specs.Spelling.{IsEncodable, IsFields, Spells};

use crate::fields::Fields;
use crate::insn::Insn;
use crate::layout::join_fields;

/// The fields of an instruction's first half.
fn fields_in(insn: Insn) -> Fields
    ensures is { result ≡ fields_of insn }
    ensures fits { IsFields result }
{
    Fields {
        opcode: insn.form().row().opcode,
        dst: insn.dst(),
        src: insn.src(),
        offset: insn.offset(),
        imm: insn.imm(),
    }
}

/// The fields of an instruction's second half, if it has one.
fn second_in(insn: Insn) -> Option<Fields>
    ensures is { result ≡ second_of insn }
    ensures fits { IfSome result (λ f. IsFields f) }
    ensures number { HasWideNumber insn }
{
    match insn {
        Insn::Wide { value, .. } => Some(Fields {
            opcode: 0,
            dst: 0,
            src: 0,
            offset: 0,
            imm: value.next_imm(),
        }),
        _ => None,
    }
}

/// The bytes of an instruction's halves, and their number.
fn halves_in(insn: Insn) -> ([u8; 16], usize)
    ensures fits { IsEncodable insn }
    ensures length { result.1 ≡ length (encoding insn) }
    ensures bytes { take result.1 result.0 ≡ encoding insn }
    ensures rest { (k : ℕ) → result.1 ≤ k → slice_index result.0 k ≡ 0 }
{
    let mut bytes = [0; 16];
    bytes[..8].copy_from_slice(&join_fields(fields_in(insn)));
    match second_in(insn) {
        None => (bytes, 8),
        Some(second) => {
            bytes[8..].copy_from_slice(&join_fields(second));
            (bytes, 16)
        }
    }
}

/// The bytes of an instruction, and their number: 8, or 16 for a wide load. The bytes after them
/// are 0. `decode_at` reads back what `encode` writes.
pub fn encode(insn: &Insn) -> ([u8; 16], usize)
    ensures length { result.1 ≡ length (encoding insn.now) }
    ensures bytes { take result.1 result.0 ≡ encoding insn.now }
    ensures rest { (k : ℕ) → result.1 ≤ k → slice_index result.0 k ≡ 0 }
    ensures spells { Spells (take result.1 result.0) 0 insn.now }
{
    halves_in(*insn)
}
