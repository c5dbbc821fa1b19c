//! Equality of instructions: different instructions have different encodings.

ghost use Rattle.std.specs.Prelude.{◌≡◌, IsTrue};
ghost use Rattle.bpf_insn.specs.Spelling.{Spells};

use bpf_insn::{Insn, decode_at, encode};

fn are_same(bytes: &[u8], others: &[u8]) -> bool
    ensures { IsTrue result → bytes.now ≡ others.now }
{
    bytes == others
}

/// Law: bytes that spell two instructions spell the same one. The proof decodes them.
fn spell_one(bytes: &[u8], others: &[u8], insn: Insn, other: Insn)
    requires first { Spells bytes.now 0 insn }
    requires second { Spells others.now 0 other }
    requires same { bytes.now ≡ others.now }
    ensures { insn ≡ other }
{
    let _ = others;
    let _ = decode_at(bytes, 0);
}

/// Whether the instructions are the same.
pub fn is_same(insn: Insn, other: Insn) -> bool
    ensures { IsTrue result → insn ≡ other }
{
    let (bytes, count) = encode(&insn);
    let (others, length) = encode(&other);
    if !are_same(&bytes[..count], &others[..length]) {
        return false;
    }
    spell_one(&bytes[..count], &others[..length], insn, other);
    true
}
