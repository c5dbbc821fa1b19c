//! Laws about the definitions: the tables agree, and neither a text nor bytes have two verdicts.

ghost use Rattle.std.specs.Prelude.{ℕ, List};
ghost use Rattle.bpf_text.specs.Assembly.{HasOneAssembly};
ghost use Rattle.bpf_text.specs.Listing.{HasOneListing};
ghost use Rattle.bpf_text.specs.Remarks.{RemarkedInsn, RemarksAreSkipped};
ghost use Rattle.bpf_text.specs.Signatures.{KindsAgree};
ghost use Rattle.bpf_text.specs.States.{ReadsAsStated};
ghost use Rattle.bpf_text.specs.Vocabulary.{Vocabulary, IsExact};

use bpf_insn::decode_at;

/// Law: the operand kinds of a mnemonic agree with the arguments of its instructions. So operands
/// that are read by these kinds are always those of an instruction.
pub fn kinds_agree()
    ensures { KindsAgree }
{}

/// Law: a line is read as an instruction exactly if its word is the instruction's mnemonic, its
/// operands are the instruction's arguments, and their numbers fit their fields.
pub fn reads_as_stated()
    ensures { (v : Vocabulary) → IsExact v → ReadsAsStated v }
{}

/// Law: a text assembles to one list of bytes, or has one fault.
pub fn one_assembly()
    ensures { (text : List ℕ) → HasOneAssembly text }
{}

/// Law: a listing with a comment at the end of each line assembles to the same bytes.
pub fn remarks_are_skipped()
    ensures { (lines : List RemarkedInsn) → RemarksAreSkipped lines }
{}

/// Law: bytes have one listing, or one first fault. The proof decodes at each slot.
pub fn one_listing(bytes: &[u8])
    ensures { HasOneListing bytes.now }
{
    for slot in 0..bytes.len() {
        let _ = decode_at(bytes, slot);
    }
}
