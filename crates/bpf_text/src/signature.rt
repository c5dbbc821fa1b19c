//! The signature of each instruction: the operands after its mnemonic.

ghost use Rattle.std.specs.Prelude.{◌≡◌};
ghost use Rattle.bpf_text.specs.Signatures.{kinds_of};

use crate::mnemonic::Mnemonic;
use crate::three::{UpToThree, none, one, three, two};

/// The kind of an operand.
#[derive(Clone, Copy)]
pub enum OperandKind {
    Register,
    /// A register or an imm.
    Source,
    /// A 32-bit number.
    Imm,
    /// A 64-bit number.
    Number,
    /// A register in brackets, with a 16-bit offset.
    Memory,
    /// A label, or a 16-bit distance.
    ShortWay,
    /// A label, or a 32-bit distance.
    LongWay,
}

/// The kinds of the operands after a mnemonic.
pub fn kinds_of(mnemonic: Mnemonic) -> UpToThree<OperandKind>
    ensures { result ≡ kinds_of mnemonic }
{
    match mnemonic {
        Mnemonic::Alu(_, _) | Mnemonic::Mov(_) => two(OperandKind::Register, OperandKind::Source),
        Mnemonic::MovSx(_) => two(OperandKind::Register, OperandKind::Register),
        Mnemonic::Neg(_) | Mnemonic::End(_, _) => one(OperandKind::Register),
        Mnemonic::Jump => one(OperandKind::ShortWay),
        Mnemonic::JumpLong => one(OperandKind::LongWay),
        Mnemonic::JumpIf(_, _) => three(
            OperandKind::Register,
            OperandKind::Source,
            OperandKind::ShortWay,
        ),
        Mnemonic::Call => one(OperandKind::Imm),
        Mnemonic::Exit => none(),
        Mnemonic::Load(_) => two(OperandKind::Register, OperandKind::Memory),
        Mnemonic::StoreImm(_) => two(OperandKind::Memory, OperandKind::Imm),
        Mnemonic::Store(_) | Mnemonic::Atomic(_, _) => two(
            OperandKind::Memory,
            OperandKind::Register,
        ),
        Mnemonic::LoadNumber => two(OperandKind::Register, OperandKind::Number),
        Mnemonic::LoadMap => two(OperandKind::Register, OperandKind::Imm),
        Mnemonic::LoadCell => three(OperandKind::Register, OperandKind::Imm, OperandKind::Imm),
    }
}
