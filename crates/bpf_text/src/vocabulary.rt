//! Mnemonics and registers by their text, each in one table.

ghost use Rattle.std.specs.Prelude.{◌≡◌};
ghost use Rattle.std.specs.Str.{bytes_eq};
ghost use Rattle.std.specs.List.{find};
ghost use Rattle.bpf_text.specs.Words.{word_of};
ghost use Rattle.bpf_text.specs.Listing.{register_text};
ghost use Rattle.bpf_text.specs.Tables.{mnemonic_named, register_named};

use crate::lister::register_name;
use crate::mnemonic::Mnemonic;
use bpf_insn::{
    AluOp, AtomicOp, AtomicSize, Bits, ByteOrder, Condition, EndSize, Extension, LoadKind, Reg,
    Size,
};

/// Every mnemonic once.
pub static MNEMONICS: [Mnemonic; 108] = [
    Mnemonic::Alu(Bits::Bits64, AluOp::Add),
    Mnemonic::Alu(Bits::Bits64, AluOp::Sub),
    Mnemonic::Alu(Bits::Bits64, AluOp::Mul),
    Mnemonic::Alu(Bits::Bits64, AluOp::Div),
    Mnemonic::Alu(Bits::Bits64, AluOp::Sdiv),
    Mnemonic::Alu(Bits::Bits64, AluOp::Or),
    Mnemonic::Alu(Bits::Bits64, AluOp::And),
    Mnemonic::Alu(Bits::Bits64, AluOp::Lsh),
    Mnemonic::Alu(Bits::Bits64, AluOp::Rsh),
    Mnemonic::Alu(Bits::Bits64, AluOp::Mod),
    Mnemonic::Alu(Bits::Bits64, AluOp::Smod),
    Mnemonic::Alu(Bits::Bits64, AluOp::Xor),
    Mnemonic::Alu(Bits::Bits64, AluOp::Arsh),
    Mnemonic::Alu(Bits::Bits32, AluOp::Add),
    Mnemonic::Alu(Bits::Bits32, AluOp::Sub),
    Mnemonic::Alu(Bits::Bits32, AluOp::Mul),
    Mnemonic::Alu(Bits::Bits32, AluOp::Div),
    Mnemonic::Alu(Bits::Bits32, AluOp::Sdiv),
    Mnemonic::Alu(Bits::Bits32, AluOp::Or),
    Mnemonic::Alu(Bits::Bits32, AluOp::And),
    Mnemonic::Alu(Bits::Bits32, AluOp::Lsh),
    Mnemonic::Alu(Bits::Bits32, AluOp::Rsh),
    Mnemonic::Alu(Bits::Bits32, AluOp::Mod),
    Mnemonic::Alu(Bits::Bits32, AluOp::Smod),
    Mnemonic::Alu(Bits::Bits32, AluOp::Xor),
    Mnemonic::Alu(Bits::Bits32, AluOp::Arsh),
    Mnemonic::Mov(Bits::Bits64),
    Mnemonic::Mov(Bits::Bits32),
    Mnemonic::MovSx(Extension::Byte64),
    Mnemonic::MovSx(Extension::Half64),
    Mnemonic::MovSx(Extension::Word64),
    Mnemonic::MovSx(Extension::Byte32),
    Mnemonic::MovSx(Extension::Half32),
    Mnemonic::Neg(Bits::Bits64),
    Mnemonic::Neg(Bits::Bits32),
    Mnemonic::End(ByteOrder::Little, EndSize::Half),
    Mnemonic::End(ByteOrder::Little, EndSize::Word),
    Mnemonic::End(ByteOrder::Little, EndSize::Double),
    Mnemonic::End(ByteOrder::Big, EndSize::Half),
    Mnemonic::End(ByteOrder::Big, EndSize::Word),
    Mnemonic::End(ByteOrder::Big, EndSize::Double),
    Mnemonic::End(ByteOrder::Swap, EndSize::Half),
    Mnemonic::End(ByteOrder::Swap, EndSize::Word),
    Mnemonic::End(ByteOrder::Swap, EndSize::Double),
    Mnemonic::Jump,
    Mnemonic::JumpLong,
    Mnemonic::JumpIf(Bits::Bits64, Condition::Eq),
    Mnemonic::JumpIf(Bits::Bits64, Condition::Gt),
    Mnemonic::JumpIf(Bits::Bits64, Condition::Ge),
    Mnemonic::JumpIf(Bits::Bits64, Condition::Set),
    Mnemonic::JumpIf(Bits::Bits64, Condition::Ne),
    Mnemonic::JumpIf(Bits::Bits64, Condition::Sgt),
    Mnemonic::JumpIf(Bits::Bits64, Condition::Sge),
    Mnemonic::JumpIf(Bits::Bits64, Condition::Lt),
    Mnemonic::JumpIf(Bits::Bits64, Condition::Le),
    Mnemonic::JumpIf(Bits::Bits64, Condition::Slt),
    Mnemonic::JumpIf(Bits::Bits64, Condition::Sle),
    Mnemonic::JumpIf(Bits::Bits32, Condition::Eq),
    Mnemonic::JumpIf(Bits::Bits32, Condition::Gt),
    Mnemonic::JumpIf(Bits::Bits32, Condition::Ge),
    Mnemonic::JumpIf(Bits::Bits32, Condition::Set),
    Mnemonic::JumpIf(Bits::Bits32, Condition::Ne),
    Mnemonic::JumpIf(Bits::Bits32, Condition::Sgt),
    Mnemonic::JumpIf(Bits::Bits32, Condition::Sge),
    Mnemonic::JumpIf(Bits::Bits32, Condition::Lt),
    Mnemonic::JumpIf(Bits::Bits32, Condition::Le),
    Mnemonic::JumpIf(Bits::Bits32, Condition::Slt),
    Mnemonic::JumpIf(Bits::Bits32, Condition::Sle),
    Mnemonic::Call,
    Mnemonic::Exit,
    Mnemonic::Load(LoadKind::Byte),
    Mnemonic::Load(LoadKind::Half),
    Mnemonic::Load(LoadKind::Word),
    Mnemonic::Load(LoadKind::Double),
    Mnemonic::Load(LoadKind::SignedByte),
    Mnemonic::Load(LoadKind::SignedHalf),
    Mnemonic::Load(LoadKind::SignedWord),
    Mnemonic::StoreImm(Size::Byte),
    Mnemonic::StoreImm(Size::Half),
    Mnemonic::StoreImm(Size::Word),
    Mnemonic::StoreImm(Size::Double),
    Mnemonic::Store(Size::Byte),
    Mnemonic::Store(Size::Half),
    Mnemonic::Store(Size::Word),
    Mnemonic::Store(Size::Double),
    Mnemonic::Atomic(AtomicOp::Add, AtomicSize::Word),
    Mnemonic::Atomic(AtomicOp::Add, AtomicSize::Double),
    Mnemonic::Atomic(AtomicOp::Or, AtomicSize::Word),
    Mnemonic::Atomic(AtomicOp::Or, AtomicSize::Double),
    Mnemonic::Atomic(AtomicOp::And, AtomicSize::Word),
    Mnemonic::Atomic(AtomicOp::And, AtomicSize::Double),
    Mnemonic::Atomic(AtomicOp::Xor, AtomicSize::Word),
    Mnemonic::Atomic(AtomicOp::Xor, AtomicSize::Double),
    Mnemonic::Atomic(AtomicOp::FetchAdd, AtomicSize::Word),
    Mnemonic::Atomic(AtomicOp::FetchAdd, AtomicSize::Double),
    Mnemonic::Atomic(AtomicOp::FetchOr, AtomicSize::Word),
    Mnemonic::Atomic(AtomicOp::FetchOr, AtomicSize::Double),
    Mnemonic::Atomic(AtomicOp::FetchAnd, AtomicSize::Word),
    Mnemonic::Atomic(AtomicOp::FetchAnd, AtomicSize::Double),
    Mnemonic::Atomic(AtomicOp::FetchXor, AtomicSize::Word),
    Mnemonic::Atomic(AtomicOp::FetchXor, AtomicSize::Double),
    Mnemonic::Atomic(AtomicOp::Exchange, AtomicSize::Word),
    Mnemonic::Atomic(AtomicOp::Exchange, AtomicSize::Double),
    Mnemonic::Atomic(AtomicOp::CompareExchange, AtomicSize::Word),
    Mnemonic::Atomic(AtomicOp::CompareExchange, AtomicSize::Double),
    Mnemonic::LoadNumber,
    Mnemonic::LoadMap,
    Mnemonic::LoadCell,
];

/// Every register once.
pub static REGISTERS: [Reg; 11] = [
    Reg::R0,
    Reg::R1,
    Reg::R2,
    Reg::R3,
    Reg::R4,
    Reg::R5,
    Reg::R6,
    Reg::R7,
    Reg::R8,
    Reg::R9,
    Reg::R10,
];

fn is_word(word: &[u8], mnemonic: Mnemonic) -> bool
    ensures { result ≡ bytes_eq word.now (word_of mnemonic) }
{
    match word.strip_prefix(mnemonic.stem().as_bytes()) {
        Some(rest) => rest == mnemonic.suffix().as_bytes(),
        None => false,
    }
}

fn find_mnemonic(table: &[Mnemonic], word: &[u8]) -> Option<Mnemonic>
    ensures { result ≡ find (λ m. bytes_eq word.now (word_of m)) table.now }
{
    table.iter().copied().find(|m| is_word(word, *m))
}

/// The mnemonic with this text.
#[tactic(auto, unfolding(crate::specs::Tables::mnemonic_named))]
pub fn mnemonic_named(word: &[u8]) -> Option<Mnemonic>
    ensures { result ≡ mnemonic_named word.now }
{
    find_mnemonic(&MNEMONICS, word)
}

fn is_name_of(word: &[u8], register: Reg) -> bool
    ensures { result ≡ bytes_eq word.now (register_text register) }
{
    word == register_name(register).as_bytes()
}

fn find_register(table: &[Reg], word: &[u8]) -> Option<Reg>
    ensures { result ≡ find (λ r. bytes_eq word.now (register_text r)) table.now }
{
    table.iter().copied().find(|r| is_name_of(word, *r))
}

/// The register with this text.
#[tactic(auto, unfolding(crate::specs::Tables::register_named))]
pub fn register_named(word: &[u8]) -> Option<Reg>
    ensures { result ≡ register_named word.now }
{
    find_register(&REGISTERS, word)
}
