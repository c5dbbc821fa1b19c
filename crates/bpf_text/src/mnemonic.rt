//! Mnemonics. A mnemonic is a stem, which names the operation, and a suffix, which names its width
//! or size: `add` and `32`, `ldx` and `dw`.

ghost use Rattle.std.specs.Prelude.{◌≡◌};
ghost use Rattle.bpf_text.specs.Words.{
  alu_stem,
  condition_stem,
  atomic_stem,
  order_stem,
  load_suffix,
  size_suffix,
  atomic_suffix,
  end_suffix,
  extension_suffix,
  bits_suffix,
  stem_of,
  suffix_of,
  load_stem,
};

use bpf_insn::{
    AluOp, AtomicOp, AtomicSize, Bits, ByteOrder, Condition, EndSize, Extension, LoadKind, Size,
};

/// The parts of a mnemonic: the form of RFC 9669's encoding, without its operands.
#[derive(Clone, Copy)]
pub enum Mnemonic {
    Alu(Bits, AluOp),
    Mov(Bits),
    MovSx(Extension),
    Neg(Bits),
    End(ByteOrder, EndSize),
    Jump,
    JumpLong,
    JumpIf(Bits, Condition),
    Call,
    Exit,
    Load(LoadKind),
    StoreImm(Size),
    Store(Size),
    Atomic(AtomicOp, AtomicSize),
    LoadNumber,
    LoadMap,
    LoadCell,
}

fn alu_stem(op: AluOp) -> &'static str
    ensures { result.now ≡ alu_stem op }
{
    match op {
        AluOp::Add => "add",
        AluOp::Sub => "sub",
        AluOp::Mul => "mul",
        AluOp::Div => "div",
        AluOp::Sdiv => "sdiv",
        AluOp::Or => "or",
        AluOp::And => "and",
        AluOp::Lsh => "lsh",
        AluOp::Rsh => "rsh",
        AluOp::Mod => "mod",
        AluOp::Smod => "smod",
        AluOp::Xor => "xor",
        AluOp::Arsh => "arsh",
    }
}

fn condition_stem(condition: Condition) -> &'static str
    ensures { result.now ≡ condition_stem condition }
{
    match condition {
        Condition::Eq => "jeq",
        Condition::Gt => "jgt",
        Condition::Ge => "jge",
        Condition::Set => "jset",
        Condition::Ne => "jne",
        Condition::Sgt => "jsgt",
        Condition::Sge => "jsge",
        Condition::Lt => "jlt",
        Condition::Le => "jle",
        Condition::Slt => "jslt",
        Condition::Sle => "jsle",
    }
}

fn atomic_stem(op: AtomicOp) -> &'static str
    ensures { result.now ≡ atomic_stem op }
{
    match op {
        AtomicOp::Add => "aadd",
        AtomicOp::Or => "aor",
        AtomicOp::And => "aand",
        AtomicOp::Xor => "axor",
        AtomicOp::FetchAdd => "fadd",
        AtomicOp::FetchOr => "for",
        AtomicOp::FetchAnd => "fand",
        AtomicOp::FetchXor => "fxor",
        AtomicOp::Exchange => "xchg",
        AtomicOp::CompareExchange => "cmpxchg",
    }
}

fn order_stem(order: ByteOrder) -> &'static str
    ensures { result.now ≡ order_stem order }
{
    match order {
        ByteOrder::Little => "le",
        ByteOrder::Big => "be",
        ByteOrder::Swap => "swap",
    }
}

fn load_stem(kind: LoadKind) -> &'static str
    ensures { result.now ≡ load_stem kind }
{
    match kind {
        LoadKind::Byte | LoadKind::Half | LoadKind::Word | LoadKind::Double => "ldx",
        LoadKind::SignedByte | LoadKind::SignedHalf | LoadKind::SignedWord => "ldsx",
    }
}

fn load_suffix(kind: LoadKind) -> &'static str
    ensures { result.now ≡ load_suffix kind }
{
    match kind {
        LoadKind::Byte | LoadKind::SignedByte => "b",
        LoadKind::Half | LoadKind::SignedHalf => "h",
        LoadKind::Word | LoadKind::SignedWord => "w",
        LoadKind::Double => "dw",
    }
}

fn size_suffix(size: Size) -> &'static str
    ensures { result.now ≡ size_suffix size }
{
    match size {
        Size::Byte => "b",
        Size::Half => "h",
        Size::Word => "w",
        Size::Double => "dw",
    }
}

fn atomic_suffix(size: AtomicSize) -> &'static str
    ensures { result.now ≡ atomic_suffix size }
{
    match size {
        AtomicSize::Word => "w",
        AtomicSize::Double => "dw",
    }
}

fn end_suffix(size: EndSize) -> &'static str
    ensures { result.now ≡ end_suffix size }
{
    match size {
        EndSize::Half => "16",
        EndSize::Word => "32",
        EndSize::Double => "64",
    }
}

fn extension_suffix(extension: Extension) -> &'static str
    ensures { result.now ≡ extension_suffix extension }
{
    match extension {
        Extension::Byte64 => "8",
        Extension::Half64 => "16",
        Extension::Word64 => "32",
        Extension::Byte32 => "8w",
        Extension::Half32 => "16w",
    }
}

fn bits_suffix(bits: Bits) -> &'static str
    ensures { result.now ≡ bits_suffix bits }
{
    match bits {
        Bits::Bits64 => "",
        Bits::Bits32 => "32",
    }
}

impl Mnemonic {
    /// The first part of the mnemonic.
    pub fn stem(self) -> &'static str
        ensures { result.now ≡ stem_of self }
    {
        match self {
            Mnemonic::Alu(_, op) => alu_stem(op),
            Mnemonic::Mov(_) => "mov",
            Mnemonic::MovSx(_) => "movsx",
            Mnemonic::Neg(_) => "neg",
            Mnemonic::End(order, _) => order_stem(order),
            Mnemonic::Jump => "ja",
            Mnemonic::JumpLong => "jal",
            Mnemonic::JumpIf(_, condition) => condition_stem(condition),
            Mnemonic::Call => "call",
            Mnemonic::Exit => "exit",
            Mnemonic::Load(kind) => load_stem(kind),
            Mnemonic::StoreImm(_) => "st",
            Mnemonic::Store(_) => "stx",
            Mnemonic::Atomic(op, _) => atomic_stem(op),
            Mnemonic::LoadNumber => "lddw",
            Mnemonic::LoadMap => "ldmap",
            Mnemonic::LoadCell => "ldcell",
        }
    }

    /// The rest of the mnemonic.
    pub fn suffix(self) -> &'static str
        ensures { result.now ≡ suffix_of self }
    {
        match self {
            Mnemonic::Alu(bits, _) | Mnemonic::Mov(bits) => bits_suffix(bits),
            Mnemonic::Neg(bits) | Mnemonic::JumpIf(bits, _) => bits_suffix(bits),
            Mnemonic::MovSx(extension) => extension_suffix(extension),
            Mnemonic::End(_, size) => end_suffix(size),
            Mnemonic::Load(kind) => load_suffix(kind),
            Mnemonic::StoreImm(size) | Mnemonic::Store(size) => size_suffix(size),
            Mnemonic::Atomic(_, size) => atomic_suffix(size),
            Mnemonic::Jump | Mnemonic::JumpLong | Mnemonic::Call | Mnemonic::Exit => "",
            Mnemonic::LoadNumber | Mnemonic::LoadMap | Mnemonic::LoadCell => "",
        }
    }
}
