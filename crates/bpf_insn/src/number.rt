//! The numbers that encode the parts of an instruction in its fields.

ghost use Rattle.std.specs.Prelude.{◌≡◌, ◌≤◌, ◌<◌, pos};
ghost use Rattle.bpf_insn.specs.Table.{number_of, code_of, offset_of};
ghost use Rattle.bpf_insn.specs.Table.{end_bits, atomic_code, source_code};
ghost use Rattle.bpf_insn.specs.Table.{extension_class, extension_bits};
ghost use Rattle.bpf_insn.specs.Spelling.{source_of, src_field, imm_field};
ghost use Rattle.bpf_insn.specs.Spelling.{wide_source, wide_imm, next_imm};

use crate::form::{AluCode, Source};
use crate::operand::{AluOp, AtomicOp, Bits, EndSize, Extension, Operand, WideValue};
use crate::reg::Reg;

impl Reg {
    /// Its number in dst or src.
    pub(crate) fn number(self) -> u8
        ensures number { result ≡ number_of self }
        ensures in_range { result ≤ 10 }
    {
        self as u8
    }
}

impl Operand {
    /// K for an imm, X for a register.
    pub(crate) fn source(self) -> Source
        ensures { result ≡ source_of self }
    {
        match self {
            Operand::Imm(_) => Source::K,
            Operand::Register(_) => Source::X,
        }
    }

    /// Its number in src.
    pub(crate) fn src(self) -> u8
        ensures src { result ≡ src_field self }
        ensures in_range { result ≤ 10 }
    {
        match self {
            Operand::Imm(_) => 0,
            Operand::Register(register) => register.number(),
        }
    }

    /// Its number in imm.
    pub(crate) fn imm(self) -> i32
        ensures { result ≡ imm_field self }
    {
        match self {
            Operand::Imm(imm) => imm,
            Operand::Register(_) => 0,
        }
    }
}

impl AluOp {
    /// Its code; a signed operation has the code of the unsigned one.
    pub(crate) fn code(self) -> AluCode
        ensures { result ≡ code_of self }
    {
        match self {
            AluOp::Add => AluCode::Add,
            AluOp::Sub => AluCode::Sub,
            AluOp::Mul => AluCode::Mul,
            AluOp::Div | AluOp::Sdiv => AluCode::Div,
            AluOp::Or => AluCode::Or,
            AluOp::And => AluCode::And,
            AluOp::Lsh => AluCode::Lsh,
            AluOp::Rsh => AluCode::Rsh,
            AluOp::Mod | AluOp::Smod => AluCode::Mod,
            AluOp::Xor => AluCode::Xor,
            AluOp::Arsh => AluCode::Arsh,
        }
    }

    /// Its number in offset: 1 for a signed operation.
    pub(crate) fn offset(self) -> i16
        ensures { result ≡ pos (offset_of self) }
    {
        match self {
            AluOp::Sdiv | AluOp::Smod => 1,
            _ => 0,
        }
    }
}

impl EndSize {
    /// The number of bits that END keeps.
    pub(crate) fn bits(self) -> i32
        ensures { result ≡ pos (end_bits self) }
    {
        match self {
            EndSize::Half => 16,
            EndSize::Word => 32,
            EndSize::Double => 64,
        }
    }
}

impl Extension {
    /// The class to whose width it extends.
    pub(crate) fn class(self) -> Bits
        ensures { result ≡ extension_class self }
    {
        match self {
            Extension::Byte64 | Extension::Half64 | Extension::Word64 => Bits::Bits64,
            Extension::Byte32 | Extension::Half32 => Bits::Bits32,
        }
    }

    /// The number of low bits that it extends.
    pub(crate) fn bits(self) -> i16
        ensures { result ≡ pos (extension_bits self) }
    {
        match self {
            Extension::Byte64 | Extension::Byte32 => 8,
            Extension::Half64 | Extension::Half32 => 16,
            Extension::Word64 => 32,
        }
    }
}

impl AtomicOp {
    /// Its number in imm.
    pub(crate) fn code(self) -> i32
        ensures { result ≡ pos (atomic_code self) }
    {
        match self {
            AtomicOp::Add => 0x00,
            AtomicOp::Or => 0x40,
            AtomicOp::And => 0x50,
            AtomicOp::Xor => 0xa0,
            AtomicOp::FetchAdd => 0x01,
            AtomicOp::FetchOr => 0x41,
            AtomicOp::FetchAnd => 0x51,
            AtomicOp::FetchXor => 0xa1,
            AtomicOp::Exchange => 0xe1,
            AtomicOp::CompareExchange => 0xf1,
        }
    }
}

impl WideValue {
    /// Its number in src.
    pub(crate) fn source(self) -> u8
        ensures source { result ≡ source_code (wide_source self) }
        ensures in_range { result ≤ 10 }
    {
        match self {
            WideValue::Number(_) => 0,
            WideValue::Map(_) => 5,
            WideValue::Cell { .. } => 6,
        }
    }

    /// Its imm: for a number, the low half.
    pub(crate) fn imm(self) -> i32
        ensures { result ≡ wide_imm self }
    {
        match self {
            WideValue::Number(number) => ((number % (1 << 32)) as u32).cast_signed(),
            WideValue::Map(map) => map,
            WideValue::Cell { array, .. } => array,
        }
    }

    /// The second half's imm: for a number, the high half.
    pub(crate) fn next_imm(self) -> i32
        ensures { result ≡ next_imm self }
    {
        match self {
            WideValue::Number(number) => ((number >> 32) as u32).cast_signed(),
            WideValue::Map(_) => 0,
            WideValue::Cell { offset, .. } => offset,
        }
    }
}
