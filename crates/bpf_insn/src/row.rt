//! The rows: the opcode of each form, and what it allows in each field. The decoder finds faults by
//! them, and the encoder writes their opcodes.

ghost use Rattle.std.specs.Prelude.{◌≡◌};
ghost use Rattle.bpf_insn.specs.Table.{code_number, condition_code, size_code, load_code};
ghost use Rattle.bpf_insn.specs.Table.{atomic_size_code, end_opcode, source_bit};
ghost use Rattle.bpf_insn.specs.Table.{alu_class, jump_class, src_use, imm_use};
ghost use Rattle.bpf_insn.specs.Table.{alu_offset, move_offset, opcode_of, row_of};

use crate::form::{
    AluCode, Form, ImmField as Imm, OffsetField as Offset, Row, Source, SrcField as Src,
};
use crate::operand::{AtomicSize, Bits, ByteOrder, Condition, LoadKind, Size};

impl AluCode {
    fn number(self) -> u8
        ensures { result ≡ code_number self }
    {
        match self {
            AluCode::Add => 0x0,
            AluCode::Sub => 0x1,
            AluCode::Mul => 0x2,
            AluCode::Div => 0x3,
            AluCode::Or => 0x4,
            AluCode::And => 0x5,
            AluCode::Lsh => 0x6,
            AluCode::Rsh => 0x7,
            AluCode::Mod => 0x9,
            AluCode::Xor => 0xa,
            AluCode::Arsh => 0xc,
        }
    }

    /// For DIV and MOD, the offset marks the signed operation.
    fn offset(self) -> Offset
        ensures { result ≡ alu_offset self }
    {
        match self {
            AluCode::Div | AluCode::Mod => Offset::Sign,
            _ => Offset::Unused,
        }
    }
}

impl Condition {
    fn code(self) -> u8
        ensures { result ≡ condition_code self }
    {
        match self {
            Condition::Eq => 0x1,
            Condition::Gt => 0x2,
            Condition::Ge => 0x3,
            Condition::Set => 0x4,
            Condition::Ne => 0x5,
            Condition::Sgt => 0x6,
            Condition::Sge => 0x7,
            Condition::Lt => 0xa,
            Condition::Le => 0xb,
            Condition::Slt => 0xc,
            Condition::Sle => 0xd,
        }
    }
}

impl Size {
    fn code(self) -> u8
        ensures { result ≡ size_code self }
    {
        match self {
            Size::Word => 0,
            Size::Half => 1,
            Size::Byte => 2,
            Size::Double => 3,
        }
    }
}

impl LoadKind {
    fn code(self) -> u8
        ensures { result ≡ load_code self }
    {
        match self {
            LoadKind::Word => 12,
            LoadKind::Half => 13,
            LoadKind::Byte => 14,
            LoadKind::Double => 15,
            LoadKind::SignedWord => 16,
            LoadKind::SignedHalf => 17,
            LoadKind::SignedByte => 18,
        }
    }
}

impl AtomicSize {
    fn code(self) -> u8
        ensures { result ≡ atomic_size_code self }
    {
        match self {
            AtomicSize::Word => 0,
            AtomicSize::Double => 3,
        }
    }
}

impl ByteOrder {
    fn opcode(self) -> u8
        ensures { result ≡ end_opcode self }
    {
        match self {
            ByteOrder::Little => 0xd4,
            ByteOrder::Big => 0xdc,
            ByteOrder::Swap => 0xd7,
        }
    }
}

impl Bits {
    /// ALU64 or ALU.
    fn alu_class(self) -> u8
        ensures { result ≡ alu_class self }
    {
        match self {
            Bits::Bits64 => 7,
            Bits::Bits32 => 4,
        }
    }

    /// JMP or JMP32.
    fn jump_class(self) -> u8
        ensures { result ≡ jump_class self }
    {
        match self {
            Bits::Bits64 => 5,
            Bits::Bits32 => 6,
        }
    }
}

impl Source {
    fn bit(self) -> u8
        ensures { result ≡ source_bit self }
    {
        match self {
            Source::K => 0,
            Source::X => 1,
        }
    }

    fn src_use(self) -> Src
        ensures { result ≡ src_use self }
    {
        match self {
            Source::K => Src::Unused,
            Source::X => Src::Register,
        }
    }

    fn imm_use(self) -> Imm
        ensures { result ≡ imm_use self }
    {
        match self {
            Source::K => Imm::Any,
            Source::X => Imm::Unused,
        }
    }

    /// For MOV with X, the offset distinguishes MOVSX.
    fn move_offset(self, bits: Bits) -> Offset
        ensures { result ≡ move_offset bits self }
    {
        match self {
            Source::K => Offset::Unused,
            Source::X => Offset::Extension(bits),
        }
    }
}

impl Form {
    fn opcode(self) -> u8
        ensures { result ≡ opcode_of self }
    {
        match self {
            Form::Alu(bits, code, source) => {
                code.number() * 16 + source.bit() * 8 + bits.alu_class()
            }
            Form::Mov(bits, source) => 0xb0 + source.bit() * 8 + bits.alu_class(),
            Form::Neg(bits) => 0x80 + bits.alu_class(),
            Form::End(order) => order.opcode(),
            Form::Jump => 0x05,
            Form::JumpLong => 0x06,
            Form::JumpIf(bits, condition, source) => {
                condition.code() * 16 + source.bit() * 8 + bits.jump_class()
            }
            Form::Call => 0x85,
            Form::Exit => 0x95,
            Form::Load(kind) => kind.code() * 8 + 1,
            Form::StoreImm(size) => 0x62 + size.code() * 8,
            Form::Store(size) => 0x63 + size.code() * 8,
            Form::Atomic(size) => 0xc3 + size.code() * 8,
            Form::Wide => 0x18,
        }
    }

    /// The row of the form: whether it uses dst, and what it allows in src, offset and imm.
    #[inline(always)]
    pub fn row(self) -> Row
        ensures { result ≡ row_of self }
    {
        let (uses_dst, src, offset, imm) = match self {
            Form::Alu(_, code, s) => (true, s.src_use(), code.offset(), s.imm_use()),
            Form::Mov(bits, s) => (true, s.src_use(), s.move_offset(bits), s.imm_use()),
            Form::Neg(_) => (true, Src::Unused, Offset::Unused, Imm::Unused),
            Form::End(_) => (true, Src::Unused, Offset::Unused, Imm::EndBits),
            Form::Jump => (false, Src::Unused, Offset::Any, Imm::Unused),
            Form::JumpLong => (false, Src::Unused, Offset::Unused, Imm::Any),
            Form::JumpIf(_, _, s) => (true, s.src_use(), Offset::Any, s.imm_use()),
            Form::Call => (false, Src::Callee, Offset::Unused, Imm::Any),
            Form::Exit => (false, Src::Unused, Offset::Unused, Imm::Unused),
            Form::Load(_) => (true, Src::Register, Offset::Any, Imm::Unused),
            Form::StoreImm(_) => (true, Src::Unused, Offset::Any, Imm::Any),
            Form::Store(_) => (true, Src::Register, Offset::Any, Imm::Unused),
            Form::Atomic(_) => (true, Src::Register, Offset::Any, Imm::AtomicCode),
            Form::Wide => (true, Src::WideSource, Offset::Unused, Imm::Any),
        };
        Row {
            opcode: self.opcode(),
            uses_dst,
            src,
            offset,
            imm,
        }
    }
}
