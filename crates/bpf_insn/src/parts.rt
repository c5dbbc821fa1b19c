//! The fields of an instruction's first half: its form, which gives the opcode, and the other
//! fields, which are 0 if the row doesn't use them.

ghost use Rattle.std.specs.Prelude.{◌≡◌, ◌≤◌};
ghost use Rattle.bpf_insn.specs.Spelling.{form_of, fields_of};

use crate::form::{Form, Source};
use crate::insn::Insn;
use crate::operand::Distance;

impl Insn {
    /// Its form.
    pub(crate) fn form(self) -> Form
        ensures { result ≡ form_of self }
    {
        match self {
            Insn::Alu { bits, op, src, .. } => Form::Alu(bits, op.code(), src.source()),
            Insn::Mov { bits, src, .. } => Form::Mov(bits, src.source()),
            Insn::MovSx { extension, .. } => Form::Mov(extension.class(), Source::X),
            Insn::Neg { bits, .. } => Form::Neg(bits),
            Insn::End { order, .. } => Form::End(order),
            Insn::Jump {
                distance: Distance::Short(_),
            } => Form::Jump,
            Insn::Jump {
                distance: Distance::Long(_),
            } => Form::JumpLong,
            Insn::JumpIf {
                bits,
                condition,
                right,
                ..
            } => Form::JumpIf(bits, condition, right.source()),
            Insn::Call { .. } => Form::Call,
            Insn::Exit => Form::Exit,
            Insn::Load { kind, .. } => Form::Load(kind),
            Insn::StoreImm { size, .. } => Form::StoreImm(size),
            Insn::Store { size, .. } => Form::Store(size),
            Insn::Atomic { size, .. } => Form::Atomic(size),
            Insn::Wide { .. } => Form::Wide,
        }
    }

    /// Its field dst.
    pub(crate) fn dst(self) -> u8
        ensures is { result ≡ (fields_of self).dst }
        ensures in_range { result ≤ 10 }
    {
        match self {
            Insn::Alu { dst, .. } | Insn::Mov { dst, .. } | Insn::MovSx { dst, .. } => dst.number(),
            Insn::Neg { dst, .. } | Insn::End { dst, .. } | Insn::Wide { dst, .. } => dst.number(),
            Insn::Load { dst, .. } | Insn::StoreImm { dst, .. } => dst.number(),
            Insn::Store { dst, .. } | Insn::Atomic { dst, .. } => dst.number(),
            Insn::JumpIf { left, .. } => left.number(),
            Insn::Jump { .. } | Insn::Call { .. } | Insn::Exit => 0,
        }
    }

    /// Its field src.
    pub(crate) fn src(self) -> u8
        ensures is { result ≡ (fields_of self).src }
        ensures in_range { result ≤ 10 }
    {
        match self {
            Insn::Alu { src, .. } | Insn::Mov { src, .. } => src.src(),
            Insn::JumpIf { right, .. } => right.src(),
            Insn::MovSx { src, .. } | Insn::Load { src, .. } => src.number(),
            Insn::Store { src, .. } | Insn::Atomic { src, .. } => src.number(),
            Insn::Wide { value, .. } => value.source(),
            Insn::Neg { .. } | Insn::End { .. } | Insn::StoreImm { .. } => 0,
            Insn::Jump { .. } | Insn::Call { .. } | Insn::Exit => 0,
        }
    }

    /// Its field offset.
    pub(crate) fn offset(self) -> i16
        ensures { result ≡ (fields_of self).offset }
    {
        match self {
            Insn::Alu { op, .. } => op.offset(),
            Insn::MovSx { extension, .. } => extension.bits(),
            Insn::Jump {
                distance: Distance::Short(offset),
            } => offset,
            Insn::JumpIf { offset, .. } | Insn::Load { offset, .. } => offset,
            Insn::StoreImm { offset, .. } | Insn::Store { offset, .. } => offset,
            Insn::Atomic { offset, .. } => offset,
            _ => 0,
        }
    }

    /// Its field imm.
    pub(crate) fn imm(self) -> i32
        ensures { result ≡ (fields_of self).imm }
    {
        match self {
            Insn::Alu { src, .. } | Insn::Mov { src, .. } => src.imm(),
            Insn::JumpIf { right, .. } => right.imm(),
            Insn::End { size, .. } => size.bits(),
            Insn::Jump {
                distance: Distance::Long(distance),
            } => distance,
            Insn::Call { helper } => helper,
            Insn::StoreImm { imm, .. } => imm,
            Insn::Atomic { op, .. } => op.code(),
            Insn::Wide { value, .. } => value.imm(),
            _ => 0,
        }
    }
}
