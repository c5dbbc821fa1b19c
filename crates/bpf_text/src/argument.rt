//! The arguments after an instruction's mnemonic: registers, numbers, memory and distances.

ghost use Rattle.std.specs.Prelude.{◌≡◌};
ghost use Rattle.bpf_text.specs.Three.{three};
ghost use Rattle.bpf_text.specs.Arguments.{
  mnemonic_of,
  arguments_of,
  operand_argument,
  jump_arguments,
  wide_arguments,
};

use crate::mnemonic::Mnemonic;
use crate::three::{UpToThree, none, one, three, two};
use bpf_insn::{Distance, Insn, Operand, Reg, WideValue};

/// One argument of an instruction.
#[derive(Clone, Copy)]
pub enum Argument {
    Register(Reg),
    /// A signed 32-bit number.
    Imm(i32),
    /// An unsigned 64-bit number.
    Number(u64),
    /// The bytes at a register's address plus an offset.
    Memory(Reg, i16),
    /// How many slots a jump moves from the instruction after it, in 16 or in 32 bits.
    Distance(Distance),
}

/// The mnemonic of an instruction, by its parts.
pub fn mnemonic_of(insn: Insn) -> Mnemonic
    ensures { result ≡ mnemonic_of insn }
{
    match insn {
        Insn::Alu { bits, op, .. } => Mnemonic::Alu(bits, op),
        Insn::Mov { bits, .. } => Mnemonic::Mov(bits),
        Insn::MovSx { extension, .. } => Mnemonic::MovSx(extension),
        Insn::Neg { bits, .. } => Mnemonic::Neg(bits),
        Insn::End { order, size, .. } => Mnemonic::End(order, size),
        Insn::Jump {
            distance: Distance::Short(_),
        } => Mnemonic::Jump,
        Insn::Jump {
            distance: Distance::Long(_),
        } => Mnemonic::JumpLong,
        Insn::JumpIf {
            bits,
            condition,
            ..
        } => Mnemonic::JumpIf(bits, condition),
        Insn::Call { .. } => Mnemonic::Call,
        Insn::Exit => Mnemonic::Exit,
        Insn::Load { kind, .. } => Mnemonic::Load(kind),
        Insn::StoreImm { size, .. } => Mnemonic::StoreImm(size),
        Insn::Store { size, .. } => Mnemonic::Store(size),
        Insn::Atomic { op, size, .. } => Mnemonic::Atomic(op, size),
        Insn::Wide {
            value: WideValue::Number(_),
            ..
        } => Mnemonic::LoadNumber,
        Insn::Wide {
            value: WideValue::Map(_),
            ..
        } => Mnemonic::LoadMap,
        Insn::Wide {
            value: WideValue::Cell { .. },
            ..
        } => Mnemonic::LoadCell,
    }
}

fn operand_argument(operand: Operand) -> Argument
    ensures { result ≡ operand_argument operand }
{
    match operand {
        Operand::Imm(k) => Argument::Imm(k),
        Operand::Register(r) => Argument::Register(r),
    }
}

// The two operands that a jump compares, and its distance.
fn jump_arguments(left: Reg, right: Operand, offset: i16) -> UpToThree<Argument>
    ensures { result ≡ jump_arguments left right offset }
{
    three(
        Argument::Register(left),
        operand_argument(right),
        Argument::Distance(Distance::Short(offset)),
    )
}

// The number of `lddw`, the index of `ldmap`, and both numbers of `ldcell`.
fn wide_arguments(dst: Reg, value: WideValue) -> UpToThree<Argument>
    ensures { result ≡ wide_arguments dst value }
{
    let dst = Argument::Register(dst);
    match value {
        WideValue::Number(n) => two(dst, Argument::Number(n)),
        WideValue::Map(map) => two(dst, Argument::Imm(map)),
        WideValue::Cell { array, offset } => {
            three(dst, Argument::Imm(array), Argument::Imm(offset))
        }
    }
}

/// The arguments of an instruction: `dst` first, also if it is the address of a store, and a
/// distance last.
pub fn arguments_of(insn: Insn) -> UpToThree<Argument>
    ensures { result ≡ arguments_of insn }
{
    match insn {
        Insn::Alu { dst, src, .. } | Insn::Mov { dst, src, .. } => {
            two(Argument::Register(dst), operand_argument(src))
        }
        Insn::MovSx { dst, src, .. } => two(Argument::Register(dst), Argument::Register(src)),
        Insn::Neg { dst, .. } | Insn::End { dst, .. } => one(Argument::Register(dst)),
        Insn::Jump { distance } => one(Argument::Distance(distance)),
        Insn::JumpIf {
            left,
            right,
            offset,
            ..
        } => jump_arguments(left, right, offset),
        Insn::Call { helper } => one(Argument::Imm(helper)),
        Insn::Exit => none(),
        Insn::Load {
            dst,
            src,
            offset,
            ..
        } => two(Argument::Register(dst), Argument::Memory(src, offset)),
        Insn::StoreImm {
            dst,
            offset,
            imm,
            ..
        } => two(Argument::Memory(dst, offset), Argument::Imm(imm)),
        Insn::Store {
            dst,
            src,
            offset,
            ..
        } => two(Argument::Memory(dst, offset), Argument::Register(src)),
        Insn::Atomic {
            dst,
            src,
            offset,
            ..
        } => two(Argument::Memory(dst, offset), Argument::Register(src)),
        Insn::Wide { dst, value } => wide_arguments(dst, value),
    }
}
