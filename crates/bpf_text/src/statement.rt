//! The instruction of a mnemonic and its arguments: the inverse of `mnemonic_of` and
//! `arguments_of`.

ghost use Rattle.std.specs.Prelude.{◌≡◌};
ghost use Rattle.bpf_text.specs.Statements.{
  operand_in,
  insn_of_none,
  insn_of_one,
  load_of,
  store_of,
  insn_of_two,
  insn_of_three,
  insn_of,
};

use crate::argument::Argument;
use crate::mnemonic::Mnemonic;
use crate::three::UpToThree;
use bpf_insn::{Distance, Insn, Operand, Reg, WideValue};

fn operand_in(argument: Argument) -> Option<Operand>
    ensures { result ≡ operand_in argument }
{
    match argument {
        Argument::Register(r) => Some(Operand::Register(r)),
        Argument::Imm(k) => Some(Operand::Imm(k)),
        _ => None,
    }
}

fn insn_of_none(mnemonic: Mnemonic) -> Option<Insn>
    ensures { result ≡ insn_of_none mnemonic }
{
    match mnemonic {
        Mnemonic::Exit => Some(Insn::Exit),
        _ => None,
    }
}

fn insn_of_one(mnemonic: Mnemonic, argument: Argument) -> Option<Insn>
    ensures { result ≡ insn_of_one mnemonic argument }
{
    match (mnemonic, argument) {
        (Mnemonic::Neg(bits), Argument::Register(dst)) => Some(Insn::Neg { bits, dst }),
        (Mnemonic::End(order, size), Argument::Register(dst)) => {
            Some(Insn::End { order, size, dst })
        }
        (Mnemonic::Jump, Argument::Distance(Distance::Short(k))) => Some(Insn::Jump {
            distance: Distance::Short(k),
        }),
        (Mnemonic::JumpLong, Argument::Distance(Distance::Long(k))) => Some(Insn::Jump {
            distance: Distance::Long(k),
        }),
        (Mnemonic::Call, Argument::Imm(helper)) => Some(Insn::Call { helper }),
        _ => None,
    }
}

// Arithmetic, and instructions that load a register.
fn load_of(mnemonic: Mnemonic, dst: Reg, argument: Argument) -> Option<Insn>
    ensures { result ≡ load_of mnemonic dst argument }
{
    match (mnemonic, argument) {
        (Mnemonic::Alu(bits, op), argument) => {
            let src = operand_in(argument)?;
            Some(Insn::Alu { bits, op, dst, src })
        }
        (Mnemonic::Mov(bits), argument) => {
            let src = operand_in(argument)?;
            Some(Insn::Mov { bits, dst, src })
        }
        (Mnemonic::MovSx(extension), Argument::Register(src)) => {
            Some(Insn::MovSx {
                extension,
                dst,
                src,
            })
        }
        (Mnemonic::Load(kind), Argument::Memory(src, offset)) => {
            Some(Insn::Load {
                kind,
                dst,
                src,
                offset,
            })
        }
        (Mnemonic::LoadNumber, Argument::Number(n)) => Some(Insn::Wide {
            dst,
            value: WideValue::Number(n),
        }),
        (Mnemonic::LoadMap, Argument::Imm(k)) => Some(Insn::Wide {
            dst,
            value: WideValue::Map(k),
        }),
        _ => None,
    }
}

// Instructions that store to an address.
fn store_of(mnemonic: Mnemonic, dst: Reg, offset: i16, argument: Argument) -> Option<Insn>
    ensures { result ≡ store_of mnemonic dst offset argument }
{
    match (mnemonic, argument) {
        (Mnemonic::StoreImm(size), Argument::Imm(imm)) => {
            Some(Insn::StoreImm {
                size,
                dst,
                offset,
                imm,
            })
        }
        (Mnemonic::Store(size), Argument::Register(src)) => {
            Some(Insn::Store {
                size,
                dst,
                src,
                offset,
            })
        }
        (Mnemonic::Atomic(op, size), Argument::Register(src)) => {
            Some(Insn::Atomic {
                op,
                size,
                dst,
                src,
                offset,
            })
        }
        _ => None,
    }
}

fn insn_of_two(mnemonic: Mnemonic, first: Argument, second: Argument) -> Option<Insn>
    ensures { result ≡ insn_of_two mnemonic first second }
{
    match first {
        Argument::Register(dst) => load_of(mnemonic, dst, second),
        Argument::Memory(dst, offset) => store_of(mnemonic, dst, offset, second),
        _ => None,
    }
}

fn insn_of_three(
    mnemonic: Mnemonic,
    first: Argument,
    second: Argument,
    third: Argument,
) -> Option<Insn>
    ensures { result ≡ insn_of_three mnemonic first second third }
{
    let Argument::Register(register) = first else {
        return None;
    };
    match (mnemonic, second, third) {
        (Mnemonic::JumpIf(bits, condition), second, Argument::Distance(Distance::Short(offset))) =>
            {
                let right = operand_in(second)?;
                Some(Insn::JumpIf {
                    bits,
                    condition,
                    left: register,
                    right,
                    offset,
                })
            }
        (Mnemonic::LoadCell, Argument::Imm(array), Argument::Imm(offset)) => Some(Insn::Wide {
            dst: register,
            value: WideValue::Cell { array, offset },
        }),
        _ => None,
    }
}

/// The instruction of this word that has these arguments, if there is one.
pub fn insn_of(mnemonic: Mnemonic, arguments: UpToThree<Argument>) -> Option<Insn>
    ensures { result ≡ insn_of mnemonic arguments }
{
    match (arguments.first, arguments.second, arguments.third) {
        (None, None, None) => insn_of_none(mnemonic),
        (Some(first), None, None) => insn_of_one(mnemonic, first),
        (Some(first), Some(second), None) => insn_of_two(mnemonic, first, second),
        (Some(first), Some(second), Some(third)) => {
            insn_of_three(mnemonic, first, second, third)
        }
        _ => None,
    }
}
