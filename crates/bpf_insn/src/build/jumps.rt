//! The classes JMP and JMP32.

ghost use Rattle.std.specs.Prelude.{None};
ghost use Rattle.bpf_insn.specs.declared.form.Form.{Form};
ghost use Rattle.bpf_insn.specs.Halves.{IsInOrder, IsTheInsn};

use super::arithmetic::operand_in;
use crate::fields::Fields;
use crate::form::Source;
use crate::insn::Insn;
use crate::operand::{Bits, Condition, Distance};
use crate::reg::Reg;

/// JA by its offset.
pub fn jump_in(fields: Fields) -> Insn
    requires { IsInOrder Form.Jump fields }
    ensures { IsTheInsn Form.Jump fields None result }
{
    Insn::Jump {
        distance: Distance::Short(fields.offset),
    }
}

/// JA by its imm.
pub fn long_jump_in(fields: Fields) -> Insn
    requires { IsInOrder Form.JumpLong fields }
    ensures { IsTheInsn Form.JumpLong fields None result }
{
    Insn::Jump {
        distance: Distance::Long(fields.imm),
    }
}

pub fn jump_if_in(bits: Bits, condition: Condition, source: Source, fields: Fields) -> Insn
    requires { IsInOrder (Form.JumpIf bits condition source) fields }
    ensures { IsTheInsn (Form.JumpIf bits condition source) fields None result }
{
    Insn::JumpIf {
        bits,
        condition,
        left: Reg::at(fields.dst),
        right: operand_in(source, fields),
        offset: fields.offset,
    }
}

pub fn call_in(fields: Fields) -> Insn
    requires { IsInOrder Form.Call fields }
    ensures { IsTheInsn Form.Call fields None result }
{
    Insn::Call { helper: fields.imm }
}

pub fn exit_in(fields: Fields) -> Insn
    requires { IsInOrder Form.Exit fields }
    ensures { IsTheInsn Form.Exit fields None result }
{
    Insn::Exit
}
