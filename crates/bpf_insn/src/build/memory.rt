//! The classes LDX, ST and STX.

ghost use Rattle.std.specs.Prelude.{IfOk, IfErr, None};
ghost use Rattle.bpf_insn.specs.declared.form.Form.{Form};
ghost use Rattle.bpf_insn.specs.Halves.{IsInOrder, IsRowFault, IsTheInsn};

use crate::fields::{Fields, InsnFault};
use crate::insn::Insn;
use crate::lookup::atomic_op_in;
use crate::operand::{AtomicSize, LoadKind, Size};
use crate::reg::Reg;

pub fn load_in(kind: LoadKind, fields: Fields) -> Insn
    requires { IsInOrder (Form.Load kind) fields }
    ensures { IsTheInsn (Form.Load kind) fields None result }
{
    Insn::Load {
        kind,
        dst: Reg::at(fields.dst),
        src: Reg::at(fields.src),
        offset: fields.offset,
    }
}

pub fn store_imm_in(size: Size, fields: Fields) -> Insn
    requires { IsInOrder (Form.StoreImm size) fields }
    ensures { IsTheInsn (Form.StoreImm size) fields None result }
{
    Insn::StoreImm {
        size,
        dst: Reg::at(fields.dst),
        offset: fields.offset,
        imm: fields.imm,
    }
}

pub fn store_in(size: Size, fields: Fields) -> Insn
    requires { IsInOrder (Form.Store size) fields }
    ensures { IsTheInsn (Form.Store size) fields None result }
{
    Insn::Store {
        size,
        dst: Reg::at(fields.dst),
        src: Reg::at(fields.src),
        offset: fields.offset,
    }
}

pub fn atomic_in(size: AtomicSize, fields: Fields) -> Result<Insn, InsnFault>
    requires { IsInOrder (Form.Atomic size) fields }
    ensures insn { IfOk result (λ i. IsTheInsn (Form.Atomic size) fields None i) }
    ensures fault { IfErr result (λ e. IsRowFault (Form.Atomic size) fields e) }
{
    match atomic_op_in(fields) {
        Some(op) => Ok(Insn::Atomic {
            op,
            size,
            dst: Reg::at(fields.dst),
            src: Reg::at(fields.src),
            offset: fields.offset,
        }),
        None => Err(InsnFault::Imm),
    }
}
