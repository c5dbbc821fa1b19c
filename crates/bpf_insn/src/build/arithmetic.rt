//! The classes ALU64 and ALU.

ghost use Rattle.std.specs.Prelude.{◌≡◌, pos, false, IfOk, IfErr, None};
ghost use Rattle.bpf_insn.specs.declared.operand.Operand.{Operand};
ghost use Rattle.bpf_insn.specs.declared.form.Form.{Form};
ghost use Rattle.bpf_insn.specs.Faults.{AllowsSrc, uses_src, uses_imm};
ghost use Rattle.bpf_insn.specs.Halves.{IsOperand, IsInOrder, IsRowFault, IsTheInsn};
ghost use Rattle.bpf_insn.specs.Table.{src_use, imm_use};

use crate::fields::{Fields, InsnFault};
use crate::form::{AluCode, Source};
use crate::insn::Insn;
use crate::lookup::{alu_op_in, end_size_in, extension_in};
use crate::operand::{Bits, ByteOrder, Operand};
use crate::reg::Reg;

/// The second operand, from imm or src.
pub fn operand_in(source: Source, fields: Fields) -> Operand
    requires src { AllowsSrc (src_use source) fields.src }
    requires no_src { uses_src (src_use source) ≡ false → fields.src ≡ 0 }
    requires no_imm { uses_imm (imm_use source) ≡ false → fields.imm ≡ pos 0 }
    ensures some { IsOperand source fields result }
    ensures only { (o : Operand) → IsOperand source fields o → result ≡ o }
{
    match source {
        Source::K => Operand::Imm(fields.imm),
        Source::X => Operand::Register(Reg::at(fields.src)),
    }
}

pub fn alu_in(bits: Bits, code: AluCode, source: Source, fields: Fields) -> Result<Insn, InsnFault>
    requires { IsInOrder (Form.Alu bits code source) fields }
    ensures insn { IfOk result (λ i. IsTheInsn (Form.Alu bits code source) fields None i) }
    ensures fault { IfErr result (λ e. IsRowFault (Form.Alu bits code source) fields e) }
{
    match alu_op_in(code, fields) {
        Some(op) => {
            let dst = Reg::at(fields.dst);
            let src = operand_in(source, fields);
            Ok(Insn::Alu { bits, op, dst, src })
        }
        None => Err(InsnFault::Offset),
    }
}

pub fn neg_in(bits: Bits, fields: Fields) -> Insn
    requires { IsInOrder (Form.Neg bits) fields }
    ensures { IsTheInsn (Form.Neg bits) fields None result }
{
    let dst = Reg::at(fields.dst);
    Insn::Neg { bits, dst }
}

/// MOV, or MOVSX if the source is a register and the offset isn't 0.
pub fn mov_in(bits: Bits, source: Source, fields: Fields) -> Result<Insn, InsnFault>
    requires { IsInOrder (Form.Mov bits source) fields }
    ensures insn { IfOk result (λ i. IsTheInsn (Form.Mov bits source) fields None i) }
    ensures fault { IfErr result (λ e. IsRowFault (Form.Mov bits source) fields e) }
{
    let dst = Reg::at(fields.dst);
    if fields.offset == 0 {
        let src = operand_in(source, fields);
        return Ok(Insn::Mov { bits, dst, src });
    }
    match extension_in(bits, fields) {
        Some(extension) => {
            let src = Reg::at(fields.src);
            Ok(Insn::MovSx {
                extension,
                dst,
                src,
            })
        }
        None => Err(InsnFault::Offset),
    }
}

pub fn end_in(order: ByteOrder, fields: Fields) -> Result<Insn, InsnFault>
    requires { IsInOrder (Form.End order) fields }
    ensures insn { IfOk result (λ i. IsTheInsn (Form.End order) fields None i) }
    ensures fault { IfErr result (λ e. IsRowFault (Form.End order) fields e) }
{
    match end_size_in(fields) {
        Some(size) => {
            let dst = Reg::at(fields.dst);
            Ok(Insn::End { order, size, dst })
        }
        None => Err(InsnFault::Imm),
    }
}
