//! One instruction (RFC 9669, "Arithmetic and Jump Instructions" and "Load and Store
//! Instructions").

ghost use Rattle.std.specs.Prelude.{◌≡◌, IsTrue};
ghost use Rattle.bpf_insn.specs.Arithmetic.{alu_result, negated, extended, reordered};
ghost use Rattle.bpf_insn.specs.Conditions as conditions;
ghost use Rattle.bpf_insn.specs.Words.{word};
ghost use Rattle.bpf_semantics.specs.Reads as reads;
ghost use Rattle.bpf_semantics.specs.Reads.{register, operand, both, only};
ghost use Rattle.bpf_semantics.specs.Step as semantics;
ghost use Rattle.reference.specs.Attempts.{HasRoom, Comes, is_access};
ghost use Rattle.cells.specs.Arrays.{AppShape};
ghost use Rattle.reference.specs.Marks.{state_of};

use crate::attempt::{Attempt, finish};
use crate::calls::wide_value;
use crate::state::Interpreter;
use bpf_insn::{AluOp, Bits, ByteOrder, Condition, EndSize, Extension, Insn, Operand, Reg};
use cells::Shape;

impl Interpreter {
    /// An operand of an instruction.
    fn operand(&self, bits: Bits, operand: Operand) -> Option<u64>
        ensures { result ≡ reads.operand (state_of self.now) bits operand }
    {
        match operand {
            Operand::Imm(imm) => Some(bits.immediate(imm)),
            Operand::Register(register) => self.register(register),
        }
    }

    fn apply(&self, bits: Bits, op: AluOp, dst: Reg, src: Operand) -> Option<u64>
        ensures { let s = state_of self.now in
            result ≡ both (alu_result bits op) (register s dst) (operand s bits src) }
    {
        Some(op.apply(bits, self.register(dst)?, self.operand(bits, src)?))
    }

    fn take(&self, bits: Bits, src: Operand) -> Option<u64>
        ensures { result ≡ only (word bits) (operand (state_of self.now) bits src) }
    {
        Some(bits.word(self.operand(bits, src)?))
    }

    fn extend(&self, extension: Extension, src: Reg) -> Option<u64>
        ensures { let s = state_of self.now in
            result ≡ only (extended extension) (register s src) }
    {
        Some(extension.extend(self.register(src)?))
    }

    fn negate(&self, bits: Bits, dst: Reg) -> Option<u64>
        ensures { result ≡ only (negated bits) (register (state_of self.now) dst) }
    {
        Some(bits.negate(self.register(dst)?))
    }

    fn reorder(&self, order: ByteOrder, size: EndSize, dst: Reg) -> Option<u64>
        ensures { let s = state_of self.now in
            result ≡ only (reordered order size) (register s dst) }
    {
        Some(order.reorder(size, self.register(dst)?))
    }

    /// Whether a condition holds for a register and an operand.
    fn holds(&self, bits: Bits, condition: Condition, left: Reg, right: Operand) -> Option<bool>
        ensures { let s = state_of self.now in
            let test = conditions.holds bits condition in
            result ≡ both test (register s left) (operand s bits right) }
    {
        Some(condition.holds(bits, self.register(left)?, self.operand(bits, right)?))
    }

    /// Executes one instruction of a program for an app of this shape.
    pub(crate) fn perform(&mut self, shape: &Shape, insn: Insn) -> Attempt
        requires { HasRoom (state_of self.old) }
        ensures { let s = state_of self.old in
            Comes (semantics.act shape.now s insn) s result (state_of self.new) }
    {
        match insn {
            Insn::Alu { bits, op, dst, src } => self.write(1, dst, self.apply(bits, op, dst, src)),
            Insn::Mov { bits, dst, src } => self.write(1, dst, self.take(bits, src)),
            Insn::MovSx {
                extension,
                dst,
                src,
            } => self.write(1, dst, self.extend(extension, src)),
            Insn::Neg { bits, dst } => self.write(1, dst, self.negate(bits, dst)),
            Insn::End { order, size, dst } => self.write(1, dst, self.reorder(order, size, dst)),
            Insn::Jump { distance } => self.jump_to(distance.target(self.slot())),
            Insn::JumpIf {
                bits,
                condition,
                left,
                right,
                offset,
            } => self.branch(offset, self.holds(bits, condition, left, right)),
            Insn::Call { helper } => self.answer(self.helper_result(shape, helper)),
            Insn::Exit => finish(self.register(Reg::R0)),
            Insn::Load { .. } | Insn::StoreImm { .. } | Insn::Store { .. } | Insn::Atomic { .. } =>
                self.access(insn),
            Insn::Wide { dst, value } => self.write(2, dst, wide_value(shape, value)),
        }
    }

    /// A load, a store or an atomic operation.
    fn access(&mut self, insn: Insn) -> Attempt
        requires room { HasRoom (state_of self.old) }
        requires access { IsTrue (is_access insn) }
        ensures { let s = state_of self.old in
            (shape : AppShape) → Comes (semantics.act shape s insn) s result (state_of self.new) }
    {
        match insn {
            Insn::Load {
                kind,
                dst,
                src,
                offset,
            } => self.load(kind, dst, self.register(src), offset),
            Insn::StoreImm {
                size,
                dst,
                offset,
                imm,
            } => self.store(
                size,
                self.register(dst),
                offset,
                Some(Bits::Bits64.immediate(imm)),
            ),
            Insn::Store {
                size,
                dst,
                src,
                offset,
            } => self.store(size, self.register(dst), offset, self.register(src)),
            Insn::Atomic {
                op,
                size,
                dst,
                src,
                offset,
            } => self.atomic(op, size, dst, src, offset),
            _ => unreachable!(),
        }
    }
}
