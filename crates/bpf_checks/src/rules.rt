//! The rules, checked in the order of their codes. Each class of instructions can break only some
//! of them, and checks those.

ghost use Rattle.std.specs.Prelude.{◌≡◌};
ghost use Rattle.bpf_checks.specs.Rules as rules;

use crate::arithmetic::{alu_rule, mov_rule, unary_rule};
use crate::atomics::atomic_rule;
use crate::calls::{call_rule, exit_rule};
use crate::jumps::jump_rule;
use crate::loads::{load_rule, wide_rule};
use crate::refusal::VerifierRule;
use crate::stores::{store_imm_rule, store_rule};
use abs_value::AbsState;
use bpf_insn::Insn;
use cells::Shape;

/// The first rule that an instruction breaks, given the abstract state before it.
pub fn first_rule(shape: &Shape, e: &AbsState, insn: &Insn) -> Option<VerifierRule>
    ensures { result ≡ rules.first_rule shape.now e.now insn.now }
{
    match *insn {
        Insn::Alu { bits, op, dst, src } => alu_rule(e, bits, op, dst, src),
        Insn::Mov { bits, dst, src } => mov_rule(e, bits, dst, src),
        Insn::MovSx { dst, src, .. } => unary_rule(e, dst, src),
        Insn::Neg { dst, .. } => unary_rule(e, dst, dst),
        Insn::End { dst, .. } => unary_rule(e, dst, dst),
        Insn::Jump { .. } => None,
        Insn::JumpIf {
            bits,
            condition,
            left,
            right,
            ..
        } => jump_rule(e, bits, condition, left, right),
        Insn::Call { helper } => call_rule(e, helper),
        Insn::Exit => exit_rule(shape, e),
        Insn::Load {
            kind,
            dst,
            src,
            offset,
        } => load_rule(shape, e, kind, dst, src, offset),
        Insn::StoreImm {
            size,
            dst,
            offset,
            ..
        } => store_imm_rule(shape, e, size, dst, offset),
        Insn::Store {
            size,
            dst,
            src,
            offset,
        } => store_rule(shape, e, size, dst, src, offset),
        Insn::Atomic {
            op,
            size,
            dst,
            src,
            offset,
        } => atomic_rule(shape, e, op, size, dst, src, offset),
        Insn::Wide { dst, value } => wide_rule(shape, dst, value),
    }
}
