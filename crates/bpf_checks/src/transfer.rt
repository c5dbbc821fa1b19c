//! The transfer functions: how an instruction changes the abstract state, in place.

ghost use Rattle.std.specs.Prelude.{◌≡◌};
ghost use Rattle.abs_value.specs.Lookups.{IsEdge};
ghost use Rattle.bpf_checks.specs.Transfer as transfer;

use crate::arrays::wide;
use crate::atomics::exchange_in;
use crate::loads::load;
use crate::stores::store_in;
use abs_value::{Abs, AbsState, Number};
use bpf_insn::{Bits, Insn};
use cells::Shape;

/// The state after an instruction whose only successor is the next one.
pub fn step_in(e: &mut AbsState, shape: &Shape, slot: u16, insn: &Insn)
    ensures { e.new ≡ transfer.after shape.now slot e.old insn.now }
{
    match *insn {
        Insn::Alu { bits, op, dst, src } => {
            let value = e.value(dst).alu(bits, op, e.operand(bits, src));
            e.set(dst, value);
        }
        Insn::Mov { bits, dst, src } => e.set(dst, e.operand(bits, src).copied(bits)),
        Insn::MovSx {
            extension,
            dst,
            src,
        } => e.set(dst, e.value(src).extended(extension)),
        Insn::Neg { bits, dst } => e.set(dst, e.value(dst).negated(bits)),
        Insn::End { order, size, dst } => e.set(dst, e.value(dst).reordered(order, size)),
        Insn::Call { helper } => e.call(helper, slot),
        Insn::Load {
            kind,
            dst,
            src,
            offset,
        } => e.set(dst, load(e, kind, e.value(src), offset)),
        Insn::StoreImm {
            size,
            dst,
            offset,
            imm,
        } => {
            let value = Abs::Num(Number::single(Bits::Bits64.immediate(imm)));
            store_in(e, size, e.value(dst), offset, value);
        }
        Insn::Store {
            size,
            dst,
            src,
            offset,
        } => store_in(e, size, e.value(dst), offset, e.value(src)),
        Insn::Atomic { op, size, src, .. } => exchange_in(e, op, size, src),
        Insn::Wide { dst, value } => e.set(dst, wide(shape, value).unwrap_or(Abs::Unusable)),
        Insn::Jump { .. } | Insn::JumpIf { .. } | Insn::Exit => {}
    }
}

/// The state on the edge that jumps. Returns `false` if no run takes it, and then changes nothing.
pub fn jump_in(e: &mut AbsState, insn: &Insn) -> bool
    ensures { IsEdge result (transfer.jumping e.old insn.now) e.old e.new }
{
    match *insn {
        Insn::JumpIf {
            bits,
            condition,
            left,
            right,
            ..
        } => e.refine(bits, condition, left, right, true),
        _ => true,
    }
}

/// The state on the fall-through edge. Returns `false` if no run takes it, and then changes
/// nothing.
pub fn go_on_in(e: &mut AbsState, shape: &Shape, slot: u16, insn: &Insn) -> bool
    ensures { IsEdge result (transfer.going_on shape.now slot e.old insn.now) e.old e.new }
{
    match *insn {
        Insn::JumpIf {
            bits,
            condition,
            left,
            right,
            ..
        } => e.refine(bits, condition, left, right, false),
        _ => {
            step_in(e, shape, slot, insn);
            true
        }
    }
}
