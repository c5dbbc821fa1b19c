//! The two values that a conditional jump compares, as they are before its edges. So one state
//! serves both edges: it is narrowed to the edge that jumps, the two values are restored, and it is
//! narrowed to the fall-through edge.

ghost use Rattle.std.specs.Prelude.{◌≡◌, false};
ghost use Rattle.bpf_checks.specs.Rules as rules;
ghost use Rattle.bpf_checks.specs.Transfer as transfer;

use abs_value::{Abs, AbsState};
use bpf_insn::{Insn, Operand, Reg};

/// The comparison of an instruction.
#[derive(Clone, Copy)]
pub enum Compared {
    /// The instruction isn't a conditional jump.
    Nothing,
    /// Two operands, with their abstract values.
    Values {
        left: Reg,
        right: Operand,
        first: Abs,
        second: Abs,
    },
}

impl Compared {
    /// The comparison of an instruction. Unless the instruction checks a lookup's result, the edge
    /// that jumps changes only these values.
    // open: its result if the instruction checks a lookup's result: it isn't used then.
    pub fn of(e: &AbsState, insn: &Insn) -> Compared
        ensures { rules.is_lookup_check e.now insn.now ≡ false
            → transfer.Restores e.now insn.now result }
    {
        match *insn {
            Insn::JumpIf {
                bits,
                left,
                right,
                ..
            } => Compared::Values {
                left,
                right,
                first: e.value(left),
                second: e.operand(bits, right),
            },
            _ => Compared::Nothing,
        }
    }

    /// Restores the two values.
    pub fn restore(self, e: &mut AbsState)
        ensures { e.new ≡ transfer.restored self e.old }
    {
        if let Compared::Values {
            left,
            right,
            first,
            second,
        } = self
        {
            e.set(left, first);
            e.set_operand(right, second);
        }
    }
}
