//! Conditional jumps (RFC 9669, "Jump Instructions"): the rules that they may break.

ghost use Rattle.std.specs.Prelude.{◌≡◌, ℤ};
ghost use Rattle.cells.specs.Arrays.{AppShape};
ghost use Rattle.bpf_checks.specs.Rules as rules;

use crate::refusal::VerifierRule;
use abs_value::{Abs, AbsState, compares_with_zero};
use bpf_insn::{Bits, Condition, Insn, Operand, Reg};

/// Whether it is the result of a lookup, or the address of a cell.
fn may_be_null(value: Abs) -> bool
    ensures { result ≡ rules.may_be_null value }
{
    matches!(value, Abs::MayCell(_) | Abs::Cell(_))
}

/// The first rule that a conditional jump breaks.
#[tactic(auto, unfolding(crate::specs::Rules::first_rule))]
pub fn jump_rule(
    e: &AbsState,
    bits: Bits,
    condition: Condition,
    left: Reg,
    right: Operand,
) -> Option<VerifierRule>
    ensures { (shape : AppShape) (offset : ℤ)
        → rules.first_rule shape e.now (Insn.JumpIf bits condition left right offset) ≡ result }
{
    let a = e.value(left);
    let b = e.operand(bits, right);
    if a.is_unusable() || b.is_unusable() {
        Some(VerifierRule::Unusable)
    } else if (a.is_pointer() || b.is_pointer())
        && !(compares_with_zero(bits, condition, right) && may_be_null(a))
    {
        Some(VerifierRule::PointerCompare)
    } else {
        None
    }
}

/// Whether it is a jump that compares a lookup's result with 0. Then each copy of the result
/// changes on the edge that jumps, and that edge needs a copy of the state.
pub fn is_lookup_check(e: &AbsState, insn: &Insn) -> bool
    ensures { result ≡ rules.is_lookup_check e.now insn.now }
{
    match *insn {
        Insn::JumpIf {
            bits,
            condition,
            left,
            right,
            ..
        } => {
            compares_with_zero(bits, condition, right) && matches!(e.value(left), Abs::MayCell(_))
        }
        _ => false,
    }
}
