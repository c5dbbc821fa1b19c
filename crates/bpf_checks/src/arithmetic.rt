//! Arithmetic (RFC 9669, "Arithmetic Instructions" and "Byte Swap Instructions"): the rules that it
//! may break.

ghost use Rattle.std.specs.Prelude.{◌≡◌};
ghost use Rattle.cells.specs.Arrays.{AppShape};
ghost use Rattle.bpf_checks.specs.Rules as rules;

use crate::refusal::VerifierRule;
use abs_value::{Abs, AbsState};
use bpf_insn::{AluOp, Bits, ByteOrder, EndSize, Extension, Insn, Operand, Reg};

fn has_place(value: Abs) -> bool
    ensures { result ≡ rules.has_place value }
{
    matches!(value, Abs::Ctx(_) | Abs::Stk { .. })
}

/// Whether it is a 64-bit ADD or SUB of a number to an address in the context or the stack.
fn moves_address(bits: Bits, op: AluOp, a: Abs, b: Abs) -> bool
    ensures { result ≡ rules.moves_address bits op a b }
{
    match (bits, op) {
        (Bits::Bits64, AluOp::Add | AluOp::Sub) => has_place(a) && b.is_number(),
        _ => false,
    }
}

/// The first rule that an operation with two operands breaks.
#[tactic(auto, unfolding(crate::specs::Rules::first_rule))]
pub fn alu_rule(e: &AbsState, bits: Bits, op: AluOp, dst: Reg, src: Operand) -> Option<VerifierRule>
    ensures { (shape : AppShape)
        → rules.first_rule shape e.now (Insn.Alu bits op dst src) ≡ result }
{
    let a = e.value(dst);
    let b = e.operand(bits, src);
    if a.is_unusable() || b.is_unusable() {
        Some(VerifierRule::Unusable)
    } else if dst.index() == 10 {
        Some(VerifierRule::WritesFrame)
    } else if !a.is_pointer() && !b.is_pointer() {
        None
    } else if !moves_address(bits, op, a, b) {
        Some(VerifierRule::PointerArithmetic)
    } else if a.pointer_result(bits, op, b).is_none() {
        Some(VerifierRule::OffsetRange)
    } else {
        None
    }
}

/// The first rule that MOV breaks.
#[tactic(auto, unfolding(crate::specs::Rules::first_rule))]
pub fn mov_rule(e: &AbsState, bits: Bits, dst: Reg, src: Operand) -> Option<VerifierRule>
    ensures { (shape : AppShape) → rules.first_rule shape e.now (Insn.Mov bits dst src) ≡ result }
{
    let value = e.operand(bits, src);
    if value.is_unusable() {
        Some(VerifierRule::Unusable)
    } else if dst.index() == 10 {
        Some(VerifierRule::WritesFrame)
    } else if bits == Bits::Bits32 && value.is_pointer() {
        Some(VerifierRule::PointerArithmetic)
    } else {
        None
    }
}

/// The first rule that an operation with one operand breaks: NEG, MOVSX and END.
#[tactic(auto, unfolding(crate::specs::Rules::first_rule))]
pub fn unary_rule(e: &AbsState, dst: Reg, src: Reg) -> Option<VerifierRule>
    ensures extended { (shape : AppShape) (extension : Extension)
        → rules.first_rule shape e.now (Insn.MovSx extension dst src) ≡ result }
    ensures negated { (shape : AppShape) (bits : Bits) → src ≡ dst
        → rules.first_rule shape e.now (Insn.Neg bits dst) ≡ result }
    ensures reordered { (shape : AppShape) (order : ByteOrder) (size : EndSize) → src ≡ dst
        → rules.first_rule shape e.now (Insn.End order size dst) ≡ result }
{
    let value = e.value(src);
    if value.is_unusable() {
        Some(VerifierRule::Unusable)
    } else if dst.index() == 10 {
        Some(VerifierRule::WritesFrame)
    } else if value.is_pointer() {
        Some(VerifierRule::PointerArithmetic)
    } else {
        None
    }
}
