//! Why a rule refuses an instruction, in words: what the rule requires, and what is known instead.
//! No clause says which words; rows compare them.

ghost use Rattle.std.specs.Prelude.{◌≡◌, IfOk, string_bytes};
ghost use Rattle.why_refused_program.specs.RefusedPlace as specs;

use crate::accesses::{push_access, push_array_fault, push_quota};
use crate::calls::push_call;
use crate::reads::{ReadRegisters, touched};
use crate::register_texts::{push_memory, push_register};
use crate::values::push_value;
use abs_value::{Abs, AbsState};
use bpf_insn::{AluOp, Insn, Reg};
use bpf_verify::VerifierRule;
use cells::Shape;
use std::alloc::{AllocError, Global};
use std::fmt::Write;

/// The rule that refuses an instruction, and why, such as `V9: r0 may be 0: compare it with 0
/// first`.
// open: whether an allocation fails; the words after the rule's number: rows.
pub fn cited_rule(
    alloc: Global,
    shape: &Shape,
    e: &AbsState,
    insn: Insn,
    rule: VerifierRule,
) -> Result<String, AllocError>
    ensures { IfOk result (λ text. specs.CitesRule rule (string_bytes text)) }
{
    let mut why = String::new(alloc);
    push_why(&mut why, shape, e, insn, rule)?;
    let mut text = String::new(alloc);
    let number = verifier_rule_number(rule);
    write!(text, "V{number}: ")?;
    text.push_str(why.as_str())?;
    Ok(text)
}

fn verifier_rule_number(rule: VerifierRule) -> u8
    ensures { result ≡ specs.verifier_rule_number rule }
{
    match rule {
        VerifierRule::Unusable => 1,
        VerifierRule::WritesFrame => 2,
        VerifierRule::PointerArithmetic => 3,
        VerifierRule::OffsetRange => 4,
        VerifierRule::PointerCompare => 5,
        VerifierRule::Access => 6,
        VerifierRule::StoresPointer => 7,
        VerifierRule::WritesContext => 8,
        VerifierRule::NotAddress => 9,
        VerifierRule::Helper => 10,
        VerifierRule::MapIndex => 11,
        VerifierRule::Kind => 12,
        VerifierRule::Result => 13,
        VerifierRule::QuotaCell => 14,
    }
}

fn push_why(
    text: &mut String,
    shape: &Shape,
    e: &AbsState,
    insn: Insn,
    rule: VerifierRule,
) -> Result<(), AllocError> {
    let reads = ReadRegisters::of(insn);
    match rule {
        VerifierRule::Unusable => push_unusable(text, insn, reads.unusable(e)),
        VerifierRule::WritesFrame => text.push_str("r10 has the stack's top, and isn't written"),
        VerifierRule::PointerArithmetic | VerifierRule::PointerCompare => {
            push_pointer(text, shape, e, reads.pointer(e), rule)
        }
        VerifierRule::StoresPointer => {
            push_pointer(text, shape, e, stored_register(e, insn), rule)
        }
        VerifierRule::OffsetRange => push_moved(text, shape, e, insn),
        VerifierRule::Helper => push_call(text, shape, e, insn),
        VerifierRule::MapIndex => push_array_fault(text, shape, insn),
        VerifierRule::Result => push_result(text, shape, e),
        VerifierRule::QuotaCell => push_quota(text, shape, e, insn),
        _ => push_access(text, shape, e, rule, touched(insn)),
    }
}

/// Writes a register, and what is known about it.
pub(crate) fn push_register_is(
    text: &mut String,
    shape: &Shape,
    e: &AbsState,
    r: Reg,
) -> Result<(), AllocError> {
    push_register(text, r)?;
    text.push_str(" is ")?;
    push_value(text, shape, e.value(r))
}

// Which register may be unset; if none, that a byte of the stack may be.
fn push_unusable(text: &mut String, insn: Insn, r: Option<Reg>) -> Result<(), AllocError> {
    if let Some(r) = r {
        push_register(text, r)?;
        return text.push_str(" may be unset, or paths disagree on it");
    }
    match insn {
        Insn::Load { src, offset, .. } => push_memory(text, src, offset)?,
        _ => text.push_str("the text at r2")?,
    }
    text.push_str(" has a byte that may be unset")
}

fn push_pointer(
    text: &mut String,
    shape: &Shape,
    e: &AbsState,
    r: Option<Reg>,
    rule: VerifierRule,
) -> Result<(), AllocError> {
    if let Some(r) = r {
        push_register_is(text, shape, e, r)?;
    }
    text.push_str(match rule {
        VerifierRule::PointerArithmetic => {
            ": only a place in context or stack is moved, by add or sub of a number in 64 bits"
        }
        VerifierRule::PointerCompare => {
            ": only what a lookup gave or a cell's address is compared, with 0 by 64-bit jeq or jne"
        }
        _ => ": a pointer is only stored to a whole slot of the stack",
    })
}

// The register that is stored or exchanged; of several, the first pointer.
fn stored_register(e: &AbsState, insn: Insn) -> Option<Reg> {
    match insn {
        Insn::Store { src, .. } => Some(src),
        Insn::Atomic { src, .. } if e.value(src).is_pointer() => Some(src),
        Insn::Atomic { .. } => Some(Reg::R0),
        _ => None,
    }
}

// Which address is moved, and by what.
fn push_moved(
    text: &mut String,
    shape: &Shape,
    e: &AbsState,
    insn: Insn,
) -> Result<(), AllocError> {
    let Insn::Alu { bits, op, dst, src } = insn else {
        return Ok(());
    };
    push_register_is(text, shape, e, dst)?;
    text.push_str(", and ")?;
    let by = e.operand(bits, src);
    match by {
        Abs::Num(number) if number.is_single() => {
            let n = number.least().cast_signed();
            write!(text, "{n}")?;
        }
        _ => push_value(text, shape, by)?,
    }
    match (by, op, e.value(dst)) {
        (Abs::Num(n), _, _) if n.is_single() => text.push_str(" may move it out of its region"),
        (Abs::Num(_), AluOp::Add, Abs::Ctx(_)) => text.push_str(" may move it out of its region"),
        (Abs::Num(_), _, _) => text.push_str(" isn't a single number"),
        _ => Ok(()),
    }
}

fn push_result(text: &mut String, shape: &Shape, e: &AbsState) -> Result<(), AllocError> {
    push_register_is(text, shape, e, Reg::R0)?;
    match (e.value(Reg::R0), shape.releases()) {
        (Abs::Num(_), 1) => text.push_str(", and there is 1 release"),
        (Abs::Num(_), releases) => write!(text, ", and there are {releases} releases"),
        _ => text.push_str(", which is no number"),
    }
}
