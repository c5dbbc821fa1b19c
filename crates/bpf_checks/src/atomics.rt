//! Atomic operations (RFC 9669, "Atomic Operations"): the rules that they may break, and the state
//! after them.

ghost use Rattle.std.specs.Prelude.{◌≡◌, ◌∷◌, ℤ, true};
ghost use Rattle.std.specs.List.{list_any};
ghost use Rattle.bpf_semantics.specs.Counters as counters;
ghost use Rattle.abs_value.specs.States.{value_of};
ghost use Rattle.abs_value.specs.Values.{is_unusable, is_pointer};
ghost use Rattle.bpf_checks.specs.Reads as reads;
ghost use Rattle.bpf_checks.specs.Rules as rules;
ghost use Rattle.bpf_checks.specs.Transfer as transfer;

use crate::access::Access;
use crate::memory::{changes_context, exchanges_stack, is_no_address, is_outside, reaches_quota};
use crate::refusal::VerifierRule;
use abs_value::{Abs, AbsState, Number};
use bpf_insn::{AtomicOp, AtomicSize, Insn, Reg};
use bpf_semantics::fetched;
use cells::Shape;

/// Whether R10 would get the old value.
fn fetches_frame(op: AtomicOp, src: Reg) -> bool
    ensures { result ≡ rules.is_frame (counters.fetched op src) }
{
    match fetched(op, src) {
        Some(r) => r.index() == 10,
        None => false,
    }
}

/// Whether the operation compares with R0.
fn compares(op: AtomicOp) -> bool
    ensures { result ≡ list_any (λ r. true) (reads.compared_register op) }
{
    op == AtomicOp::CompareExchange
}

fn is_one(value: Abs) -> bool
    ensures { result ≡ rules.is_one value }
{
    match value {
        Abs::Num(n) => n.is_only(1),
        _ => false,
    }
}

/// Whether a quota allows the operation: a fetch-add of 1.
fn takes(e: &AbsState, op: AtomicOp, src: Reg) -> bool
    ensures { (size : AtomicSize) (dst : Reg) (offset : ℤ)
        → rules.leaves_quota e.now (Insn.Atomic op size dst src offset) ≡ result }
{
    op == AtomicOp::FetchAdd && is_one(e.value(src))
}

/// Whether a register that the operation reads may be unset.
fn reads_unusable(e: &AbsState, op: AtomicOp, dst: Reg, src: Reg) -> bool
    ensures { result ≡ list_any (λ r. is_unusable (value_of e.now r))
        (dst ∷ src ∷ reads.compared_register op) }
{
    e.value(dst).is_unusable()
        || e.value(src).is_unusable()
        || (compares(op) && e.value(Reg::R0).is_unusable())
}

fn stores_pointer(e: &AbsState, op: AtomicOp, src: Reg) -> bool
    ensures { result ≡ list_any (λ r. is_pointer (value_of e.now r))
        (src ∷ reads.compared_register op) }
{
    e.value(src).is_pointer() || (compares(op) && e.value(Reg::R0).is_pointer())
}

/// The first rule that an atomic operation breaks.
#[tactic(auto, unfolding(crate::specs::Rules::first_rule))]
pub fn atomic_rule(
    shape: &Shape,
    e: &AbsState,
    op: AtomicOp,
    size: AtomicSize,
    dst: Reg,
    src: Reg,
    offset: i16,
) -> Option<VerifierRule>
    ensures { rules.first_rule shape.now e.now (Insn.Atomic op size dst src offset) ≡ result }
{
    let address = e.value(dst);
    let access = Access::atomic(size, dst, offset);
    if reads_unusable(e, op, dst, src) {
        Some(VerifierRule::Unusable)
    } else if fetches_frame(op, src) {
        Some(VerifierRule::WritesFrame)
    } else if is_outside(shape, access, address) {
        Some(VerifierRule::Access)
    } else if stores_pointer(e, op, src) {
        Some(VerifierRule::StoresPointer)
    } else if changes_context(access, address) {
        Some(VerifierRule::WritesContext)
    } else if is_no_address(access, address) {
        Some(VerifierRule::NotAddress)
    } else if exchanges_stack(access, address) {
        Some(VerifierRule::Kind)
    } else if !takes(e, op, src) && reaches_quota(shape, access, address) {
        Some(VerifierRule::QuotaCell)
    } else {
        None
    }
}

/// The state after an atomic operation: the register that gets the old value may have any number of
/// the cell's width.
pub fn exchange_in(e: &mut AbsState, op: AtomicOp, size: AtomicSize, src: Reg)
    ensures { let r = counters.fetched op src in
        e.new ≡ transfer.with_fetched e.old r (transfer.fetched_value size) }
{
    if let Some(r) = fetched(op, src) {
        let hi = match size {
            AtomicSize::Word => u32::MAX as u64,
            AtomicSize::Double => u64::MAX,
        };
        e.set(r, Abs::Num(Number::up_to(hi)));
    }
}
