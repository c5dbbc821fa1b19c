//! Stores (RFC 9669, "Load and Store Instructions"): the rules that they may break, and the state
//! after them.

ghost use Rattle.std.specs.Prelude.{◌≡◌, ℤ};
ghost use Rattle.bpf_semantics.specs.Reads as counts;
ghost use Rattle.bpf_checks.specs.Memory as memory;
ghost use Rattle.bpf_checks.specs.Rules as rules;
ghost use Rattle.bpf_checks.specs.Transfer.{stored_at};

use crate::access::Access;
use crate::memory::{
    changes_context, is_no_address, is_outside, is_slot, reaches_quota, stack_place,
};
use crate::refusal::VerifierRule;
use abs_value::{Abs, AbsState};
use bpf_insn::{Insn, Reg, Size};
use bpf_semantics::byte_count;
use cells::Shape;

/// The first rule that a store of an imm breaks.
#[tactic(auto, unfolding(crate::specs::Rules::first_rule))]
pub fn store_imm_rule(
    shape: &Shape,
    e: &AbsState,
    size: Size,
    dst: Reg,
    offset: i16,
) -> Option<VerifierRule>
    ensures { (imm : ℤ)
        → rules.first_rule shape.now e.now (Insn.StoreImm size dst offset imm) ≡ result }
{
    let address = e.value(dst);
    let access = Access::store(size, dst, offset);
    if address.is_unusable() {
        Some(VerifierRule::Unusable)
    } else if is_outside(shape, access, address) {
        Some(VerifierRule::Access)
    } else if changes_context(access, address) {
        Some(VerifierRule::WritesContext)
    } else if is_no_address(access, address) {
        Some(VerifierRule::NotAddress)
    } else if reaches_quota(shape, access, address) {
        Some(VerifierRule::QuotaCell)
    } else {
        None
    }
}

/// The first rule that a store of a register breaks.
#[tactic(auto, unfolding(crate::specs::Rules::first_rule))]
pub fn store_rule(
    shape: &Shape,
    e: &AbsState,
    size: Size,
    dst: Reg,
    src: Reg,
    offset: i16,
) -> Option<VerifierRule>
    ensures { rules.first_rule shape.now e.now (Insn.Store size dst src offset) ≡ result }
{
    let address = e.value(dst);
    let value = e.value(src);
    let access = Access::store(size, dst, offset);
    if address.is_unusable() || value.is_unusable() {
        Some(VerifierRule::Unusable)
    } else if is_outside(shape, access, address) {
        Some(VerifierRule::Access)
    } else if value.is_pointer()
        && !is_slot(stack_place(address, offset, access.count), access.count)
    {
        Some(VerifierRule::StoresPointer)
    } else if changes_context(access, address) {
        Some(VerifierRule::WritesContext)
    } else if is_no_address(access, address) {
        Some(VerifierRule::NotAddress)
    } else if reaches_quota(shape, access, address) {
        Some(VerifierRule::QuotaCell)
    } else {
        None
    }
}

/// The state after a store.
pub fn store_in(e: &mut AbsState, size: Size, address: Abs, offset: i16, value: Abs)
    ensures { let n = counts.byte_count size in
        e.new ≡ stored_at e.old (memory.stack_place address offset n) n value }
{
    if let Some(place) = stack_place(address, offset, byte_count(size)) {
        e.store(place, size, value);
    }
}
