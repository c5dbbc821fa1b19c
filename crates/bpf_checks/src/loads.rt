//! Loads (RFC 9669, "Load and Store Instructions"), and wide loads ("64-bit Immediate
//! Instructions"): the rules that they may break, and the values that they give.

ghost use Rattle.std.specs.Prelude.{◌≡◌};
ghost use Rattle.bpf_semantics.specs.Reads as counts;
ghost use Rattle.bpf_checks.specs.Memory as memory;
ghost use Rattle.bpf_checks.specs.Rules as rules;
ghost use Rattle.bpf_checks.specs.Transfer.{loaded_at};

use crate::access::Access;
use crate::arrays::wide;
use crate::memory::{is_no_address, is_outside, meets_unset, stack_place};
use crate::refusal::VerifierRule;
use abs_value::{Abs, AbsState};
use bpf_insn::{Insn, LoadKind, Reg, WideValue};
use bpf_semantics::load_count;
use cells::Shape;

/// The first rule that a load breaks.
#[tactic(auto, unfolding(crate::specs::Rules::first_rule))]
pub fn load_rule(
    shape: &Shape,
    e: &AbsState,
    kind: LoadKind,
    dst: Reg,
    src: Reg,
    offset: i16,
) -> Option<VerifierRule>
    ensures { rules.first_rule shape.now e.now (Insn.Load kind dst src offset) ≡ result }
{
    let address = e.value(src);
    let access = Access::load(kind, src, offset);
    if address.is_unusable() || meets_unset(e, address, offset, access.count) {
        Some(VerifierRule::Unusable)
    } else if dst.index() == 10 {
        Some(VerifierRule::WritesFrame)
    } else if is_outside(shape, access, address) {
        Some(VerifierRule::Access)
    } else if is_no_address(access, address) {
        Some(VerifierRule::NotAddress)
    } else {
        None
    }
}

/// The value of a load.
pub fn load(e: &AbsState, kind: LoadKind, address: Abs, offset: i16) -> Abs
    ensures { let place = memory.stack_place address offset (counts.load_count kind) in
        result ≡ loaded_at e.now place kind }
{
    match stack_place(address, offset, load_count(kind)) {
        Some(place) => e.load(place, kind),
        None => Abs::loaded(kind),
    }
}

/// The first rule that a wide load breaks.
#[tactic(auto, unfolding(crate::specs::Rules::first_rule))]
pub fn wide_rule(shape: &Shape, dst: Reg, value: WideValue) -> Option<VerifierRule>
    ensures { (e : AbsState) → rules.first_rule shape.now e (Insn.Wide dst value) ≡ result }
{
    if dst.index() == 10 {
        Some(VerifierRule::WritesFrame)
    } else if wide(shape, value).is_none() {
        Some(VerifierRule::MapIndex)
    } else {
        None
    }
}
