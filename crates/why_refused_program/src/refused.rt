//! Where and why a program is refused, in a sentence: for the first instruction that breaks a rule,
//! what the rule requires, and what is known instead.

ghost use Rattle.std.specs.Prelude.{◌≡◌, IfOk, IfSome, Ok, None, string_bytes};
ghost use Rattle.bpf_semantics.specs.Program.{shaped};
ghost use Rattle.bpf_verify.specs.Accepted.{IsAccepted, IsRefusal};
ghost use Rattle.bpf_verify.specs.Walk.{IsWalkBefore};
ghost use Rattle.why_refused_program.specs.RefusedPlace.{IsRefusedPlace};

use crate::sentence::cited_rule;
use abs_value::AbsState;
use bpf_insn::Insn;
use bpf_verify::{Refusal, Walk, end_is_accepted};
use cells::Shape;
use flow_check::Flow;
use std::alloc::{AllocError, Global};

/// The slot of the first instruction that breaks a rule, and the sentence of the first such rule,
/// such as `V9: r0 may be 0: compare it with 0 first`, without a line feed.
#[derive(Drop)]
pub struct RefusedPlace {
    pub slot: usize,
    pub sentence: String,
}

// The refused place has an entry, so the sentence is missing only if out of memory.
fn explain_refusal(
    alloc: Global,
    flow: &Flow,
    shape: &Shape,
    insn: &Insn,
    entry: Option<&AbsState>,
    refusal: Refusal,
) -> Result<RefusedPlace, AllocError>
    requires { IsRefusal flow.now shape.now refusal }
    ensures { IfOk result (λ spot.
        IsRefusedPlace (shaped flow.now shape.now) spot.slot (string_bytes spot.sentence)) }
{
    let (Some(e), Refusal::Rule { slot, rule }) = (entry, refusal) else {
        return Err(AllocError);
    };
    let sentence = cited_rule(alloc, shape, e, *insn, rule)?;
    Ok(RefusedPlace { slot, sentence })
}

/// Where and why `verify` refuses a program with a shape; None if it accepts the program.
// open: whether an allocation fails; the words about the broken rule: rows.
pub fn refused_place(
    alloc: Global,
    flow: &Flow,
    shape: &Shape,
) -> Result<Option<RefusedPlace>, AllocError>
    ensures refused { IfOk result (λ found. IfSome found (λ spot.
        IsRefusedPlace (shaped flow.now shape.now) spot.slot (string_bytes spot.sentence))) }
    ensures accepted { result ≡ Ok None → IsAccepted flow.now shape.now }
{
    let mut walk = Walk::start(alloc, flow)?;
    // By one call: at each `?` its many parts would be dropped one by one.
    let found = first_refused(alloc, flow, shape, &mut walk);
    drop(walk);
    found
}

// The same, for a walk at its beginning.
fn first_refused(
    alloc: Global,
    flow: &Flow,
    shape: &Shape,
    walk: &mut Walk,
) -> Result<Option<RefusedPlace>, AllocError>
    requires { IsWalkBefore flow.now shape.now 0 walk.old }
    ensures refused { IfOk result (λ found. IfSome found (λ spot.
        IsRefusedPlace (shaped flow.now shape.now) spot.slot (string_bytes spot.sentence))) }
    ensures accepted { result ≡ Ok None → IsAccepted flow.now shape.now }
{
    flow.invariant_law();
    let mut slot = 0;
    while slot < flow.len() {
        let insn = flow.insn(slot);
        walk.arrive(slot)?;
        if let Err(refusal) = walk.judge(flow, shape, slot, insn) {
            let spot = explain_refusal(alloc, flow, shape, insn, walk.entry(), refusal)?;
            return Ok(Some(spot));
        }
        walk.carry_on(flow, shape, slot, insn)?;
        slot += insn.width().slots();
    }
    end_is_accepted();
    Ok(None)
}
