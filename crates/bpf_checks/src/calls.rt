//! Calls of helpers, and the end of a run: the rules that CALL and EXIT may break.

ghost use Rattle.std.specs.Prelude.{◌≡◌};
ghost use Rattle.std.specs.List.{list_any};
ghost use Rattle.cells.specs.Arrays.{AppShape};
ghost use Rattle.abs_value.specs.States.{value_of};
ghost use Rattle.abs_value.specs.Values.{is_unusable};
ghost use Rattle.bpf_checks.specs.Reads as reads;
ghost use Rattle.bpf_checks.specs.Rules as rules;

use crate::memory::text_unset;
use crate::refusal::VerifierRule;
use abs_value::{Abs, AbsState};
use bpf_insn::{Insn, Reg};
use bpf_semantics::STACK_SIZE;
use bpf_semantics::helpers::Prototype;
use cells::Shape;

/// The most bytes of a text that attr_is compares.
const MAX_TEXT: u64 = 64;

/// Whether an argument register may be unset.
fn reads_unusable(e: &AbsState, called: Option<Prototype>) -> bool
    ensures { result ≡ list_any (λ r. is_unusable (value_of e.now r)) (reads.arguments called) }
{
    match called {
        Some(Prototype::OfMap) => {
            e.value(Reg::R1).is_unusable() || e.value(Reg::R2).is_unusable()
        }
        Some(Prototype::OfText) => {
            e.value(Reg::R1).is_unusable()
                || e.value(Reg::R2).is_unusable()
                || e.value(Reg::R3).is_unusable()
        }
        Some(Prototype::OfNumber { .. }) => e.value(Reg::R1).is_unusable(),
        None => false,
    }
}

/// Whether a byte of the text that the helper compares may be unset.
fn compares_unset(e: &AbsState, called: Option<Prototype>) -> bool
    ensures { result ≡ rules.compares_unset e.now called }
{
    match called {
        Some(Prototype::OfText) => text_unset(e, e.value(Reg::R2), e.value(Reg::R3)),
        _ => false,
    }
}

/// Whether it is a text in the stack: an address, and a single length of at most 64.
fn is_stack_text(address: Abs, length: Abs) -> bool
    ensures { result ≡ rules.is_stack_text address length }
{
    match (address, length) {
        (Abs::Stk { place }, Abs::Num(n)) => {
            let bytes = n.least();
            n.is_single() && bytes <= MAX_TEXT && place as u64 + bytes <= STACK_SIZE as u64
        }
        _ => false,
    }
}

fn is_map(value: Abs) -> bool
    ensures { result ≡ rules.is_map value }
{
    matches!(value, Abs::Map { .. })
}

/// Whether the helper accepts its arguments.
fn takes(e: &AbsState, called: Option<Prototype>) -> bool
    ensures { result ≡ rules.takes e.now called }
{
    match called {
        Some(Prototype::OfMap) => is_map(e.value(Reg::R1)) && e.value(Reg::R2).is_number(),
        Some(Prototype::OfText) => {
            e.value(Reg::R1).is_number() && is_stack_text(e.value(Reg::R2), e.value(Reg::R3))
        }
        Some(Prototype::OfNumber { .. }) => e.value(Reg::R1).is_number(),
        None => false,
    }
}

/// The first rule that a CALL breaks.
#[tactic(auto, unfolding(crate::specs::Rules::first_rule))]
pub fn call_rule(e: &AbsState, helper: i32) -> Option<VerifierRule>
    ensures { (shape : AppShape) → rules.first_rule shape e.now (Insn.Call helper) ≡ result }
{
    let called = Prototype::called(helper);
    if reads_unusable(e, called) || compares_unset(e, called) {
        Some(VerifierRule::Unusable)
    } else if !takes(e, called) {
        Some(VerifierRule::Helper)
    } else {
        None
    }
}

fn is_choice(shape: &Shape, value: Abs) -> bool
    ensures { result ≡ rules.is_choice shape.now value }
{
    match value {
        Abs::Num(n) => n.is_at_most(shape.releases() as u64),
        _ => false,
    }
}

/// The first rule that EXIT breaks.
#[tactic(auto, unfolding(crate::specs::Rules::first_rule))]
pub fn exit_rule(shape: &Shape, e: &AbsState) -> Option<VerifierRule>
    ensures { rules.first_rule shape.now e.now Insn.Exit ≡ result }
{
    let value = e.value(Reg::R0);
    if value.is_unusable() {
        Some(VerifierRule::Unusable)
    } else if !is_choice(shape, value) {
        Some(VerifierRule::Result)
    } else {
        None
    }
}
