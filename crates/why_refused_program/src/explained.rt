//! A whole program, place by place, with the verifier's entries.

ghost use Rattle.std.specs.Prelude.{◌≡◌, ◌<◌, ◌+◌, ℕ, List, IfOk, OnOk, Some, None};
ghost use Rattle.std.specs.Prelude.{string_bytes, option_copied};
ghost use Rattle.std.specs.Prelude.{Ok};
ghost use Rattle.bpf_text.specs.Assembly.{Assembles};
ghost use Rattle.bpf_semantics.specs.Program.{shaped};
ghost use Rattle.bpf_verify.specs.Walk.{IsWalkBefore};
ghost use Rattle.flow_check.specs.Flow.{program_bytes};
ghost use Rattle.cells.specs.Arrays.{AppShape};
ghost use Rattle.why_refused_program.specs.Lines.{IsExplained, IsFinding, WalkParts, ExplainsUpTo};
ghost use Rattle.why_refused_program.specs.Lines as specs;

use crate::insn_line::push_line;
use crate::way::Way;
use abs_value::AbsState;
use bpf_insn::Insn;
use bpf_text::{push_bare_line, remarks_are_skipped};
use bpf_verify::{Refusal, Walk, end_is_accepted};
use cells::Shape;
use flow_check::Flow;
use std::alloc::{AllocError, Global};

/// The explanation of a program: its listing with comments, and why it is refused, if it is.
#[derive(Drop)]
pub struct Explained {
    pub text: String,
    pub refusal: Option<Refusal>,
}

fn way_past(shape: &Shape, slot: usize, entry: Option<&AbsState>, insn: &Insn) -> Way
    requires { slot < 4096 }
    ensures { result ≡ specs.way_past_entry shape.now slot (option_copied entry.entry) insn.now }
{
    match entry {
        Some(e) => Way::past(shape, slot, e, insn),
        None => Way::still(),
    }
}

// The lines of the instructions from the slot on, without comments.
fn push_rest(text: &mut String, flow: &Flow, slot: usize) -> Result<(), AllocError>
    requires { WalkParts flow.now slot }
    ensures { OnOk result ((shape : AppShape) (why : List ℕ)
        → ExplainsUpTo (shaped flow.now shape) why None slot (string_bytes text.old)
        → IsExplained (shaped flow.now shape) (string_bytes text.new)) }
{
    flow.invariant_law();
    let mut slot = slot;
    while slot < flow.len() {
        let insn = flow.insn(slot);
        push_bare_line(text, *insn)?;
        text.push_str("\n")?;
        slot += insn.width().slots();
    }
    Ok(())
}

// Place by place, up to the first instruction that breaks a rule.
fn tell(alloc: Global, flow: &Flow, shape: &Shape) -> Result<Explained, AllocError>
    ensures text { IfOk result
        (λ x. IsExplained (shaped flow.now shape.now) (string_bytes x.text)) }
    ensures verdict { IfOk result (λ x. IsFinding flow.now shape.now x.refusal) }
{
    let mut walk = Walk::start(alloc, flow)?;
    // By one call: at each `?` its many parts would be dropped one by one.
    let lines = explain_walk(alloc, flow, shape, &mut walk);
    drop(walk);
    lines
}

// The same, for a walk at its beginning.
fn explain_walk(
    alloc: Global,
    flow: &Flow,
    shape: &Shape,
    walk: &mut Walk,
) -> Result<Explained, AllocError>
    requires { IsWalkBefore flow.now shape.now 0 walk.old }
    ensures text { IfOk result
        (λ x. IsExplained (shaped flow.now shape.now) (string_bytes x.text)) }
    ensures verdict { IfOk result (λ x. IsFinding flow.now shape.now x.refusal) }
{
    flow.invariant_law();
    let mut text = String::new(alloc);
    let mut way = Way::still();
    let mut slot = 0;
    while slot < flow.len() {
        let insn = flow.insn(slot);
        walk.arrive(slot)?;
        push_line(&mut text, shape, slot, walk.entry(), insn, &way)?;
        if let Err(refusal) = walk.judge(flow, shape, slot, insn) {
            push_rest(&mut text, flow, slot + insn.width().slots())?;
            return Ok(Explained {
                text,
                refusal: Some(refusal),
            });
        }
        way = way_past(shape, slot, walk.entry(), insn);
        walk.carry_on(flow, shape, slot, insn)?;
        slot += insn.width().slots();
    }
    end_is_accepted();
    Ok(Explained {
        text,
        refusal: None,
    })
}

/// The listing of a program with a comment on each instruction: what is known before it, up to the
/// first instruction that breaks a rule. There the comment has the rule, and what is known instead
/// of what it requires. A returned refusal is never V15.
// open: whether an allocation fails, its one error, which a comment with a control character would
// be too; the words about a broken rule: rows.
pub fn explain(alloc: Global, flow: &Flow, shape: &Shape) -> Result<Explained, AllocError>
    ensures text { IfOk result
        (λ x. IsExplained (shaped flow.now shape.now) (string_bytes x.text)) }
    ensures verdict { IfOk result (λ x. IsFinding flow.now shape.now x.refusal) }
    ensures assembles { IfOk result
        (λ x. Assembles (string_bytes x.text) (Ok (program_bytes flow.now))) }
{
    flow.invariant_law();
    remarks_are_skipped();
    let explained = tell(alloc, flow, shape)?;
    Ok(explained)
}
