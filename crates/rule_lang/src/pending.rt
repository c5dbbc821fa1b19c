//! A condition that is read up to some token: its steps so far, and the operators that wait for a
//! right side.

ghost use Rattle.std.specs.Prelude.{◌≡◌, ◌++◌, ◌∷◌, [], OnOk, replicate, if◌then◌else◌};
ghost use Rattle.rule_lang.specs.Reader.Drafts as drafts;
ghost use Rattle.rule_lang.specs.Named.{pending_as_lists};
ghost use Rattle.rule_lang.specs.declared.condition.Step.TheVariants as step;

use crate::condition::Step;
use crate::frame::{Frame, Frames, first_frame};
use std::alloc::AllocError;

/// The most levels of `not` and parentheses.
pub const MOST_DEPTH: u8 = 32;

/// The steps so far, the frames of the enclosing conditions, the current frame, and the number of
/// open `not`s and parentheses, up to 32.
#[derive(Drop)]
pub struct Pending {
    pub steps: Vec<Step>,
    pub below: Frames,
    pub top: Frame,
    pub depth: u8,
}

fn deeper(depth: u8) -> u8
    ensures { result ≡ drafts.deeper depth }
{
    if depth < MOST_DEPTH { depth + 1 } else { depth }
}

fn push(steps: &mut Vec<Step>, step: Step) -> Result<(), AllocError>
    ensures { OnOk result (steps.new.items ≡ steps.old.items ++ (step ∷ [])) }
{
    steps.push(step)?;
    Ok(())
}

fn push_if(steps: &mut Vec<Step>, holds: bool, step: Step) -> Result<(), AllocError>
    ensures { OnOk result (steps.new.items ≡ steps.old.items ++ (if holds then step ∷ [] else [])) }
{
    if holds { push(steps, step) } else { Ok(()) }
}

fn push_nots(steps: &mut Vec<Step>, count: u8) -> Result<(), AllocError>
    ensures { OnOk result (steps.new.items ≡ steps.old.items ++ replicate count step.Not) }
{
    for _ in 0..count {
        push(steps, Step::Not)?;
    }
    Ok(())
}

// Writes the operators that a fact completes.
fn fact_done(pending: &mut Pending) -> Result<(), AllocError>
    ensures { OnOk result
        (pending_as_lists pending.new ≡ drafts.fact_done (pending_as_lists pending.old)) }
{
    let top = pending.top;
    push_nots(&mut pending.steps, top.nots)?;
    push_if(&mut pending.steps, top.and, Step::And)?;
    pending.depth = pending.depth.saturating_sub(top.nots);
    pending.top = Frame {
        nots: 0,
        and: false,
        or: top.or,
    };
    Ok(())
}

/// Begins a condition.
pub fn begin(pending: &mut Pending, below: Frames)
    requires { below ≡ [] }
    ensures { pending_as_lists pending.new ≡ drafts.begin }
{
    pending.steps.clear();
    pending.below = below;
    pending.top = first_frame();
    pending.depth = 0;
}

/// Reads `not`.
pub fn deny(pending: &mut Pending)
    ensures { pending_as_lists pending.new ≡ drafts.denied (pending_as_lists pending.old) }
{
    pending.top.nots = deeper(pending.top.nots);
    pending.depth = deeper(pending.depth);
}

/// Reads `(`.
pub fn open(pending: &mut Pending) -> Result<(), AllocError>
    ensures { OnOk result
        (pending_as_lists pending.new ≡ drafts.opened (pending_as_lists pending.old)) }
{
    let top = pending.top;
    pending.below.push(top)?;
    pending.top = first_frame();
    pending.depth = deeper(pending.depth);
    Ok(())
}

/// Reads a test.
pub fn test(pending: &mut Pending, step: Step) -> Result<(), AllocError>
    ensures { OnOk result
        (pending_as_lists pending.new ≡ drafts.tested step (pending_as_lists pending.old)) }
{
    push(&mut pending.steps, step)?;
    fact_done(pending)
}

/// Reads `and`.
pub fn join(pending: &mut Pending)
    ensures { pending_as_lists pending.new ≡ drafts.joined (pending_as_lists pending.old) }
{
    pending.top.and = true;
}

/// Reads `or`.
pub fn part(pending: &mut Pending) -> Result<(), AllocError>
    ensures { OnOk result
        (pending_as_lists pending.new ≡ drafts.parted (pending_as_lists pending.old)) }
{
    let top = pending.top;
    push_if(&mut pending.steps, top.or, Step::Or)?;
    pending.top.or = true;
    Ok(())
}

/// Reads `)`. Returns `false`, with no change, if no parenthesis is open.
pub fn close(pending: &mut Pending) -> Result<bool, AllocError>
    ensures { drafts.Closes (pending_as_lists pending.old) result (pending_as_lists pending.new) }
{
    let top = pending.top;
    let Some(frame) = pending.below.pop() else {
        return Ok(false);
    };
    push_if(&mut pending.steps, top.or, Step::Or)?;
    pending.top = frame;
    pending.depth = pending.depth.saturating_sub(1);
    fact_done(pending)?;
    Ok(true)
}

/// Ends a condition, at `offer`. Returns `false` if a parenthesis is open.
pub fn end(pending: &mut Pending) -> Result<bool, AllocError>
    ensures { drafts.Finishes (pending_as_lists pending.old) result (pending_as_lists pending.new) }
{
    if !pending.below.is_empty() {
        return Ok(false);
    }
    let top = pending.top;
    push_if(&mut pending.steps, top.or, Step::Or)?;
    Ok(true)
}
