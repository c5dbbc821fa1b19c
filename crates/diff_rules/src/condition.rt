//! Evaluates a condition on segments of some dimensions, step by step. Both parts of `and` and `or`
//! are evaluated. If the first part already decides, the takes of the second are undone.

ghost use Rattle.std.specs.Prelude.{◌≡◌, ◌∷◌, [], Some, IfOk, OnOk, reverse};
ghost use Rattle.diff_rules.specs.Stack as specs;
ghost use Rattle.diff_space.specs.declared.plan.PlanStep.TheVariants as plan_step;

use crate::truth::{Truth, truth_of};
use diff_space::{Dimension, PlanStep, PlanTest};
use std::alloc::{AllocError, Global};

/// A part of a condition: whether it holds, and how many takes the run had before it.
#[derive(Clone, Copy)]
pub(crate) struct PartTruth {
    pub truth: Truth,
    pub start: usize,
}

fn goes_on(on: Truth, first: Truth) -> bool
    ensures { result ≡ specs.goes_on on first }
{
    match (on, first) {
        (Truth::Holds, Truth::Holds) => true,
        (Truth::Fails, Truth::Fails) => true,
        _ => false,
    }
}

fn add_taken(taken: &mut Vec<u32>, test: PlanTest) -> Result<(), AllocError>
    ensures { OnOk result (reverse taken.new.items
        ≡ specs.taken_by test (reverse taken.old.items)) }
{
    match test {
        PlanTest::Takes { cell, .. } => {
            taken.push(cell)?;
            Ok(())
        }
        PlanTest::Constant(_) => Ok(()),
        PlanTest::Compares { .. } => Ok(()),
    }
}

fn add_test(
    dimensions: &[Dimension],
    partial: &[Option<u16>],
    parts: &mut Vec<PartTruth>,
    taken: &mut Vec<u32>,
    test: PlanTest,
) -> Result<(), AllocError>
    ensures { OnOk result (specs.stepped dimensions.now partial.now (plan_step.Test test)
        (reverse parts.old.items) (reverse taken.old.items)
        ≡ Some (specs.stacked (reverse parts.new.items) (reverse taken.new.items))) }
{
    let start = taken.len();
    let truth = truth_of(dimensions, partial, taken.as_slice(), test);
    add_taken(taken, test)?;
    parts.push(PartTruth { truth, start })?;
    Ok(())
}

// Negates the newest part, if there is one.
fn negate(parts: &mut Vec<PartTruth>) -> Result<(), AllocError>
    ensures { (taken : _) → OnOk result (specs.not_newest (reverse parts.old.items) taken
        ≡ Some (specs.stacked (reverse parts.new.items) taken)) }
{
    let Some(newest) = parts.pop() else {
        return Err(AllocError);
    };
    let truth = newest.truth.negated();
    parts.push(PartTruth {
        truth,
        start: newest.start,
    })?;
    Ok(())
}

// Keeps only the first `count` takes of a run.
fn undo(taken: &mut Vec<u32>, count: usize)
    ensures { reverse taken.new.items ≡ specs.first_takes count (reverse taken.old.items) }
{
    taken.truncate(count);
}

fn joined(on: Truth, first: PartTruth, second: PartTruth, taken: &mut Vec<u32>) -> PartTruth
    ensures { (below : _) → specs.join_two on (second ∷ first ∷ below) (reverse taken.old.items)
        ≡ Some (specs.stacked (result ∷ below) (reverse taken.new.items)) }
{
    if goes_on(on, first.truth) {
        return PartTruth {
            truth: second.truth,
            start: first.start,
        };
    }
    undo(taken, second.start);
    first
}

// Joins the two newest parts, if there are two. The second counts if the first has this truth.
fn join(parts: &mut Vec<PartTruth>, taken: &mut Vec<u32>, on: Truth) -> Result<(), AllocError>
    ensures { OnOk result (specs.join_two on (reverse parts.old.items) (reverse taken.old.items)
        ≡ Some (specs.stacked (reverse parts.new.items) (reverse taken.new.items))) }
{
    let Some(second) = parts.pop() else {
        return Err(AllocError);
    };
    let Some(first) = parts.pop() else {
        return Err(AllocError);
    };
    let one = joined(on, first, second, taken);
    parts.push(one)?;
    Ok(())
}

fn take_step(
    dimensions: &[Dimension],
    partial: &[Option<u16>],
    parts: &mut Vec<PartTruth>,
    taken: &mut Vec<u32>,
    step: PlanStep,
) -> Result<(), AllocError>
    ensures { OnOk result (specs.stepped dimensions.now partial.now step (reverse parts.old.items)
        (reverse taken.old.items)
        ≡ Some (specs.stacked (reverse parts.new.items) (reverse taken.new.items))) }
{
    match step {
        PlanStep::Test(test) => add_test(dimensions, partial, parts, taken, test),
        PlanStep::Not => negate(parts),
        PlanStep::And => join(parts, taken, Truth::Holds),
        PlanStep::Or => join(parts, taken, Truth::Fails),
    }
}

fn take_steps(
    dimensions: &[Dimension],
    partial: &[Option<u16>],
    parts: &mut Vec<PartTruth>,
    taken: &mut Vec<u32>,
    steps: &[PlanStep],
) -> Result<(), AllocError>
    ensures { OnOk result (specs.after_steps dimensions.now partial.now (reverse parts.old.items)
        (reverse taken.old.items) steps.now
        ≡ Some (specs.stacked (reverse parts.new.items) (reverse taken.new.items))) }
{
    let mut left = steps;
    while let [step, others @ ..] = left {
        take_step(dimensions, partial, parts, taken, *step)?;
        left = others;
    }
    Ok(())
}

/// Evaluates a condition by these segments, and adds the takes that count. Also returns an error,
/// like that of a failed allocation, if the steps aren't a condition.
pub(crate) fn read_condition(
    alloc: Global,
    dimensions: &[Dimension],
    partial: &[Option<u16>],
    taken: &mut Vec<u32>,
    steps: &[PlanStep],
) -> Result<PartTruth, AllocError>
    ensures { IfOk result (λ p. specs.after_steps dimensions.now partial.now []
        (reverse taken.old.items) steps.now
        ≡ Some (specs.stacked (p ∷ []) (reverse taken.new.items))) }
{
    let mut parts = Vec::new(alloc);
    take_steps(dimensions, partial, &mut parts, taken, steps)?;
    let Some(whole) = parts.pop() else {
        return Err(AllocError);
    };
    if !parts.is_empty() {
        return Err(AllocError);
    }
    Ok(whole)
}
