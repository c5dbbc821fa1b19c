//! Runs a plan, or those of both rules, on segments of some dimensions.

ghost use Rattle.std.specs.Prelude.{◌≡◌, ◌∷◌, [], IfOk, reverse, unwrap_or};
ghost use Rattle.diff_rules.specs.Search.{pair_run};
ghost use Rattle.diff_rules.specs.Stack as specs;

use crate::condition::read_condition;
use crate::truth::Truth;
use diff_space::{Dimension, Plan, PlanStatement, Space};
use std::alloc::{AllocError, Global};

/// The result of a run: a content, or 0; or the dimension whose segment it needs; or that segments
/// don't decide it.
#[derive(Clone, Copy)]
pub(crate) enum PlanRun {
    Gives(u8),
    Needs(usize),
    Unclear,
}

// How the run ends after a `when`, unless it continues.
fn ended(truth: Truth, outcome: u8) -> Option<PlanRun>
    ensures { (rest : _) → specs.run_after truth outcome rest ≡ unwrap_or result rest }
{
    match truth {
        Truth::Holds => Some(PlanRun::Gives(outcome)),
        Truth::Fails => None,
        Truth::Needs(dimension) => Some(PlanRun::Needs(dimension)),
        Truth::Unclear => Some(PlanRun::Unclear),
    }
}

// How the run ends at one statement, if it ends there or can't continue.
fn run_statement(
    alloc: Global,
    dimensions: &[Dimension],
    partial: &[Option<u16>],
    taken: &mut Vec<u32>,
    statement: &PlanStatement,
) -> Result<Option<PlanRun>, AllocError>
    ensures { (rest : _) → IfOk result (λ o. specs.plan_run dimensions.now partial.now
        (reverse taken.old.items) (statement.now ∷ rest)
        ≡ unwrap_or o (specs.plan_run dimensions.now partial.now (reverse taken.new.items) rest)) }
{
    match statement {
        PlanStatement::Count { cell } => {
            taken.push(*cell)?;
            Ok(None)
        }
        PlanStatement::When { condition, outcome } => {
            let whole = read_condition(alloc, dimensions, partial, taken, condition.steps())?;
            Ok(ended(whole.truth, *outcome))
        }
    }
}

/// Runs a plan as far as these segments decide it.
pub(crate) fn run_plan(
    alloc: Global,
    dimensions: &[Dimension],
    partial: &[Option<u16>],
    plan: &Plan,
) -> Result<PlanRun, AllocError>
    ensures { IfOk result (λ c. c ≡ specs.plan_run dimensions.now partial.now [] plan.now) }
{
    let mut taken = Vec::new(alloc);
    let mut left = plan.statements();
    while let [statement, others @ ..] = left {
        if let Some(end) = run_statement(alloc, dimensions, partial, &mut taken, statement)? {
            return Ok(end);
        }
        left = others;
    }
    Ok(PlanRun::Gives(0))
}

/// What both rules give, or the dimension whose segment is needed.
#[derive(Clone, Copy)]
pub(crate) enum PairRun {
    Both(u8, u8),
    Needs(usize),
    Unclear,
}

/// Runs the plans of both rules as far as these segments decide them.
pub(crate) fn run_pair(
    alloc: Global,
    space: &Space,
    partial: &[Option<u16>],
) -> Result<PairRun, AllocError>
    ensures { IfOk result (λ f. f ≡ pair_run
        (specs.plan_run space.now.dimensions partial.now [] space.now.old)
        (specs.plan_run space.now.dimensions partial.now [] space.now.new)) }
{
    let now = match run_plan(alloc, &space.dimensions, partial, &space.old)? {
        PlanRun::Gives(now) => now,
        PlanRun::Needs(dimension) => return Ok(PairRun::Needs(dimension)),
        PlanRun::Unclear => return Ok(PairRun::Unclear),
    };
    match run_plan(alloc, &space.dimensions, partial, &space.new)? {
        PlanRun::Gives(next) => Ok(PairRun::Both(now, next)),
        PlanRun::Needs(dimension) => Ok(PairRun::Needs(dimension)),
        PlanRun::Unclear => Ok(PairRun::Unclear),
    }
}
