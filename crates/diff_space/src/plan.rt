//! A plan: a rule whose tests are about cells of dimensions. It is made only if each test's
//! dimension has the cuts that the test needs.

ghost use Rattle.std.specs.Prelude.{◌≡◌, All, IfOk, IfSome};
ghost use Rattle.std.specs.List.{AllZip};
ghost use Rattle.diff_space.specs.Lines.{IsLine};
ghost use Rattle.diff_space.specs.Plans.{IsPlanOf, IsStatementOf, IsStepOf};
ghost use Rattle.diff_space.specs.Scopes.{IsWithin, scope_of};

use crate::bounds::{Bounds, RuleSide, content_of};
use crate::dimension::Dimension;
use crate::plan_test::{PlanTest, cell_named, plan_test};
use rule_lang::{Statement, Step};
use std::alloc::{AllocError, Global};
use std::marker::Model;

/// One step of a condition, in post-fix order.
#[derive(Clone, Copy)]
pub enum PlanStep {
    Test(PlanTest),
    Not,
    And,
    Or,
}

/// The steps of a condition.
#[derive(Drop)]
pub struct PlanCondition {
    steps: Vec<PlanStep>,
}

impl Model for PlanCondition {
    ghost use Rattle.std.specs.Prelude.{List};
    ghost use Rattle.diff_space.specs.declared.plan.PlanStep.{PlanStep};

    ghost Value = { List PlanStep };

    ghost view = { λ c. c.steps.items };
}

impl PlanCondition {
    /// The steps, in post-fix order.
    pub fn steps(&self) -> &[PlanStep]
        ensures { result.now ≡ self.now }
    {
        &self.steps
    }
}

/// A statement: an addition to a cell, or a `when` with its steps and the content that it gives.
#[derive(Drop)]
pub enum PlanStatement {
    Count {
        cell: u32,
    },
    When {
        condition: PlanCondition,
        outcome: u8,
    },
}

/// The statements of a rule, in order.
#[derive(Drop)]
pub struct Plan {
    statements: Vec<PlanStatement>,
}

impl Model for Plan {
    ghost use Rattle.std.specs.Prelude.{List};
    ghost use Rattle.diff_space.specs.declared.plan.PlanStatement.{PlanStatement};

    ghost Value = { List PlanStatement };

    ghost view = { λ p. p.statements.items };
}

impl Plan {
    /// The statements, in order.
    pub fn statements(&self) -> &[PlanStatement]
        ensures { result.now ≡ self.now }
    {
        &self.statements
    }
}

fn plan_step(
    bounds: &Bounds<'_>,
    dimensions: &[Dimension],
    rule: &RuleSide<'_>,
    step: &Step,
) -> Option<PlanStep>
    requires { All (IsLine (scope_of bounds.now)) dimensions.now }
    ensures { IfSome result (IsStepOf (IsWithin (scope_of bounds.now)) dimensions.now
        rule.now.shape.now step.now) }
{
    match step {
        Step::Test { test, .. } => match plan_test(bounds, dimensions, rule.shape, test) {
            Some(test) => Some(PlanStep::Test(test)),
            None => None,
        },
        Step::Not => Some(PlanStep::Not),
        Step::And => Some(PlanStep::And),
        Step::Or => Some(PlanStep::Or),
    }
}

fn plan_steps(
    alloc: Global,
    bounds: &Bounds<'_>,
    dimensions: &[Dimension],
    rule: &RuleSide<'_>,
    steps: &[Step],
) -> Result<Option<PlanCondition>, AllocError>
    requires { All (IsLine (scope_of bounds.now)) dimensions.now }
    ensures { IfOk result (λ o. IfSome o (AllZip (IsStepOf (IsWithin (scope_of bounds.now))
        dimensions.now rule.now.shape.now) steps.now)) }
{
    let mut planned = Vec::with_capacity(alloc, steps.len())?;
    let mut left = steps;
    while let [step, others @ ..] = left {
        let Some(step) = plan_step(bounds, dimensions, rule, step) else {
            return Ok(None);
        };
        planned.push(step)?;
        left = others;
    }
    Ok(Some(PlanCondition { steps: planned }))
}

fn plan_statement(
    alloc: Global,
    bounds: &Bounds<'_>,
    dimensions: &[Dimension],
    rule: &RuleSide<'_>,
    statement: &Statement,
) -> Result<Option<PlanStatement>, AllocError>
    requires { All (IsLine (scope_of bounds.now)) dimensions.now }
    ensures { IfOk result (λ o. IfSome o (IsStatementOf (IsWithin (scope_of bounds.now))
        dimensions.now rule.now.shape.now rule.now.contents.now statement.now)) }
{
    match statement {
        Statement::Count { array, index } => match cell_named(rule.shape, array, *index) {
            Some(cell) => Ok(Some(PlanStatement::Count { cell })),
            None => Ok(None),
        },
        Statement::When { condition, release } => {
            let Some(outcome) = content_of(rule.contents, *release) else {
                return Ok(None);
            };
            match plan_steps(alloc, bounds, dimensions, rule, condition.steps())? {
                Some(condition) => Ok(Some(PlanStatement::When { condition, outcome })),
                None => Ok(None),
            }
        }
    }
}

/// The plan of a rule over these dimensions; none if they don't decide each test.
pub(crate) fn plan_of(
    alloc: Global,
    bounds: &Bounds<'_>,
    dimensions: &[Dimension],
    rule: &RuleSide<'_>,
) -> Result<Option<Plan>, AllocError>
    requires { All (IsLine (scope_of bounds.now)) dimensions.now }
    ensures { IfOk result (λ o. IfSome o (IsPlanOf (IsWithin (scope_of bounds.now))
        dimensions.now rule.now.shape.now rule.now.contents.now rule.now.statements.now)) }
{
    let mut planned = Vec::new(alloc);
    let mut left = rule.statements;
    while let [statement, others @ ..] = left {
        let Some(statement) = plan_statement(alloc, bounds, dimensions, rule, statement)? else {
            return Ok(None);
        };
        planned.push(statement)?;
        left = others;
    }
    Ok(Some(Plan {
        statements: planned,
    }))
}
