//! The possible paths through a rule, statement by statement.

ghost use Rattle.std.specs.Prelude.{◌≡◌, IfOk};
ghost use Rattle.warnings.specs.Course as specs;
ghost use Rattle.warnings.specs.Possible.{test_possible};

use crate::condition::condition_possible;
use crate::possible::{Clients, Possible};
use attrs::Attrs;
use cells::Shape;
use rule_lang::Statement;
use std::alloc::AllocError;

/// `holds`: the statement may end the rule; `fails`: the rule may continue after it.
pub(crate) fn statement_possible(
    stack: &mut Vec<Possible>,
    clients: Clients,
    attrs: &Attrs,
    shape: &Shape,
    statement: &Statement,
) -> Result<Possible, AllocError>
    ensures { IfOk result (λ p.
        p ≡ specs.statement_possible (test_possible clients attrs.now shape.now) statement.now) }
{
    match statement {
        Statement::Count { .. } => Ok(Possible::decided(false)),
        Statement::When { condition, .. } => {
            condition_possible(stack, clients, attrs, shape, condition)
        }
    }
}

/// The release with which a statement ends a rule, or 0.
pub(crate) fn offered(statement: &Statement) -> u8
    ensures { result ≡ specs.offered statement.now }
{
    match statement {
        Statement::Count { .. } => 0,
        Statement::When { release, .. } => *release,
    }
}

/// The release of the first statement that may end the rule, or 0.
pub(crate) fn first_offer(
    stack: &mut Vec<Possible>,
    clients: Clients,
    attrs: &Attrs,
    shape: &Shape,
    statements: &[Statement],
) -> Result<u8, AllocError>
    ensures { IfOk result (λ release.
        release ≡ specs.first_offer (test_possible clients attrs.now shape.now) statements.now) }
{
    let mut left = statements;
    while let [statement, others @ ..] = left {
        let possible = statement_possible(stack, clients, attrs, shape, statement)?;
        if possible.holds {
            return Ok(offered(statement));
        }
        left = others;
    }
    Ok(0)
}
