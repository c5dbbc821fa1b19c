//! The budget of evaluation for all rules of a manifest.

ghost use Rattle.std.specs.Prelude.{◌≡◌, ◌*◌};
ghost use Rattle.warnings.specs.Budget as specs;

use rule_lang::Statement;

// How many steps a statement has. A `count` is one, since it is walked through like any other.
fn step_count(statement: &Statement) -> u64
    ensures { result ≡ specs.step_count statement.now }
{
    match statement {
        Statement::Count { .. } => 1,
        Statement::When { condition, .. } => condition.steps().len() as u64,
    }
}

fn budget_after_one(versions: u64, budget: u64, statement: &Statement) -> Option<u64>
    ensures { result ≡ specs.budget_less (versions * specs.step_count statement.now) budget }
{
    let Some(taken) = versions.checked_mul(step_count(statement)) else {
        return None;
    };
    budget.checked_sub(taken)
}

/// What is left of the budget after evaluating a rule at `versions` versions, or `None` if the
/// budget is too small.
pub(crate) fn remaining_budget(versions: u64, budget: u64, statements: &[Statement]) -> Option<u64>
    ensures { result ≡ specs.budget_less (specs.budget_taken versions statements.now) budget }
{
    let mut budget = budget;
    let mut left = statements;
    while let [statement, others @ ..] = left {
        let Some(behind) = budget_after_one(versions, budget, statement) else {
            return None;
        };
        budget = behind;
        left = others;
    }
    Some(budget)
}
