//! All warnings on an app's rule.

ghost use Rattle.std.specs.Prelude.{◌≡◌, ◌++◌, OnOk, IfOk};
ghost use Rattle.warnings.specs.RuleWarnings as specs;
ghost use Rattle.warnings.specs.Evaluation.{rule_of};
ghost use Rattle.warnings.specs.Spots as places;

use crate::budget::remaining_budget;
use crate::evaluating::EvaluatedRule;
use crate::getting::client_evaluations;
use crate::given::push_given_warnings;
use crate::marks::marks_of;
use crate::parts::push_parts_of_rule;
use crate::spot::{Spot, spots_of};
use crate::warning::{Warning, WarningKind, WarningPlace};
use crate::whens::push_when_warnings;
use std::alloc::{AllocError, Global};

fn push_answer_warnings(
    alloc: Global,
    warnings: &mut Vec<Warning>,
    app: usize,
    evaluated: &EvaluatedRule<'_>,
    spots: &[Spot],
) -> Result<(), AllocError>
    requires { spots.now ≡ places.spots_of (rule_of evaluated.now).rule }
    ensures { OnOk result (warnings.new.items
        ≡ warnings.old.items ++ specs.evaluated_warnings app (rule_of evaluated.now)) }
{
    let marks = marks_of(alloc, evaluated, spots)?;
    push_when_warnings(warnings, app, evaluated, &marks)?;
    push_given_warnings(alloc, warnings, app, evaluated, &marks)
}

// What is left of the budget after evaluating a rule at `versions` versions, and for the clients of
// its `when`s; none if that isn't enough.
fn budget_after(evaluated: &EvaluatedRule<'_>, versions: u64, budget: u64) -> Option<u64>
    ensures { result ≡ specs.budget_by versions (rule_of evaluated.now) budget }
{
    let Some(left) = remaining_budget(versions, budget, evaluated.statements) else {
        return None;
    };
    let clients = client_evaluations(evaluated).unwrap_or(0);
    remaining_budget(clients, left, evaluated.statements)
}

// Warnings that need evaluation, if the budget is enough.
fn push_evaluated_warnings(
    alloc: Global,
    warnings: &mut Vec<Warning>,
    app: usize,
    evaluated: &EvaluatedRule<'_>,
    budget: u64,
) -> Result<u64, AllocError>
    ensures reported { OnOk result (warnings.new.items ≡ warnings.old.items
        ++ specs.warnings_within (specs.budget_after (rule_of evaluated.now) budget) app
        (rule_of evaluated.now)) }
    ensures budget { IfOk result (λ left. left ≡ specs.budget_left budget (rule_of evaluated.now)) }
{
    let spots = spots_of(alloc, evaluated.statements)?;
    let versions = (spots.len() + evaluated.releases.len()) as u64;
    match budget_after(evaluated, versions, budget) {
        Some(left) => {
            push_answer_warnings(alloc, warnings, app, evaluated, spots.as_slice())?;
            Ok(left)
        }
        None => {
            let place = WarningPlace::App(app);
            let kind = WarningKind::NotEvaluated;
            warnings.push(Warning { place, kind })?;
            Ok(budget)
        }
    }
}

/// Adds the warnings on the rule of an app, and returns the budget that is left for other rules. It
/// warns of
///
/// - a test `bucket < n` or `bucket <= n` that holds for only 1 to 99 of the 10,000 buckets, or for
///   all since n is above 10,000. It may have a salt but no modulus, and may be anywhere in a
///   condition;
/// - a `take` before the first test of the version in its `when`, since it counts whatever the
///   version is;
/// - a `when` that is never reached or never holds, and a release that no bucket gets, nor a later
///   one: at any version, for any other attributes and any counter replies;
/// - a release if a client at its version may, in some bucket, be offered that version again or a
///   lower one: if the client sends only its version, or also what the tests of some `when`
///   require, and each counter replies 0.
///
/// A rule costs one unit of the budget for each `count`, each step of its conditions, and each
/// evaluation. It is evaluated at the lowest version, at each version that it names, just above
/// each, and for each release; also for the clients of its `when`s with each release, unless these
/// would cost more than 1000 units. A rule that would exceed the budget isn't evaluated and costs
/// nothing, and the warning says so. Its tests are still read.
// open: whether an allocation fails; that a rule with such a `when` or release has its warning: one
// may be missing.
pub fn push_rule_warnings(
    alloc: Global,
    warnings: &mut Vec<Warning>,
    app: usize,
    evaluated: &EvaluatedRule<'_>,
    budget: u64,
) -> Result<u64, AllocError>
    ensures reported { OnOk result (warnings.new.items
        ≡ warnings.old.items ++ specs.rule_warnings app budget (rule_of evaluated.now)) }
    ensures budget { IfOk result (λ left. left ≡ specs.budget_left budget (rule_of evaluated.now)) }
{
    push_parts_of_rule(warnings, app, evaluated.statements)?;
    push_evaluated_warnings(alloc, warnings, app, evaluated, budget)
}
