//! Whether a client that has a release gets it again, or another by its version.

ghost use Rattle.std.specs.Prelude.{◌≡◌, ◌*◌, IfOk, length};
ghost use Rattle.std.specs.List.{count_by, list_any};
ghost use Rattle.attrs.specs.Bucket.{named_bucket};
ghost use Rattle.attrs.specs.Facts.{attributes_of};
ghost use Rattle.warnings.specs.Client as clients;
ghost use Rattle.warnings.specs.Evaluation.{rule_of};
ghost use Rattle.warnings.specs.Getting as specs;

use crate::budget::remaining_budget;
use crate::client::{app_for, moment_for, request_for};
use crate::evaluating::{EvaluatedRule, gets};
use crate::wanted::needs_more;
use attrs::{AppFacts, Attrs, Bucket, named_or_hashed};
use rule_lang::{Comparison, Statement, Step};
use std::alloc::{AllocError, Global};

/// The most units that the evaluations for the clients of a rule's `when`s may cost.
const CLIENT_BUDGET: u64 = 1000;

// ---- one client

// Whether it gets such a release in the bucket that its cohort names, or otherwise in any.
fn gets_moved(
    alloc: Global,
    evaluated: &EvaluatedRule<'_>,
    by: Comparison,
    version: &str,
    app: &AppFacts,
    attrs: Attrs,
) -> Result<bool, AllocError>
    ensures { IfOk result (λ yes. yes ≡ specs.gets_moved (rule_of evaluated.now) by version.now
        (named_bucket app.now) attrs) }
{
    let mut moving = attrs;
    let mut stack = Vec::new(alloc);
    let mut bucket = 0;
    while bucket < Bucket::COUNT {
        let place = named_or_hashed(app, Bucket::new(bucket));
        moving = moving.in_bucket(place);
        if gets(&mut stack, evaluated, by, version, &moving)? {
            return Ok(true);
        }
        bucket += 1;
    }
    Ok(false)
}

// As `client_gets`, for the facts of the app.
fn app_gets(
    alloc: Global,
    evaluated: &EvaluatedRule<'_>,
    by: Comparison,
    version: &str,
    app: &AppFacts,
    steps: &[Step],
) -> Result<bool, AllocError>
    ensures { IfOk result (λ yes. yes ≡ specs.gets_moved (rule_of evaluated.now) by version.now
        (named_bucket app.now)
        (attributes_of app.now (clients.request_for steps.now) (clients.moment_for steps.now))) }
{
    let request = request_for(alloc, steps)?;
    let made = Attrs::of(alloc, app, &request, moment_for(steps));
    drop(request);
    let Ok(attrs) = made else {
        return Err(AllocError);
    };
    gets_moved(alloc, evaluated, by, version, app, attrs)
}

// Whether the client of this condition gets such a release, for some id of its request.
fn client_gets(
    alloc: Global,
    evaluated: &EvaluatedRule<'_>,
    by: Comparison,
    version: &str,
    steps: &[Step],
) -> Result<bool, AllocError>
    ensures { IfOk result (λ yes.
        yes ≡ specs.client_gets (rule_of evaluated.now) by version.now steps.now) }
{
    let app = app_for(alloc, evaluated.appid, version, steps)?;
    let got = app_gets(alloc, evaluated, by, version, &app, steps);
    drop(app);
    got
}

// ---- the clients of a rule

fn has_client(statement: &Statement) -> bool
    ensures { result ≡ specs.has_client statement.now }
{
    match statement {
        Statement::Count { .. } => false,
        Statement::When { condition, .. } => needs_more(condition.steps()),
    }
}

fn client_count(statements: &[Statement]) -> usize
    ensures { result ≡ count_by specs.has_client statements.now }
{
    let mut count = 0;
    let mut left = statements;
    while let [statement, others @ ..] = left {
        if has_client(statement) {
            count += 1;
        }
        left = others;
    }
    count
}

fn are_few(evaluations: u64, statements: &[Statement]) -> bool
    ensures { result ≡ specs.are_few evaluations statements.now }
{
    evaluations <= CLIENT_BUDGET
        && remaining_budget(evaluations, CLIENT_BUDGET, statements).is_some()
}

/// For how many clients of its `when`s a rule is evaluated: each of them for each release. `None`
/// if that would cost more than 1000 units.
pub(crate) fn client_evaluations(evaluated: &EvaluatedRule<'_>) -> Option<u64>
    ensures { result ≡ specs.client_evaluations (rule_of evaluated.now) }
{
    let clients = client_count(evaluated.statements) as u64;
    let Some(evaluations) = clients.checked_mul(evaluated.releases.len() as u64) else {
        return None;
    };
    if are_few(evaluations, evaluated.statements) {
        Some(evaluations)
    } else {
        None
    }
}

fn statement_gets(
    alloc: Global,
    evaluated: &EvaluatedRule<'_>,
    by: Comparison,
    version: &str,
    statement: &Statement,
) -> Result<bool, AllocError>
    ensures { IfOk result (λ yes.
        yes ≡ specs.statement_gets (rule_of evaluated.now) by version.now statement.now) }
{
    let Statement::When { condition, .. } = statement else {
        return Ok(false);
    };
    if needs_more(condition.steps()) {
        client_gets(alloc, evaluated, by, version, condition.steps())
    } else {
        Ok(false)
    }
}

fn some_statement_gets(
    alloc: Global,
    evaluated: &EvaluatedRule<'_>,
    by: Comparison,
    version: &str,
) -> Result<bool, AllocError>
    ensures { IfOk result (λ yes. yes ≡ list_any
        (specs.statement_gets (rule_of evaluated.now) by version.now)
        (rule_of evaluated.now).rule) }
{
    let mut left = evaluated.statements;
    while let [statement, others @ ..] = left {
        if statement_gets(alloc, evaluated, by, version, statement)? {
            return Ok(true);
        }
        left = others;
    }
    Ok(false)
}

/// Whether a client that has this version gets a release whose version compares by `by` with it:
/// one that sends only its version, or the client of some `when`. Each counter replies 0.
#[tactic(auto, unfolding(crate::specs::Getting::someone_gets))]
pub(crate) fn someone_gets(
    alloc: Global,
    evaluated: &EvaluatedRule<'_>,
    by: Comparison,
    version: &str,
) -> Result<bool, AllocError>
    ensures { IfOk result (λ yes.
        yes ≡ specs.someone_gets (rule_of evaluated.now) by version.now) }
{
    if client_gets(alloc, evaluated, by, version, &[])? {
        return Ok(true);
    }
    if client_evaluations(evaluated).is_some() {
        some_statement_gets(alloc, evaluated, by, version)
    } else {
        Ok(false)
    }
}
