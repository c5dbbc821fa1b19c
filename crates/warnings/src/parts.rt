//! Warnings on single tests of a rule: bucket tests that hold for few of the 10,000 buckets or
//! whose number is above that, early days, cohorts that no reply has, and takes. These come from
//! reading the rule, not from evaluating it.

ghost use Rattle.std.specs.Prelude.{◌≡◌, ◌++◌, OnOk};
ghost use Rattle.warnings.specs.RuleWarnings as specs;

use crate::takes::push_take_warnings;
use crate::warning::{Warning, WarningKind, WarningPlace, warn_if};
use attrs::{Attribute, Bucket, cohort_bucket};
use rule_lang::{Comparison, Statement, Step, Test};
use std::alloc::AllocError;

fn is_few(buckets: u64) -> bool
    ensures { result ≡ specs.is_few buckets }
{
    0 < buckets && buckets < 100
}

fn is_above_all(number: u32) -> bool
    ensures { result ≡ specs.is_above_all number }
{
    number > Bucket::COUNT as u32
}

// Warns if a test with this sign and number, which holds for `buckets` buckets, covers few buckets
// or all of them.
fn push_part_warning(
    warnings: &mut Vec<Warning>,
    place: WarningPlace,
    up_to: bool,
    number: u32,
    buckets: u64,
) -> Result<(), AllocError>
    ensures { OnOk result (warnings.new.items
        ≡ warnings.old.items ++ specs.part_warning place up_to number buckets) }
{
    let few = WarningKind::FewBuckets {
        up_to,
        number,
        buckets,
    };
    let all = WarningKind::AllBuckets { up_to, number };
    if is_few(buckets) {
        warn_if(warnings, true, place, few)
    } else {
        warn_if(warnings, is_above_all(number), place, all)
    }
}

fn push_test_warning(
    warnings: &mut Vec<Warning>,
    app: usize,
    line: usize,
    test: &Test,
) -> Result<(), AllocError>
    ensures { OnOk result
        (warnings.new.items ≡ warnings.old.items ++ specs.test_warning app line test.now) }
{
    let place = WarningPlace::Line { app, line };
    match test {
        Test::Bucket {
            modulus: None,
            comparison: Comparison::Lt,
            number,
            ..
        } => push_part_warning(warnings, place, false, *number, *number as u64),
        Test::Bucket {
            modulus: None,
            comparison: Comparison::Le,
            number,
            ..
        } => push_part_warning(warnings, place, true, *number, *number as u64 + 1),
        _ => Ok(()),
    }
}

fn is_early(day: u32) -> bool
    ensures { result ≡ specs.is_early day }
{
    0 < day && day < 6940
}

fn is_no_cohort(text: &str) -> bool
    ensures { result ≡ specs.is_no_cohort text.now }
{
    text.as_bytes().starts_with(b"b:") && !cohort_bucket(text).is_some()
}

// Warns of a day or a cohort that is probably wrong.
fn push_value_warning(
    warnings: &mut Vec<Warning>,
    app: usize,
    line: usize,
    test: &Test,
) -> Result<(), AllocError>
    ensures { OnOk result
        (warnings.new.items ≡ warnings.old.items ++ specs.value_warning app line test.now) }
{
    let place = WarningPlace::Line { app, line };
    match test {
        Test::Today { number, .. } => {
            warn_if(warnings, is_early(*number), place, WarningKind::EarlyDay)
        }
        Test::Attr {
            attribute: Attribute::Cohort,
            text,
        } => {
            let wrong = is_no_cohort(text.as_str());
            warn_if(warnings, wrong, place, WarningKind::NoCohort)
        }
        _ => Ok(()),
    }
}

fn push_parts_of_step(
    warnings: &mut Vec<Warning>,
    app: usize,
    step: &Step,
) -> Result<(), AllocError>
    ensures { OnOk result
        (warnings.new.items ≡ warnings.old.items ++ specs.parts_of_step app step.now) }
{
    match step {
        Step::Test { line, test } => {
            push_test_warning(warnings, app, *line, test)?;
            push_value_warning(warnings, app, *line, test)
        }
        _ => Ok(()),
    }
}

fn push_parts_of_steps(
    warnings: &mut Vec<Warning>,
    app: usize,
    steps: &[Step],
) -> Result<(), AllocError>
    ensures { OnOk result
        (warnings.new.items ≡ warnings.old.items ++ specs.parts_of_steps app steps.now) }
{
    let mut left = steps;
    while let [step, others @ ..] = left {
        push_parts_of_step(warnings, app, step)?;
        left = others;
    }
    Ok(())
}

/// Warnings on the tests of a rule, `when` by `when`: on tests that hold for few buckets or whose
/// number is above 10,000, on days before 2026, on cohorts that begin with `b:` and aren't a
/// reply's, and on takes before a test of the version.
pub(crate) fn push_parts_of_rule(
    warnings: &mut Vec<Warning>,
    app: usize,
    statements: &[Statement],
) -> Result<(), AllocError>
    ensures { OnOk result
        (warnings.new.items ≡ warnings.old.items ++ specs.parts_of_rule app statements.now) }
{
    let mut left = statements;
    while let [statement, others @ ..] = left {
        if let Statement::When { condition, .. } = statement {
            push_parts_of_steps(warnings, app, condition.steps())?;
            push_take_warnings(warnings, app, condition.steps())?;
        }
        left = others;
    }
    Ok(())
}
