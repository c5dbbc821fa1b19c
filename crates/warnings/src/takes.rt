//! Warnings on takes before the test of the version in a `when`. Tests are evaluated in their
//! order, so this take counts whatever the version is.

ghost use Rattle.std.specs.Prelude.{◌≡◌, ◌++◌, OnOk};
ghost use Rattle.std.specs.List.{list_any};
ghost use Rattle.warnings.specs.RuleWarnings as specs;

use crate::warning::{Warning, WarningKind, WarningPlace, warn_if};
use rule_lang::{Step, Test};
use std::alloc::AllocError;

fn tests_version(step: &Step) -> bool
    ensures { result ≡ specs.tests_version step.now }
{
    match step {
        Step::Test {
            test: Test::Version { .. },
            ..
        } => true,
        _ => false,
    }
}

fn some_test_version(steps: &[Step]) -> bool
    ensures { result ≡ list_any specs.tests_version steps.now }
{
    let mut left = steps;
    while let [step, others @ ..] = left {
        if tests_version(step) {
            return true;
        }
        left = others;
    }
    false
}

fn push_take_warning(
    warnings: &mut Vec<Warning>,
    app: usize,
    step: &Step,
    later: bool,
) -> Result<(), AllocError>
    ensures { OnOk result
        (warnings.new.items ≡ warnings.old.items ++ specs.take_warning app step.now later) }
{
    match step {
        Step::Test {
            line,
            test: Test::Take { .. },
        } => {
            let place = WarningPlace::Line { app, line: *line };
            warn_if(warnings, later, place, WarningKind::TakeBeforeVersion)
        }
        _ => Ok(()),
    }
}

/// A warning on each take before the first test of the version, if there is one.
pub(crate) fn push_take_warnings(
    warnings: &mut Vec<Warning>,
    app: usize,
    steps: &[Step],
) -> Result<(), AllocError>
    ensures { OnOk result
        (warnings.new.items ≡ warnings.old.items ++ specs.takes_of_steps app steps.now) }
{
    let mut left = steps;
    while let [step, others @ ..] = left {
        if tests_version(step) {
            return Ok(());
        }
        push_take_warning(warnings, app, step, some_test_version(others))?;
        left = others;
    }
    Ok(())
}
