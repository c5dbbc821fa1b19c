//! Warnings on the `when`s of an evaluated rule.

ghost use Rattle.std.specs.Prelude.{◌≡◌, ◌++◌, List, [], false, OnOk};
ghost use Rattle.warnings.specs.declared.spot.Spot.{Spot};
ghost use Rattle.warnings.specs.RuleWarnings as specs;
ghost use Rattle.warnings.specs.Evaluation.{rule_of, someone};
ghost use Rattle.warnings.specs.Marks.{AreMarked};

use crate::evaluating::EvaluatedRule;
use crate::marks::Marks;
use crate::warning::{Warning, WarningKind, WarningPlace};
use rule_lang::{Statement, Step};
use std::alloc::AllocError;

fn first_line(steps: &[Step]) -> usize
    ensures { result ≡ specs.first_line steps.now }
{
    match steps {
        [Step::Test { line, .. }, ..] => *line,
        _ => 0,
    }
}

fn push_never_warning(
    warnings: &mut Vec<Warning>,
    app: usize,
    reached: bool,
    steps: &[Step],
) -> Result<(), AllocError>
    ensures { OnOk result (warnings.new.items
        ≡ warnings.old.items ++ specs.when_warning app false reached steps.now) }
{
    let place = WarningPlace::Line {
        app,
        line: first_line(steps),
    };
    let kind = if reached {
        WarningKind::NeverHolds
    } else {
        WarningKind::NeverReached
    };
    warnings.push(Warning { place, kind })?;
    Ok(())
}

fn push_when_warning(
    warnings: &mut Vec<Warning>,
    app: usize,
    ends: bool,
    reached: bool,
    statement: &Statement,
) -> Result<(), AllocError>
    ensures { OnOk result (warnings.new.items
        ≡ warnings.old.items ++ specs.marked_warning app ends reached statement.now) }
{
    let Statement::When { condition, .. } = statement else {
        return Ok(());
    };
    if ends {
        return Ok(());
    }
    push_never_warning(warnings, app, reached, condition.steps())
}

/// Warnings on the `when`s of a rule, in their order, by its marks. There are two marks for each
/// statement; with fewer there would be no warnings.
pub(crate) fn push_when_warnings(
    warnings: &mut Vec<Warning>,
    app: usize,
    evaluated: &EvaluatedRule<'_>,
    marks: &Marks,
) -> Result<(), AllocError>
    ensures { (spots : List Spot)
        → AreMarked (rule_of evaluated.now) (someone (rule_of evaluated.now) spots)
        marks.now.reached.items marks.now.ends.items → OnOk result (warnings.new.items
        ≡ warnings.old.items
        ++ specs.statements_from app (rule_of evaluated.now) spots []
        (rule_of evaluated.now).rule) }
{
    let mut left = evaluated.statements;
    let mut reached = marks.reached.as_slice();
    let mut ends = marks.ends.as_slice();
    while let [statement, others @ ..] = left {
        let [is_reached, later_reached @ ..] = reached else {
            return Err(AllocError);
        };
        let [is_ended, ends_after @ ..] = ends else {
            return Err(AllocError);
        };
        push_when_warning(warnings, app, *is_ended, *is_reached, statement)?;
        left = others;
        reached = later_reached;
        ends = ends_after;
    }
    Ok(())
}
