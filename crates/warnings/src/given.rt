//! Warnings on an app's releases: those that no bucket gets, and those that a client may be offered
//! again or downgraded to.

ghost use Rattle.std.specs.Prelude.{◌≡◌, ◌++◌, List, OnOk};
ghost use Rattle.warnings.specs.declared.spot.Spot.{Spot};
ghost use Rattle.warnings.specs.RuleWarnings as specs;
ghost use Rattle.warnings.specs.Evaluation.{rule_of, someone};
ghost use Rattle.warnings.specs.Marks.{AreMarked};

use crate::evaluating::EvaluatedRule;
use crate::getting::someone_gets;
use crate::marks::{Marks, is_given};
use crate::warning::{Warning, WarningKind, WarningPlace, warn_if};
use releases::Release;
use rule_lang::Comparison;
use std::alloc::{AllocError, Global};

// A warning if a client that has this version gets a release whose version compares by `by` with
// it.
fn push_got_warning(
    alloc: Global,
    warnings: &mut Vec<Warning>,
    place: WarningPlace,
    evaluated: &EvaluatedRule<'_>,
    by: Comparison,
    version: &str,
    what: WarningKind,
) -> Result<(), AllocError>
    ensures { OnOk result (warnings.new.items ≡ warnings.old.items
        ++ specs.got_at place (rule_of evaluated.now) by version.now what) }
{
    let got = someone_gets(alloc, evaluated, by, version)?;
    warn_if(warnings, got, place, what)
}

fn push_given_warning(
    alloc: Global,
    warnings: &mut Vec<Warning>,
    app: usize,
    number: usize,
    evaluated: &EvaluatedRule<'_>,
    given: bool,
    release: &Release,
) -> Result<(), AllocError>
    ensures { OnOk result (warnings.new.items ≡ warnings.old.items
        ++ specs.given_warnings app number (rule_of evaluated.now) given release.now) }
{
    let place = WarningPlace::Release {
        app,
        release: number,
    };
    let version = release.version();
    warn_if(warnings, !given, place, WarningKind::NoBucket)?;
    let again = WarningKind::OfferedAgain;
    push_got_warning(
        alloc,
        warnings,
        place,
        evaluated,
        Comparison::Eq,
        version,
        again,
    )?;
    let lower = WarningKind::OfferedLower;
    push_got_warning(
        alloc,
        warnings,
        place,
        evaluated,
        Comparison::Lt,
        version,
        lower,
    )
}

/// Warnings on the releases of an app, in their order, by the marks of its rule.
pub(crate) fn push_given_warnings(
    alloc: Global,
    warnings: &mut Vec<Warning>,
    app: usize,
    evaluated: &EvaluatedRule<'_>,
    marks: &Marks,
) -> Result<(), AllocError>
    ensures { (spots : List Spot)
        → AreMarked (rule_of evaluated.now) (someone (rule_of evaluated.now) spots)
        marks.now.reached.items marks.now.ends.items → OnOk result (warnings.new.items
        ≡ warnings.old.items
        ++ specs.evaluated_releases app 1 (rule_of evaluated.now) spots
        (rule_of evaluated.now).releases) }
{
    let mut number = 1;
    let mut left = evaluated.releases;
    while let [release, later @ ..] = left {
        let given = is_given(marks.ends.as_slice(), evaluated.statements, number);
        push_given_warning(alloc, warnings, app, number, evaluated, given, release)?;
        number += 1;
        left = later;
    }
    Ok(())
}
