//! The warnings on an accepted manifest.

ghost use Rattle.std.specs.Prelude.{◌≡◌, ◌++◌, IfOk};
ghost use Rattle.why_refused_manifest.specs.ArrayWarnings.{array_warnings};
ghost use Rattle.why_refused_manifest.specs.Warned.{WarnsOfApps};
ghost use Rattle.warnings.specs.RuleWarnings.{whole_budget};

use crate::array_warnings::report_arrays;
use crate::warned_app::report_app;
use cells::CellArray;
use load::JudgedApp;
use ruleset::App;
use std::alloc::{AllocError, Global};
use warnings::Warning;

/// The budget for evaluating the rules of a manifest: how many steps of conditions are evaluated in
/// all, each at one version for 10,000 buckets.
const BUDGET: u64 = 10000;

/// The warnings on arrays, followed by those on apps.
pub(crate) fn warning_text(
    alloc: Global,
    arrays: &[CellArray],
    apps: &[App],
    reported: &[Warning],
) -> Result<Vec<Warning>, AllocError>
    ensures { IfOk result (λ warnings.
        warnings.items ≡ array_warnings 0 arrays.now apps.now ++ reported.now) }
{
    let mut warnings = Vec::new(alloc);
    report_arrays(&mut warnings, arrays, apps)?;
    warnings.extend_from_slice(reported)?;
    Ok(warnings)
}

/// The warnings on apps, in their order.
pub(crate) fn warnings_of_apps(
    alloc: Global,
    apps: &[JudgedApp],
) -> Result<Vec<Warning>, AllocError>
    ensures { IfOk result (λ warnings. WarnsOfApps 1 whole_budget apps.now warnings.items) }
{
    let mut warnings = Vec::new(alloc);
    let mut number = 1;
    let mut budget = BUDGET;
    let mut left = apps;
    while let [app, others @ ..] = left {
        budget = report_app(alloc, &mut warnings, number, budget, app)?;
        number += 1;
        left = others;
    }
    Ok(warnings)
}
