//! The warnings on an app and on its rule.

ghost use Rattle.std.specs.Prelude.{◌≡◌, ◌++◌, IfOk, OnOk};
ghost use Rattle.why_refused_manifest.specs.Added.{AddsApp, AddsRule};
ghost use Rattle.why_refused_manifest.specs.Warned.{app_warnings};

use load::{AppSources, JudgedApp};
use manifest::AppEntry;
use rule_lang::Rule;
use std::alloc::{AllocError, Global};
use warnings::{
    EvaluatedRule, Warning, push_appid_warning, push_release_warnings, push_rule_warnings,
};

/// Adds the warnings on an accepted app: on its appid, its releases, and its rule, if it has one.
/// Returns the budget that is left.
pub(crate) fn report_app(
    alloc: Global,
    warnings: &mut Vec<Warning>,
    number: usize,
    budget: u64,
    app: &JudgedApp,
) -> Result<u64, AllocError>
    ensures { IfOk result (AddsApp number budget app.now warnings.old.items warnings.new.items) }
{
    report_entry(warnings, number, &app.sources.entry)?;
    match &app.rule {
        None => Ok(budget),
        Some(rule) => {
            let left = report_rule(alloc, warnings, number, budget, &app.sources, rule)?;
            Ok(left)
        }
    }
}

#[tactic(auto, unfolding(crate::specs::Warned::app_warnings))]
fn report_entry(
    warnings: &mut Vec<Warning>,
    number: usize,
    entry: &AppEntry,
) -> Result<(), AllocError>
    ensures { OnOk result
        (warnings.new.items ≡ warnings.old.items ++ app_warnings number entry.now) }
{
    push_appid_warning(warnings, number, entry.appid())?;
    push_release_warnings(warnings, number, entry.releases())
}

fn report_rule(
    alloc: Global,
    warnings: &mut Vec<Warning>,
    number: usize,
    budget: u64,
    app: &AppSources,
    rule: &Rule,
) -> Result<u64, AllocError>
    ensures { IfOk result
        (AddsRule number budget app.now rule.now warnings.old.items warnings.new.items) }
{
    let evaluated = EvaluatedRule::of(
        app.entry.appid(),
        &app.shape,
        app.entry.releases(),
        rule.statements(),
    );
    let left = push_rule_warnings(alloc, warnings, number, &evaluated, budget)?;
    Ok(left)
}
