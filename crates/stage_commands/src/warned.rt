//! What `check` warns of in the rules that a step puts in place. It stops nothing.

// No contract says which warnings are printed: `warnings` says when each is given, and rows show
// that these are printed.

use load::{AppSources, JudgedApp};
use rule_lang::Rule;
use stage_records::ReplacedFile;
use stage_servers::{Lines, file_named};
use std::alloc::{AllocError, Global};
use warnings::{EvaluatedRule, Warning, push_rule_warnings, push_warnings};

/// The budget for evaluating the rules of a step, which is that of `check` for a manifest.
const BUDGET: u64 = 10000;

// Adds the warnings on the rule of an app. Returns the budget that is left.
fn warn_of(
    alloc: Global,
    warnings: &mut Vec<Warning>,
    number: usize,
    budget: u64,
    app: &AppSources,
    rule: &Rule,
) -> Result<u64, AllocError> {
    let evaluated = EvaluatedRule::of(
        app.entry.appid(),
        &app.shape,
        app.entry.releases(),
        rule.statements(),
    );
    push_rule_warnings(alloc, warnings, number, &evaluated, budget)
}

// The same, if the app has a rule, whose file is one of these.
fn warn_if_changed(
    alloc: Global,
    warnings: &mut Vec<Warning>,
    number: usize,
    budget: u64,
    app: &JudgedApp,
    files: &[ReplacedFile],
) -> Result<u64, AllocError> {
    match &app.rule {
        Some(rule) if file_named(files, app.sources.entry.source().file()).is_some() => {
            warn_of(alloc, warnings, number, budget, &app.sources, rule)
        }
        _ => Ok(budget),
    }
}

// The warnings on the rules of those apps, counted from 1, whose file is one of these.
fn warnings_of(
    alloc: Global,
    apps: &[JudgedApp],
    files: &[ReplacedFile],
) -> Result<Vec<Warning>, AllocError> {
    let mut warnings = Vec::new(alloc);
    let mut number = 1;
    let mut budget = BUDGET;
    let mut left = apps;
    while let [app, others @ ..] = left {
        budget = warn_if_changed(alloc, &mut warnings, number, budget, app, files)?;
        number += 1;
        left = others;
    }
    Ok(warnings)
}

// The lines of these warnings.
fn lines_of(
    alloc: Global,
    apps: &[JudgedApp],
    files: &[ReplacedFile],
) -> Result<String, AllocError> {
    let warnings = warnings_of(alloc, apps, files)?;
    let mut text = String::new(alloc);
    let pushed = push_warnings(&mut text, &warnings);
    drop(warnings);
    pushed?;
    Ok(text)
}

/// Prints a line for each warning on the rule of an app, if its file is one of these.
pub(crate) fn push_warnings_of(
    alloc: Global,
    apps: &[JudgedApp],
    files: &[ReplacedFile],
    lines: &mut Lines,
) {
    match lines_of(alloc, apps, files) {
        Ok(text) => lines.stderr.push(text.as_str()),
        Err(_) => lines.stderr.leave_out(),
    }
}
