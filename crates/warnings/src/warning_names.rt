//! The names of warnings, and which warnings count.

ghost use Rattle.std.specs.Prelude.{◌≡◌};
ghost use Rattle.warnings.specs.Names as specs;

use crate::warning::Warning;

/// Whether a text is the name of a kind of warning.
#[tactic(auto, unfolding(crate::specs::Names::is_warning_name))]
pub fn is_warning_name(text: &str) -> bool
    ensures { result ≡ specs.is_warning_name text.now }
{
    match text {
        "unused-array" => true,
        "shared-array" => true,
        "unprinted-appid" => true,
        "same-version" => true,
        "codebase-slash" => true,
        "codebase-scheme" => true,
        "empty-file" => true,
        "package-name" => true,
        "few-buckets" => true,
        "all-buckets" => true,
        "take-before-version" => true,
        "no-cohort" => true,
        "early-day" => true,
        "never-reached" => true,
        "never-holds" => true,
        "no-bucket" => true,
        "offered-again" => true,
        "offered-lower" => true,
        "not-evaluated" => true,
        _ => false,
    }
}

fn is_allowed(warning: &Warning, allowed: &[&str]) -> bool
    ensures { result ≡ specs.is_allowed allowed.now warning.now }
{
    let name = warning.kind.name();
    let mut left = allowed;
    while let [first, others @ ..] = left {
        if *first == name {
            return true;
        }
        left = others;
    }
    false
}

/// Whether one of these warnings counts: its name isn't allowed.
pub fn some_counts(warnings: &[Warning], allowed: &[&str]) -> bool
    ensures { result ≡ specs.some_counts allowed.now warnings.now }
{
    let mut left = warnings;
    while let [warning, others @ ..] = left {
        if !is_allowed(warning, allowed) {
            return true;
        }
        left = others;
    }
    false
}
