//! Whether a rule is another one without the statements that offer a version.

ghost use Rattle.std.specs.Prelude.{◌≡◌, ◌∷◌, List, IfSome, true};
ghost use Rattle.rule_lang.specs.declared.rule.Statement.{Statement as a_statement};
ghost use Rattle.stage_rules.specs.ReleaseHalts as specs;

use crate::offers::offers;
use crate::same_test::is_same_test;
use releases::Release;
use rule_lang::{Statement, Step};

fn is_same_part(part: &Step, other: &Step) -> bool
    ensures { result ≡ true → other.now ≡ part.now }
{
    match (part, other) {
        (
            Step::Test { line, test },
            Step::Test {
                line: place,
                test: second,
            },
        ) => *line == *place && is_same_test(test, second),
        (Step::Not, Step::Not) | (Step::And, Step::And) | (Step::Or, Step::Or) => true,
        _ => false,
    }
}

fn are_same_parts(parts: &[Step], others: &[Step]) -> bool
    ensures { result ≡ true → others.now ≡ parts.now }
{
    let mut left = parts;
    let mut right = others;
    while let [part, more @ ..] = left {
        let [other, rest @ ..] = right else {
            return false;
        };
        if !is_same_part(part, other) {
            return false;
        }
        left = more;
        right = rest;
    }
    right.is_empty()
}

fn is_same_statement(statement: &Statement, other: &Statement) -> bool
    ensures { result ≡ true → other.now ≡ statement.now }
{
    match (statement, other) {
        (
            Statement::Count { array, index },
            Statement::Count {
                array: own,
                index: place,
            },
        ) => array.as_str() == own.as_str() && *index == *place,
        (
            Statement::When { condition, release },
            Statement::When {
                condition: second,
                release: own,
            },
        ) => *release == *own && are_same_parts(condition.steps(), second.steps()),
        _ => false,
    }
}

// What is left of a rule after this statement; all, if the statement is left out of the rule.
fn after_statement<'a>(
    releases: &[Release],
    version: &str,
    statement: &Statement,
    rule: &'a [Statement],
) -> Option<&'a [Statement]>
    ensures { IfSome result (λ rest. (left : List a_statement)
        → rest.now ≡ specs.without releases.now version.now left
        → rule.now ≡ specs.without releases.now version.now (statement.now ∷ left)) }
{
    if offers(releases, version, statement) {
        return Some(rule);
    }
    let [other, rest @ ..] = rule else {
        return None;
    };
    if !is_same_statement(statement, other) {
        return None;
    }
    Some(rest)
}

/// Whether a rule is another one without the statements that offer this version. If it isn't
/// decided, the result is no.
pub(crate) fn is_rule_without(
    releases: &[Release],
    version: &str,
    rule: &[Statement],
    other: &[Statement],
) -> bool
    ensures { result ≡ true → other.now ≡ specs.without releases.now version.now rule.now }
{
    let mut left = rule;
    let mut right = other;
    while let [statement, more @ ..] = left {
        let Some(rest) = after_statement(releases, version, statement, right) else {
            return false;
        };
        left = more;
        right = rest;
    }
    right.is_empty()
}
