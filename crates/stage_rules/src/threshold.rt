//! The thresholds of a rule: its tests that a bucket is below a number. They are counted, and two
//! rules are compared but for these numbers.

ghost use Rattle.std.specs.Prelude.{◌≡◌, ◌+◌, ◌≤◌, true, count_by, map, min};
ghost use Rattle.stage_rules.specs.Thresholds as specs;

use crate::same_test::{is_same_salt, is_same_test};
use rule_lang::{Comparison, Statement, Step, Test};

fn is_threshold(test: &Test) -> bool
    ensures { result ≡ specs.is_threshold test.now }
{
    match test {
        Test::Bucket {
            modulus: None,
            comparison: Comparison::Lt,
            ..
        } => true,
        _ => false,
    }
}

fn is_threshold_part(part: &Step) -> bool
    ensures { result ≡ specs.is_threshold_part part.now }
{
    match part {
        Step::Test { test, .. } => is_threshold(test),
        Step::Not | Step::And | Step::Or => false,
    }
}

// The sum, or 2 if it is more.
fn up_to_two(count: u8, more: u8) -> u8
    requires count { count ≤ 2 }
    requires more { more ≤ 2 }
    ensures { result ≡ min (count + more) 2 }
{
    (count + more).min(2)
}

// How many thresholds a condition has, or 2 if there are more.
fn thresholds_in(parts: &[Step]) -> u8
    ensures count { result ≡ min (count_by specs.is_threshold_part parts.now) 2 }
    ensures few { result ≤ 2 }
{
    let mut count = 0;
    let mut left = parts;
    while let [first, others @ ..] = left {
        count = up_to_two(count, u8::from(is_threshold_part(first)));
        left = others;
    }
    count
}

fn parts_of(statement: &Statement) -> &[Step]
    ensures { result.now ≡ specs.parts_of statement.now }
{
    match statement {
        Statement::Count { .. } => &[],
        Statement::When { condition, .. } => condition.steps(),
    }
}

/// How many thresholds a rule has, or 2 if there are more.
pub(crate) fn threshold_count(rule: &[Statement]) -> u8
    ensures { result ≡ min (specs.threshold_count rule.now) 2 }
{
    let mut count = 0;
    let mut left = rule;
    while let [first, others @ ..] = left {
        count = up_to_two(count, thresholds_in(parts_of(first)));
        left = others;
    }
    count
}

// ---- comparing

fn is_test_with(number: u32, test: &Test, other: &Test) -> bool
    ensures { result ≡ true → other.now ≡ specs.test_with number test.now }
{
    if is_threshold(test) {
        is_threshold_with(number, test, other)
    } else {
        is_same_test(test, other)
    }
}

// Whether the other test is this threshold with another number.
fn is_threshold_with(number: u32, test: &Test, other: &Test) -> bool
    ensures { result ≡ true → other.now ≡ specs.test_with number test.now }
{
    match (test, other) {
        (
            Test::Bucket {
                salt,
                modulus: None,
                comparison: Comparison::Lt,
                ..
            },
            Test::Bucket {
                salt: own,
                modulus: None,
                comparison: Comparison::Lt,
                number: against,
            },
        ) => is_same_salt(*salt, *own) && *against == number,
        _ => false,
    }
}

fn is_part_with(number: u32, part: &Step, other: &Step) -> bool
    ensures { result ≡ true → other.now ≡ specs.part_with number part.now }
{
    match (part, other) {
        (
            Step::Test { line, test },
            Step::Test {
                line: place,
                test: second,
            },
        ) => *line == *place && is_test_with(number, test, second),
        (Step::Not, Step::Not) | (Step::And, Step::And) | (Step::Or, Step::Or) => true,
        _ => false,
    }
}

fn are_parts_with(number: u32, parts: &[Step], others: &[Step]) -> bool
    ensures { result ≡ true → others.now ≡ map (specs.part_with number) parts.now }
{
    let mut left = parts;
    let mut right = others;
    while let [part, more @ ..] = left {
        let [other, rest @ ..] = right else {
            return false;
        };
        if !is_part_with(number, part, other) {
            return false;
        }
        left = more;
        right = rest;
    }
    right.is_empty()
}

fn is_statement_with(number: u32, statement: &Statement, other: &Statement) -> bool
    ensures { result ≡ true → other.now ≡ specs.statement_with number statement.now }
{
    match (statement, other) {
        (
            Statement::Count { array, index },
            Statement::Count {
                array: own,
                index: place,
            },
        ) => array.as_str() == own.as_str() && *index == *place,
        (
            Statement::When { condition, release },
            Statement::When {
                condition: second,
                release: own,
            },
        ) => *release == *own && are_parts_with(number, condition.steps(), second.steps()),
        _ => false,
    }
}

/// Whether a rule is another one with this number in all thresholds. If it isn't decided, the
/// result is no.
pub(crate) fn is_rule_with(number: u32, rule: &[Statement], other: &[Statement]) -> bool
    ensures { result ≡ true → other.now ≡ specs.rule_with number rule.now }
{
    let mut left = rule;
    let mut right = other;
    while let [statement, more @ ..] = left {
        let [second, rest @ ..] = right else {
            return false;
        };
        if !is_statement_with(number, statement, second) {
            return false;
        }
        left = more;
        right = rest;
    }
    right.is_empty()
}
