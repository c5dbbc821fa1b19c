//! The machines that a condition lets in, in words: `to 25 % of machines below 2.1`.

// A condition with `or` or `not` is named by its line. No contract says what is printed: rows
// compare it.

use printing::TextBuffer;
use rule_eval::{push_numbers, push_test};
use rule_lang::{Comparison, RuleCondition, Step, Test};
use std::alloc::Global;

/// All buckets, to which a share is compared.
const ALL_BUCKETS: u32 = 10000;

// The buckets that a test lets in, from 0 on.
fn threshold_of(test: &Test) -> Option<u32> {
    match test {
        Test::Bucket {
            modulus: None,
            comparison: Comparison::Lt,
            number,
            ..
        } => Some(*number),
        _ => None,
    }
}

// Whether a condition only joins tests by `and`.
fn is_chain(condition: &RuleCondition) -> bool {
    for step in condition.steps() {
        match step {
            Step::Test { .. } | Step::And => {}
            Step::Not | Step::Or => return false,
        }
    }
    true
}

// How many tests of a condition are of buckets.
fn bucket_tests(condition: &RuleCondition) -> u64 {
    let mut count = 0u64;
    for step in condition.steps() {
        if let Step::Test {
            test: Test::Bucket { .. },
            ..
        } = step
        {
            count = count.saturating_add(1);
        }
    }
    count
}

// The buckets that a condition lets in by its only test of buckets.
fn buckets_of(condition: &RuleCondition) -> Option<u32> {
    if bucket_tests(condition) != 1 {
        return None;
    }
    for step in condition.steps() {
        if let Step::Test { test, .. } = step
            && let Some(buckets) = threshold_of(test)
        {
            return Some(buckets);
        }
    }
    None
}

// Adds a share of all buckets in percent, exactly.
fn push_percent(text: &mut TextBuffer, buckets: u32) {
    let buckets = u64::from(buckets.min(ALL_BUCKETS));
    let (whole, rest) = (buckets / 100, buckets % 100);
    text.push_number("", whole, "");
    if rest % 10 != 0 {
        text.push_number(".", rest / 10, "");
        text.push_number("", rest % 10, "");
    } else if rest != 0 {
        text.push_number(".", rest / 10, "");
    }
    text.push(" %");
}

// ---- the other tests

// Whether a test isn't the one that the share is made of.
fn is_other(test: &Test, has_share: bool) -> bool {
    !has_share || threshold_of(test).is_none()
}

// The version below which a condition wants a machine, if it wants nothing else.
fn only_below(condition: &RuleCondition, has_share: bool) -> Option<[u32; 4]> {
    let mut found = None;
    for step in condition.steps() {
        if let Step::Test { test, .. } = step
            && is_other(test, has_share)
        {
            match (test, found) {
                (
                    Test::Version {
                        comparison: Comparison::Lt,
                        version,
                    },
                    None,
                ) => found = Some(*version),
                _ => return None,
            }
        }
    }
    found
}

// Adds the version below which all machines are.
fn push_below(alloc: Global, text: &mut TextBuffer, version: [u32; 4]) {
    let mut numbers = String::new(alloc);
    match push_numbers(&mut numbers, version) {
        Ok(()) => text.push_printed(" below ", numbers.as_str(), ""),
        Err(_) => text.leave_out(),
    }
}

// Adds a test in the words of rules.
fn push_one(alloc: Global, text: &mut TextBuffer, before: &str, test: &Test) {
    let mut words = String::new(alloc);
    match push_test(&mut words, test) {
        Ok(()) => text.push_printed(before, words.as_str(), ""),
        Err(_) => text.leave_out(),
    }
}

// Adds the tests that the share isn't made of.
fn push_others(alloc: Global, text: &mut TextBuffer, condition: &RuleCondition, has_share: bool) {
    if let Some(version) = only_below(condition, has_share) {
        push_below(alloc, text, version);
        return;
    }
    let mut before = " where ";
    for step in condition.steps() {
        if let Step::Test { test, .. } = step
            && is_other(test, has_share)
        {
            push_one(alloc, text, before, test);
            before = " and ";
        }
    }
}

// ---- a line

// The line of a condition in the text of its rule.
fn line_of(condition: &RuleCondition) -> u64 {
    match condition.steps() {
        [Step::Test { line, .. }, ..] => *line as u64,
        _ => 1,
    }
}

/// Adds to whom a condition in this file offers a release.
pub(crate) fn push_machines(
    alloc: Global,
    text: &mut TextBuffer,
    condition: &RuleCondition,
    file: &str,
) {
    if !is_chain(condition) {
        text.push_number(" by line ", line_of(condition), "");
        text.push_printed(" of ", file, "");
        return;
    }
    let share = buckets_of(condition);
    match share {
        Some(buckets) => {
            text.push(" to ");
            push_percent(text, buckets);
            text.push(" of machines");
        }
        None => text.push(" to all"),
    }
    push_others(alloc, text, condition, share.is_some());
}
