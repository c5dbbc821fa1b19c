//! What the tests of a condition require of a client: texts, flags and days. Of the tests that a
//! `not` follows only those of a day require something: the opposite.

ghost use Rattle.std.specs.Prelude.{◌≡◌, option_copied};
ghost use Rattle.warnings.specs.Wanted as specs;

use attrs::{Attribute, Flag};
use rule_lang::{Comparison, Step, Test};

/// The day that a test compares.
#[derive(Clone, Copy)]
pub(crate) enum DayOf {
    Request,
    Installation,
}

// ---- a step

fn is_negated(rest: &[Step]) -> bool
    ensures { result ≡ specs.is_negated rest.now }
{
    match rest {
        [Step::Not, ..] => true,
        _ => false,
    }
}

fn test_in(step: &Step) -> Option<&Test>
    ensures { option_copied result ≡ specs.test_in step.now }
{
    match step {
        Step::Test { test, .. } => Some(test),
        _ => None,
    }
}

// The test of a step, unless a `not` follows it.
fn wanted<'a>(step: &'a Step, rest: &[Step]) -> Option<&'a Test>
    ensures { option_copied result ≡ specs.wanted step.now rest.now }
{
    if is_negated(rest) {
        None
    } else {
        test_in(step)
    }
}

// ---- texts

fn text_in<'a>(name: Attribute, test: Option<&'a Test>) -> Option<&'a str>
    ensures { option_copied result ≡ specs.text_in name (option_copied test.entry) }
{
    let Some(Test::Attr { attribute, text }) = test else {
        return None;
    };
    if attribute.number() == name.number() {
        Some(text.as_str())
    } else {
        None
    }
}

/// The first text with which a condition compares this attribute.
pub(crate) fn wanted_text<'a>(name: Attribute, steps: &'a [Step]) -> Option<&'a str>
    ensures { option_copied result ≡ specs.wanted_text name steps.now }
{
    let mut left = steps;
    while let [step, rest @ ..] = left {
        if let Some(text) = text_in(name, wanted(step, rest)) {
            return Some(text);
        }
        left = rest;
    }
    None
}

// ---- flags

fn is_of_flag(flag: Flag, test: Option<&Test>) -> bool
    ensures { result ≡ specs.is_of_flag flag (option_copied test.entry) }
{
    match test {
        Some(Test::Flag(tested)) => tested.bit() == flag.bit(),
        _ => false,
    }
}

/// Whether some test of a condition is of this flag.
pub(crate) fn wants(flag: Flag, steps: &[Step]) -> bool
    ensures { result ≡ specs.wants flag steps.now }
{
    let mut left = steps;
    while let [step, rest @ ..] = left {
        if is_of_flag(flag, wanted(step, rest)) {
            return true;
        }
        left = rest;
    }
    false
}

// ---- days

// The first day that compares so with the number; day 0 if none does.
fn first_day(comparison: Comparison, number: u32) -> u32
    ensures { result ≡ specs.first_day comparison number }
{
    match comparison {
        Comparison::Eq => number,
        Comparison::Ge => number,
        Comparison::Gt => number.saturating_add(1),
        Comparison::Ne => (number == 0) as u32,
        Comparison::Lt => 0,
        Comparison::Le => 0,
    }
}

// How numbers compare that don't compare so.
fn opposite(comparison: Comparison) -> Comparison
    ensures { result ≡ specs.opposite comparison }
{
    match comparison {
        Comparison::Lt => Comparison::Ge,
        Comparison::Le => Comparison::Gt,
        Comparison::Eq => Comparison::Ne,
        Comparison::Ne => Comparison::Eq,
        Comparison::Ge => Comparison::Lt,
        Comparison::Gt => Comparison::Le,
    }
}

// How a day has to compare.
fn required(negated: bool, comparison: Comparison) -> Comparison
    ensures { result ≡ specs.required negated comparison }
{
    if negated {
        opposite(comparison)
    } else {
        comparison
    }
}

// The first day for which a test of this day holds, or fails if it is negated.
fn day_in(day: DayOf, negated: bool, test: Option<&Test>) -> Option<u32>
    ensures { result ≡ specs.day_in day negated (option_copied test.entry) }
{
    match (day, test) {
        (DayOf::Request, Some(Test::Today { comparison, number })) => {
            Some(first_day(required(negated, *comparison), *number))
        }
        (DayOf::Installation, Some(Test::Installed { comparison, number })) => {
            Some(first_day(required(negated, *comparison), *number))
        }
        (DayOf::Installation, Some(Test::Flag(Flag::InstalldateKnown))) => {
            if negated { None } else { Some(0) }
        }
        _ => None,
    }
}

fn later(one: Option<u32>, other: Option<u32>) -> Option<u32>
    ensures { result ≡ specs.later one other }
{
    match (one, other) {
        (Some(a), Some(b)) => Some(a.max(b)),
        (Some(a), None) => Some(a),
        (None, other) => other,
    }
}

/// The latest of the first days for which the tests of this day hold, or fail if a `not` follows.
pub(crate) fn wanted_day(day: DayOf, steps: &[Step]) -> Option<u32>
    ensures { result ≡ specs.wanted_day day steps.now }
{
    let mut found = None;
    let mut left = steps;
    while let [step, rest @ ..] = left {
        found = later(found, day_in(day, is_negated(rest), test_in(step)));
        left = rest;
    }
    found
}

// ---- a condition

// A test of a day, or one of an attribute or a flag that isn't negated.
fn is_of_client(negated: bool, test: Option<&Test>) -> bool
    ensures { result ≡ specs.is_of_client negated (option_copied test.entry) }
{
    match test {
        Some(Test::Attr { .. }) => !negated,
        Some(Test::Flag(_flag)) => !negated,
        Some(Test::Today { .. }) => true,
        Some(Test::Installed { .. }) => true,
        _ => false,
    }
}

/// Whether some test requires more than a version, a bucket or a counter.
pub(crate) fn needs_more(steps: &[Step]) -> bool
    ensures { result ≡ specs.needs_more steps.now }
{
    let mut left = steps;
    while let [step, rest @ ..] = left {
        if is_of_client(is_negated(rest), test_in(step)) {
            return true;
        }
        left = rest;
    }
    false
}
