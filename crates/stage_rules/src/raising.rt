//! Raising a rule: its text with another number in its one threshold.

ghost use Rattle.std.specs.Prelude.{◌≡◌, ◌++◌, ◌≤◌, ℕ, decimal, IfErr, IfOk, IfSome, Ok, true};
ghost use Rattle.std.specs.Prelude.{string_bytes};
ghost use Rattle.std.specs.Str.Parse.{digits_value};
ghost use Rattle.rule_lang.specs.Verdicts.{IsVerdict};
ghost use Rattle.stage_rules.specs.Raises.{HasNumber, IsRaised, IsRaiseFault};
ghost use Rattle.stage_rules.specs.Thresholds.{rule_with, threshold_count as count_of};

use crate::cut::{Cut, cut_at};
use crate::raise_fault::RaiseFault;
use crate::threshold::{is_rule_with, threshold_count};
use attrs::Bucket;
use cells::Shape;
use lexing::magnitude;
use rule_lang::{Rule, RuleFault, parse};
use std::alloc::{AllocError, Global};

/// The text of a rule, raised: with this number of buckets in its one test `bucket < N`, or
/// `bucket(SALT) < N`. All other bytes stay. Faults:
///
/// - `OutOfRange`: over 10000 buckets;
/// - `NoRule`: L1 to L4 of `parse`;
/// - `NoThreshold`, `SeveralThresholds`: the rule doesn't have one such test;
/// - `NoDigits`: a comment is between the test's `<` and its number, or the new text would have
///   over 65536 bytes.
///
/// Returns `Memory` if an allocation fails. Other apps may also name this file: `shape` is that of
/// one of them.
// open: whether an allocation fails, whether `NoDigits` is returned of a rule with one threshold,
// and which fault is returned if several hold.
pub fn raised_rule(
    alloc: Global,
    text: &str,
    shape: &Shape,
    buckets: u32,
) -> Result<String, RaiseFault>
    ensures raised { IfOk result (λ new. IsRaised shape.now text.now (string_bytes new) buckets) }
    ensures fault { IfErr result (IsRaiseFault shape.now text.now buckets) }
{
    if buckets > Bucket::COUNT as u32 {
        return Err(RaiseFault::OutOfRange);
    }
    match parse(alloc, text, shape) {
        Ok(rule) => raised_of(alloc, text, shape, &rule, buckets),
        Err(RuleFault::Memory) => Err(RaiseFault::Memory),
        Err(fault) => Err(RaiseFault::NoRule(fault)),
    }
}

// The text of this rule, raised.
fn raised_of(
    alloc: Global,
    text: &str,
    shape: &Shape,
    rule: &Rule,
    buckets: u32,
) -> Result<String, RaiseFault>
    requires was { IsVerdict shape.now text.now (Ok rule.now) }
    requires few { buckets ≤ 10000 }
    ensures raised { IfOk result (λ new. IsRaised shape.now text.now (string_bytes new) buckets) }
    ensures fault { IfErr result (IsRaiseFault shape.now text.now buckets) }
{
    let count = threshold_count(rule.statements());
    if count == 0 {
        return Err(RaiseFault::NoThreshold);
    }
    if count > 1 {
        return Err(RaiseFault::SeveralThresholds);
    }
    with_buckets(alloc, text, shape, rule, buckets)
}

// Whether the digits of a cut are the number of the rule's thresholds.
fn is_number_of<'a>(digits: &'a str, rule: &Rule) -> bool
    ensures { result ≡ true → HasNumber rule.now (digits_value 10 digits.now) }
{
    match magnitude(10, digits.as_bytes()) {
        Some(number) => {
            number <= u32::MAX as u64
                && is_rule_with(number as u32, rule.statements(), rule.statements())
        }
        None => false,
    }
}

// The text with this number in place of the digits.
fn text_with<'a>(alloc: Global, cut: Cut<'a>, number: u32) -> Result<String, AllocError>
    ensures { IfOk result (λ text. string_bytes text
        ≡ cut.entry.before.now ++ decimal number ++ cut.entry.after.now) }
{
    let Cut { before, after, .. } = cut;
    format!(in alloc; "{before}{number}{after}")
}

// Whether a text is a rule that is another one but for the number of its thresholds.
fn reads_back(
    alloc: Global,
    text: &str,
    shape: &Shape,
    rule: &Rule,
    buckets: u32,
) -> Result<bool, AllocError>
    ensures { IfOk result (λ ok. ok ≡ true
        → IsVerdict shape.now text.now (Ok (rule_with buckets rule.now))) }
{
    match parse(alloc, text, shape) {
        Ok(raised) => Ok(is_rule_with(buckets, rule.statements(), raised.statements())),
        Err(RuleFault::Memory) => Err(AllocError),
        Err(_) => Ok(false),
    }
}

// The text with this number at a place, if that raises the rule.
fn raised_at(
    alloc: Global,
    text: &str,
    place: usize,
    shape: &Shape,
    rule: &Rule,
    buckets: u32,
) -> Result<Option<String>, AllocError>
    ensures { IfOk result (λ o. IfSome o (λ new. IsVerdict shape.now text.now (Ok rule.now)
        → count_of rule.now ≡ 1 → buckets ≤ 10000
        → IsRaised shape.now text.now (string_bytes new) buckets)) }
{
    let Some(cut) = cut_at(text, place) else {
        return Ok(None);
    };
    if !is_number_of(cut.digits, rule) {
        return Ok(None);
    }
    let new = text_with(alloc, cut, buckets)?;
    if reads_back(alloc, new.as_str(), shape, rule, buckets)? {
        return Ok(Some(new));
    }
    Ok(None)
}

// The text of a rule with one threshold, raised.
fn with_buckets(
    alloc: Global,
    text: &str,
    shape: &Shape,
    rule: &Rule,
    buckets: u32,
) -> Result<String, RaiseFault>
    requires was { IsVerdict shape.now text.now (Ok rule.now) }
    requires one { count_of rule.now ≡ 1 }
    requires few { buckets ≤ 10000 }
    ensures raised { IfOk result (λ new. IsRaised shape.now text.now (string_bytes new) buckets) }
    ensures fault { IfErr result (IsRaiseFault shape.now text.now buckets) }
{
    for place in 0..text.len() {
        if let Some(new) = raised_at(alloc, text, place, shape, rule, buckets)? {
            return Ok(new);
        }
    }
    Err(RaiseFault::NoDigits)
}
