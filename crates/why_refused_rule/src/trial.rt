//! What may follow a rule's prefix, found by parsing trials.

ghost use Rattle.std.specs.Prelude.{◌≡◌, ◌++◌, [], Err, IfOk, IfSome, OnOk};
ghost use Rattle.why_refused_rule.specs.Followers as specs;

use crate::follower::Sample;
use crate::place::line_at;
use cells::Shape;
use rule_lang::{RuleFault, RuleFaultKind, parse};
use std::alloc::{AllocError, Global};
use std::str;

fn trial_of(alloc: Global, before: &[u8], sample: &str) -> Result<Vec<u8>, AllocError>
    ensures { IfOk result (λ v. v.items ≡ specs.trial before.now sample.now) }
{
    let mut text = Vec::new(alloc);
    text.extend_from_slice(before)?;
    text.extend_from_slice(b"\n")?;
    text.extend_from_slice(sample.as_bytes())?;
    text.extend_from_slice(b"\n")?;
    Ok(text)
}

fn trial_line(before: &[u8], sample: &str) -> usize
    ensures { result ≡ specs.trial_line before.now sample.now }
{
    if sample.is_empty() {
        line_at(before) + 2
    } else {
        line_at(before) + 1
    }
}

fn stops_by(most: usize, line: usize, kind: RuleFaultKind) -> bool
    ensures { result ≡ specs.stops_by most (Err (RuleFault.At line kind)) }
{
    match kind {
        RuleFaultKind::Shape => line <= most,
        _ => false,
    }
}

// Whether this sample may follow the beginning. Returns `None` if an allocation fails.
fn may_follow(alloc: Global, shape: &Shape, before: &[u8], sample: Sample) -> Option<bool>
    ensures { IfSome result (specs.IsTried shape.now before.now sample) }
{
    let Ok(text) = trial_of(alloc, before, sample.0) else {
        return None;
    };
    let Ok(text) = str::from_utf8(text.as_slice()) else {
        return None;
    };
    match parse(alloc, text, shape) {
        Ok(_rule) => Some(true),
        Err(RuleFault::Memory) => None,
        Err(RuleFault::At { line, kind }) => {
            Some(!stops_by(trial_line(before, sample.0), line, kind))
        }
    }
}

// Adds the sample if it may follow.
fn add_sample(
    alloc: Global,
    shape: &Shape,
    before: &[u8],
    sample: Sample,
    found: &mut Vec<Sample>,
) -> Option<()>
    ensures { IfSome result (λ x. specs.AddsSample shape.now before.now sample
        found.old.items found.new.items) }
{
    match may_follow(alloc, shape, before, sample) {
        None => None,
        Some(may) => match push_if(found, may, sample) {
            Ok(()) => Some(()),
            Err(_) => None,
        },
    }
}

fn push_if(found: &mut Vec<Sample>, may: bool, sample: Sample) -> Result<(), AllocError>
    ensures { OnOk result (found.new.items ≡ found.old.items ++ specs.sample_if may sample) }
{
    if may {
        found.push(sample)?;
    }
    Ok(())
}

// Adds the samples of a list that may follow.
fn add_samples(
    alloc: Global,
    shape: &Shape,
    before: &[u8],
    among: &[Sample],
    found: &mut Vec<Sample>,
) -> Option<()>
    ensures { IfSome result (λ x. specs.AddsSamples shape.now before.now among.now
        found.old.items found.new.items) }
{
    match among.split_first() {
        None => Some(()),
        Some((first, rest)) => match add_sample(alloc, shape, before, *first, found) {
            None => None,
            Some(()) => add_samples(alloc, shape, before, rest, found),
        },
    }
}

/// Which of these may follow a prefix of a rule, with one trial for each. Returns `None` if an
/// allocation fails.
pub(crate) fn samples_after(
    alloc: Global,
    shape: &Shape,
    before: &[u8],
    among: &[Sample],
) -> Option<Vec<Sample>>
    ensures { IfSome result (λ v. specs.AddsSamples shape.now before.now among.now [] v.items) }
{
    let mut found = Vec::new(alloc);
    match add_samples(alloc, shape, before, among, &mut found) {
        Some(()) => Some(found),
        None => None,
    }
}
