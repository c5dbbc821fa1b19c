//! What a test found: the value of an app's attribute, or of a counter.

ghost use Rattle.std.specs.Prelude.{OnOk};
ghost use Rattle.printing.specs.Pushed.{Puts};
ghost use Rattle.why_choice.specs.Texts as texts;

use crate::quoted::push_quoted;
use attrs::{Attribute, Attrs, Context};
use cells::Shape;
use rule_eval::{bucket_tested, push_numbers, push_test, quota_named};
use rule_lang::Test;
use std::alloc::AllocError;
use std::fmt::Write;

/// Adds a test with its truth, and what was found. For a take, `value` is the cell's previous
/// value.
pub(crate) fn push_tested(
    text: &mut String,
    attrs: &Attrs,
    shape: &Shape,
    value: u64,
    holds: bool,
    test: &Test,
) -> Result<(), AllocError>
    ensures { OnOk result
        (Puts text.old text.new (texts.tested_text attrs.now shape.now value holds test.now)) }
{
    push_test(text, test)?;
    push_truth(text, attrs, shape, value, holds, test)
}

fn push_truth(
    text: &mut String,
    attrs: &Attrs,
    shape: &Shape,
    value: u64,
    holds: bool,
    test: &Test,
) -> Result<(), AllocError>
    ensures { OnOk result
        (Puts text.old text.new (texts.truth_text attrs.now shape.now value holds test.now)) }
{
    if holds {
        push_held(text, shape, value, test)
    } else {
        text.push_str(": no")?;
        push_found(text, attrs, shape, value, test)
    }
}

fn push_held(text: &mut String, shape: &Shape, value: u64, test: &Test) -> Result<(), AllocError>
    ensures { OnOk result (Puts text.old text.new (texts.held_text shape.now value test.now)) }
{
    match test {
        Test::Take { array, .. } => {
            text.push_str(": yes")?;
            push_value(text, value, quota_named(shape, array.as_str()))
        }
        _ => text.push_str(" yes"),
    }
}

fn push_found(
    text: &mut String,
    attrs: &Attrs,
    shape: &Shape,
    value: u64,
    test: &Test,
) -> Result<(), AllocError>
    ensures { OnOk result
        (Puts text.old text.new (texts.found_text attrs.now shape.now value test.now)) }
{
    match test {
        Test::Version { .. } => {
            text.push_str(", ")?;
            push_numbers(text, attrs.context().version)
        }
        Test::Bucket { salt, modulus, .. } => {
            let bucket = bucket_tested(attrs, *salt, *modulus);
            write!(text, ", {bucket}")
        }
        Test::Today { .. } => {
            let today = attrs.context().today;
            write!(text, ", {today}")
        }
        Test::Installed { .. } => {
            text.push_str(", ")?;
            push_day(text, attrs.context().install_day)
        }
        Test::Flag(_) => Ok(()),
        Test::Attr { attribute, .. } => push_text(text, attrs, *attribute),
        Test::Take { array, .. } => { push_value(text, value, quota_named(shape, array.as_str())) }
    }
}

fn push_value(text: &mut String, value: u64, quota: u64) -> Result<(), AllocError>
    ensures { OnOk result (Puts text.old text.new (texts.value_text value quota)) }
{
    write!(text, ", {value} of {quota}")
}

fn push_text(text: &mut String, attrs: &Attrs, attribute: Attribute) -> Result<(), AllocError>
    ensures { OnOk result (Puts text.old text.new (texts.it_is_text attrs.now attribute)) }
{
    text.push_str(", it is ")?;
    push_quoted(text, attrs.text(attribute.number() as u64))
}

fn push_day(text: &mut String, day: u32) -> Result<(), AllocError>
    ensures { OnOk result (Puts text.old text.new (texts.day_text day)) }
{
    if day == Context::UNKNOWN_DAY {
        text.push_str("not known")
    } else {
        write!(text, "{day}")
    }
}
