//! Which cells of a group a machine can have together.

ghost use Rattle.std.specs.Prelude.{◌≡◌, option_copied};
ghost use Rattle.std.specs.List.{list_any};
ghost use Rattle.diff_space.specs.Fits as specs;

use crate::number_line::version_number;
use attrs::{cohort_bucket, read_version};
use rule_lang::Literal;

// Whether a number is in the cell that begins at `low` and ends before `high`.
fn in_cell(low: u128, high: Option<u128>, number: u128) -> bool
    ensures { result ≡ specs.in_cell low high number }
{
    match high {
        Some(high) => low <= number && number < high,
        None => low <= number,
    }
}

/// Whether a version, known or not, may be in this cell and have this text; `None` is any text that
/// isn't named.
pub(crate) fn version_fits(
    text: Option<&Literal>,
    is_known: bool,
    low: u128,
    high: Option<u128>,
) -> bool
    ensures { result ≡ specs.version_fits (option_copied text.entry) is_known low high }
{
    let Some(text) = text else {
        return is_known || low == 0;
    };
    if text.as_str().is_empty() {
        return is_known || low == 0;
    }
    match read_version(text.as_str()) {
        Some(version) => is_known && in_cell(low, high, version_number(version)),
        None => !is_known && low == 0,
    }
}

fn names_bucket(cohort: &Literal, bucket: u16) -> bool
    ensures { result ≡ specs.names_bucket bucket cohort.now }
{
    match cohort_bucket(cohort.as_str()) {
        Some(named) => named.number() == bucket,
        None => false,
    }
}

fn some_names(texts: &[Literal], bucket: u16) -> bool
    ensures { result ≡ list_any (specs.names_bucket bucket) texts.now }
{
    let mut left = texts;
    while let [text, others @ ..] = left {
        if names_bucket(text, bucket) {
            return true;
        }
        left = others;
    }
    false
}

/// Whether a machine of this bucket may have this cohort (`None` is any that isn't named in
/// `texts`), given whether its cohort names its bucket.
pub(crate) fn cohort_fits(
    texts: &[Literal],
    cohort: Option<&Literal>,
    is_known: bool,
    bucket: u16,
) -> bool
    ensures { result ≡ specs.cohort_fits texts.now (option_copied cohort.entry) is_known bucket }
{
    let Some(cohort) = cohort else {
        return !is_known || !some_names(texts, bucket);
    };
    if cohort_bucket(cohort.as_str()).is_some() {
        return is_known && names_bucket(cohort, bucket);
    }
    !is_known
}
