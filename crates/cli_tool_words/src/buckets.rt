//! A share of the 10000 buckets, as a word gives it.

ghost use Rattle.std.specs.Prelude.{ℕ, IfNone, IfSome};
ghost use Rattle.cli_tool_words.specs.Buckets.{GivesBuckets, IsPercent};

use lexing::decimal_within;

/// The buckets that a word gives: their number, `2500`, or their share in percent, `25%`.
pub(crate) fn buckets_in(text: &str) -> Option<u32>
    ensures given { IfSome result (GivesBuckets text.now) }
    ensures lacking { IfNone result ((n : ℕ) → ¬ GivesBuckets text.now n) }
{
    match decimal_within(text, 0, 10000) {
        Some(buckets) => Some(buckets as u32),
        None => match percent_in(text) {
            Some(buckets) => Some(buckets),
            None => None,
        },
    }
}

#[tactic(auto, using(crate::proofs::Percents::no_sign))]
fn percent_in(text: &str) -> Option<u32>
    ensures given { IfSome result (IsPercent text.now) }
    ensures lacking { IfNone result ((n : ℕ) → ¬ IsPercent text.now n) }
{
    let Some(digits) = text.strip_suffix('%') else {
        return None;
    };
    match decimal_within(digits, 0, 100) {
        Some(percent) => Some(percent as u32 * 100),
        None => None,
    }
}
