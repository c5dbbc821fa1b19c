//! The day that a text names, counted from 2007-01-01 as Omaha counts them.

ghost use Rattle.std.specs.Prelude.{◌≡◌, ◌≤◌, IfSome};
ghost use Rattle.cli_base.specs.Day as specs;

use crate::date::day_of_date;
use lexing::decimal_within;

/// The day that a text names, counted from 2007-01-01, if at most `most`. The text is a decimal
/// number, or a date of the years 2007 to 9999, such as `2026-12-01`.
pub(crate) fn day_in(most: u32, text: &str) -> Option<u32>
    ensures day { result ≡ specs.day_in most text.now }
    ensures limit { IfSome result (λ day. day ≤ most) }
{
    let day = match text.split_once('-') {
        Some((year, rest)) => dated(year, rest)?,
        None => return numbered(most, text),
    };
    if day <= most { Some(day) } else { None }
}

fn numbered(most: u32, text: &str) -> Option<u32>
    ensures day { result ≡ specs.numbered most text.now }
    ensures limit { IfSome result (λ day. day ≤ most) }
{
    let day = decimal_within(text, 0, most as u64)?;
    Some(day as u32)
}

// The day of a date with this year before the first hyphen and this rest after it.
fn dated(year: &str, rest: &str) -> Option<u32>
    ensures { result ≡ specs.dated year.now rest.now }
{
    match rest.split_once('-') {
        Some((month, day)) => day_of_parts(year, month, day),
        None => None,
    }
}

fn day_of_parts(year: &str, month: &str, day: &str) -> Option<u32>
    ensures { result ≡ specs.day_of_parts year.now month.now day.now }
{
    if year.len() != 4 || month.len() != 2 || day.len() != 2 {
        return None;
    }
    let year = decimal_within(year, 0, 9999)?;
    let month = decimal_within(month, 1, 12)?;
    let day = decimal_within(day, 1, 31)?;
    day_of_date(year as u16, month as u8, day as u8)
}
