//! The moment that the options name, as a Unix second.

ghost use Rattle.std.specs.Prelude.{◌≡◌, ◌≤◌, IfOk, IfSome, codes, option_copied};
ghost use Rattle.std.specs.Result.{result_ok};
ghost use Rattle.clap.specs.Words.{first_of, found_of, rows_of};
ghost use Rattle.cli_base.specs.Seconds as specs;

use crate::argument_fault::{ArgsError, ArgumentFault};
use crate::day::day_in;
use crate::values::optional_text;
use attrs::{Elapsed, Moment};
use clap::ArgMatches;
use lexing::decimal_within;
use moments::second_of_time;

/// The last second of the year 9999.
const LAST_SECOND: u64 = 253402300799;

// ---- texts

// The second that a text names: a decimal number, or a time by RFC 3339, such as
// `2026-12-01T03:00:00Z`.
fn second_in(text: &str) -> Option<Moment>
    ensures { result ≡ specs.second_in text.now }
{
    match decimal_within(text, 0, LAST_SECOND) {
        Some(second) => Some(second as i64),
        None => second_of_time(text),
    }
}

// The day of an option; day 0 without it.
fn day_by(text: Option<&str>) -> Option<u32>
    ensures day { result ≡ specs.day_by (option_copied text.entry) }
    ensures limit { IfSome result (λ day. day ≤ 2919382) }
{
    match text {
        Some(text) => day_in(Elapsed::LAST_DAY, text),
        None => Some(0),
    }
}

// ---- options

/// The moment of an app: that of `--at`, or the first second of the day of `--today`, which is day
/// 0 by default. Giving both is an error.
pub fn moment_of(found: &ArgMatches<'_>) -> Result<Moment, ArgsError>
    ensures { result_ok result ≡ specs.moment_in (rows_of (found_of found.now)) }
{
    moment_by(optional_text(found, "at"), optional_text(found, "today"))
}

fn moment_by(at: Option<&str>, today: Option<&str>) -> Result<Moment, ArgsError>
    ensures { result_ok result
        ≡ specs.moment_by (option_copied at.entry) (option_copied today.entry) }
{
    match (at, today) {
        (Some(_), Some(_)) => Err(ArgsError::Wrong(ArgumentFault::AtAndToday)),
        (Some(text), None) => match second_in(text) {
            Some(second) => Ok(second),
            None => Err(ArgsError::Wrong(ArgumentFault::At)),
        },
        (None, today) => match day_by(today) {
            Some(day) => {
                Ok((Elapsed::FIRST_SECOND + Elapsed::SECONDS_OF_A_DAY * day as u64) as i64)
            }
            None => Err(ArgsError::Wrong(ArgumentFault::Today)),
        },
    }
}

/// The moment of `--at` alone, if given.
pub fn second_of(found: &ArgMatches<'_>) -> Result<Option<Moment>, ArgsError>
    ensures { result_ok result
        ≡ specs.second_by (first_of (codes "at") (rows_of (found_of found.now))) }
{
    second_by(optional_text(found, "at"))
}

fn second_by(text: Option<&str>) -> Result<Option<Moment>, ArgsError>
    ensures { result_ok result ≡ specs.second_by (option_copied text.entry) }
{
    match text {
        Some(text) => match second_in(text) {
            Some(second) => Ok(Some(second)),
            None => Err(ArgsError::Wrong(ArgumentFault::At)),
        },
        None => Ok(None),
    }
}

// ---- days

/// The day of `--from`; day 0 without it.
pub fn from_of(found: &ArgMatches<'_>) -> Result<u32, ArgsError>
    ensures day { result_ok result
        ≡ specs.day_by (first_of (codes "from") (rows_of (found_of found.now))) }
    ensures limit { IfOk result (λ day. day ≤ 2919382) }
{
    match day_by(optional_text(found, "from")) {
        Some(day) => Ok(day),
        None => Err(ArgsError::Wrong(ArgumentFault::From)),
    }
}
