//! Days of the Gregorian calendar in UTC, and minutes, both counted from 1970 on.

ghost use Rattle.std.specs.Prelude.{◌≡◌, ◌≤◌};
ghost use Rattle.moments.specs.Calendar as specs;

use crate::rfc3339::second_of_time;
use jiff_core::civil::Date;

/// A date of the Gregorian calendar, made by `of_day`.
#[derive(Clone, Copy)]
pub struct CivilDate {
    pub year: u64,
    /// From 1 to 12.
    pub month: u64,
    /// From 1 to 31.
    pub day: u64,
}

impl CivilDate {
    /// The date `day` days after 1970-01-01; the last is 9999-12-31.
    pub fn of_day(day: u64) -> CivilDate
        requires { day ≤ 2932896 }
        ensures { result ≡ specs.date_of day }
    {
        match Date::from_unix_epoch_day(day as i64) {
            Ok(date) => CivilDate {
                year: date.year as u64,
                month: date.month as u64,
                day: date.day as u64,
            },
            Err(_) => unreachable!(),
        }
    }
}

/// The minute since 1970 of a time by RFC 3339, such as `2026-11-25T08:00:00.012Z` in a server's
/// log, up to 9999-12-30T22:00:00Z. `None` before 1970.
pub fn minute_in(text: &str) -> Option<u64>
    ensures { result ≡ specs.minute_in text.now }
{
    match second_of_time(text) {
        Some(second) => minute_of_second(second),
        None => None,
    }
}

fn minute_of_second(second: i64) -> Option<u64>
    ensures { result ≡ specs.minute_of_second second }
{
    if second < 0 {
        None
    } else {
        Some(second as u64 / 60)
    }
}
