//! The day of a date.

ghost use Rattle.std.specs.Prelude.{◌≡◌, ◌≤◌};
ghost use Rattle.cli_base.specs.Day as specs;

use jiff_core::civil::Date;

/// The day 2007-01-01 by `Date::days_since_min`.
const FIRST_DAY: u32 = 4385101;

/// The day of a date, if the calendar has it and it isn't before 2007.
pub(crate) fn day_of_date(year: u16, month: u8, day: u8) -> Option<u32>
    requires year { year ≤ 9999 }
    requires first_month { 1 ≤ month }
    requires last_month { month ≤ 12 }
    requires day { 1 ≤ day }
    ensures { result ≡ specs.day_of_date year month day }
{
    let date = Date::constrain(year as i16, month, day);
    if date.day != day {
        return None;
    }
    date.days_since_min().checked_sub(FIRST_DAY)
}
