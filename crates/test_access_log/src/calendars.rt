//! Days of the calendar, and minutes of the times in a log.

use moments::{CivilDate, minute_in};
use std::alloc::{AllocError, Global};
use std::test::Fail;

/// A date; its year, month and day; and its number of days since 1970-01-01.
const DAYS: [(&str, u64, u64, u64, u64); 11] = [
    ("1970-01-01", 1970, 1, 1, 0),
    ("1972-02-29", 1972, 2, 29, 789),
    ("1999-12-31", 1999, 12, 31, 10956),
    ("2000-02-29", 2000, 2, 29, 11016),
    ("2000-03-01", 2000, 3, 1, 11017),
    ("2024-02-29", 2024, 2, 29, 19782),
    ("2026-11-25", 2026, 11, 25, 20782),
    ("2100-02-28", 2100, 2, 28, 47540),
    ("2100-03-01", 2100, 3, 1, 47541),
    ("2400-02-29", 2400, 2, 29, 157113),
    ("9999-12-30", 9999, 12, 30, 2932895),
];

fn is_date(date: CivilDate, year: u64, month: u64, day: u64) -> bool {
    date.year == year && date.month == month && date.day == day
}

// Whether a time on this date is on the day of this number.
fn is_day(alloc: Global, date: &str, number: u64) -> Result<bool, AllocError> {
    let time = format!(in alloc; "{date}T12:34:56.789Z")?;
    let minute = number.wrapping_mul(1440).wrapping_add(754);
    Ok(minute_in(&time) == Some(minute))
}

#[test]
fn days_have_dates(rt: HostRuntime) -> Result<(), Fail> {
    for (text, year, month, day, number) in &DAYS {
        assert!(rt;
            is_date(CivilDate::of_day(*number), *year, *month, *day),
            "{text}"
        );
        assert!(rt; is_day(rt.alloc(), *text, *number)?, "{text}");
    }
    assert!(rt; is_date(CivilDate::of_day(2932896), 9999, 12, 31));
    Ok(())
}

/// Texts that aren't times of a log.
const NONE: [&str; 8] = [
    "",
    "2026-11-25",
    "2026-02-30T00:00:00.000Z",
    "2026-11-25T24:00:00.000Z",
    "2026-11-25T23:60:00.000Z",
    "2026-13-01T00:00:00.000Z",
    "1969-12-31T23:59:59.999Z",
    "today",
];

#[test]
fn other_texts_have_no_minute(rt: HostRuntime) -> Result<(), Fail> {
    for text in &NONE {
        assert!(rt; minute_in(text).is_none(), "{text}");
    }
    Ok(())
}
