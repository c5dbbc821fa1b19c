//! The date and the time of day of a minute since 1970, in UTC.

use arrayvec::ArrayString;
use jiff_core::civil::{Date, DateTime, Time};
use jiff_fmt::temporal::DateTimePrinter;

/// The time of a minute, such as `2026-12-01T10:57:00`; empty after the year 9999.
pub(crate) fn text_of_minute(minute: u64) -> ArrayString<32> {
    let hour = (minute / 60 % 24) as i8;
    let past = (minute % 60) as i8;
    let Ok(day) = i64::try_from(minute / 1440) else {
        return ArrayString::new();
    };
    match (Date::from_unix_epoch_day(day), Time::new(hour, past, 0, 0)) {
        (Ok(date), Ok(time)) => DateTimePrinter::new().datetime_text(DateTime { date, time }),
        _ => ArrayString::new(),
    }
}

/// The date in such a text.
pub(crate) fn date_in(text: &str) -> &str {
    text.get(0..10).unwrap_or("")
}

/// The month and the day in such a text, such as `12-01`.
pub(crate) fn day_in(text: &str) -> &str {
    text.get(5..10).unwrap_or("")
}

/// The time of day in such a text, such as `10:57`.
pub(crate) fn clock_in(text: &str) -> &str {
    text.get(11..16).unwrap_or("")
}
