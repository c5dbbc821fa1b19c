//! Coordinated Universal Time, and its text by RFC 3339.

ghost use Rattle.std.specs.Prelude.{◌≡◌, ◌+◌, ◌*◌, ◌/◌, ◌%◌, ◌<◌, ◌↔◌, pos, IfSome, IsSome};
ghost use Rattle.std.specs.Prelude.{IfOk, string_bytes};
ghost use Rattle.jiff_core.specs.Calendar.{IsCivilDate, days_from_civil};
ghost use Rattle.access_log.specs.Utc as specs;

use jiff_core::civil::{Date, Time};
use jiff_core::constants::SECS_PER_CIVIL_DAY;
use std::alloc::{AllocError, Global};
use std::str;

const DAY_SECONDS: u64 = SECS_PER_CIVIL_DAY as u64;

/// A moment of a year from 0 to 9999, to the millisecond. `of_unix` computes it. Numbers outside
/// the calendar's ranges are printed by their last digits.
#[derive(Clone, Copy)]
pub struct Utc {
    pub year: u16,
    pub month: u8,
    pub day: u8,
    pub hour: u8,
    pub minute: u8,
    pub second: u8,
    pub millis: u16,
}

impl Utc {
    /// The moment that is `seconds` and `millis` after 1970 began. Returns `None` after the year
    /// 9999, which ends with the second 253402300799.
    pub fn of_unix(seconds: u64, millis: u16) -> Option<Utc>
        ensures moment { IsSome result ↔ seconds < 253402300800 }
        ensures civil { IfSome result (λ t. IsCivilDate (pos t.year) t.month t.day) }
        ensures date { IfSome result
            (λ t. days_from_civil (pos t.year) t.month t.day ≡ pos (seconds / 86400)) }
        ensures ranges { IfSome result
            (λ t. (t.hour < 24) × (t.minute < 60) × (t.second < 60)) }
        ensures time { IfSome result
            (λ t. t.hour * 3600 + t.minute * 60 + t.second ≡ seconds % 86400) }
        ensures millis { IfSome result (λ t. t.millis ≡ millis) }
    {
        let Ok(date) = Date::from_unix_epoch_day((seconds / DAY_SECONDS) as i64) else {
            return None;
        };
        let time = Time::from_second((seconds % DAY_SECONDS) as u32, 0);
        Some(Utc {
            year: date.year as u16,
            month: date.month,
            day: date.day,
            hour: time.hour,
            minute: time.minute,
            second: time.second,
            millis,
        })
    }

    /// Its text, as RFC 3339 defines it (section 5.6), with three digits of a second's fraction and
    /// `Z`.
    // open: whether an allocation fails.
    pub fn written(&self, alloc: Global) -> Result<String, AllocError>
        ensures { IfOk result (λ text. string_bytes text ≡ specs.utc_text self.now) }
    {
        let bytes = self.text();
        match str::from_utf8(&bytes) {
            Ok(text) => String::from_str(alloc, text),
            Err(_) => unreachable!(),
        }
    }

    /// As RFC 3339 defines it (section 5.6), with three digits of a second's fraction and `Z`.
    pub(crate) fn text(&self) -> [u8; 24]
        ensures { result ≡ specs.utc_text self.now }
    {
        let century = two_digits(self.year / 100);
        let year = two_digits(self.year);
        let month = two_digits(self.month as u16);
        let day = two_digits(self.day as u16);
        let hour = two_digits(self.hour as u16);
        let minute = two_digits(self.minute as u16);
        let second = two_digits(self.second as u16);
        let millis = two_digits(self.millis);
        [
            century[0],
            century[1],
            year[0],
            year[1],
            b'-',
            month[0],
            month[1],
            b'-',
            day[0],
            day[1],
            b'T',
            hour[0],
            hour[1],
            b':',
            minute[0],
            minute[1],
            b':',
            second[0],
            second[1],
            b'.',
            digit(self.millis / 100),
            millis[0],
            millis[1],
            b'Z',
        ]
    }
}

// The last two digits of a number, in ASCII.
fn two_digits(n: u16) -> [u8; 2]
    ensures { result ≡ specs.two_digits n }
{
    [digit(n / 10), digit(n)]
}

// The last digit.
fn digit(n: u16) -> u8
    ensures { result ≡ specs.digit n }
{
    b'0' + (n % 10) as u8
}
