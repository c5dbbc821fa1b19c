//! Moments as an operator names them, and as times in a log.

ghost use Rattle.std.specs.Prelude.{◌≡◌, ◌<◌, ◌≤◌, IfNone, IfOk, IfSome, string_bytes};
ghost use Rattle.moments.specs.LogTimes as times;
ghost use Rattle.moments.specs.Moments as specs;

use crate::rfc3339::time_in;
use arrayvec::ArrayString;
use jiff_core::Timestamp;
use jiff_core::constants::SECS_PER_CIVIL_DAY;
use jiff_fmt::temporal::DateTimePrinter;
use lexing::decimal_within;
use std::alloc::{AllocError, Global};

const DAY: u64 = SECS_PER_CIVIL_DAY as u64;

/// The greatest number before a unit.
const MOST: u64 = 99999;

/// A moment as an operator names it.
#[derive(Clone, Copy)]
pub enum NamedTime {
    /// This number of seconds ago.
    Ago(u64),
    At(Timestamp),
}

/// The moment that a text names: a number up to 99999 followed by `s`, `m`, `h` or `d` is how long
/// ago; any other text must be a time by RFC 3339, up to 9999-12-30T22:00:00Z, with at most nine
/// digits of a second's fraction.
pub fn moment_in(text: &str) -> Option<NamedTime>
    ensures moment { IfSome result (specs.Names text.now) }
    ensures none { IfNone result (specs.NamesNone text.now) }
{
    if let Some(seconds) = seconds_ago(text) {
        return Some(NamedTime::Ago(seconds));
    }
    match time_in(text) {
        Some(time) => Some(NamedTime::At(time)),
        None => None,
    }
}

fn seconds_ago(text: &str) -> Option<u64>
    ensures { result ≡ specs.seconds_ago text.now }
{
    if let Some(seconds) = seconds_by('s', 1, text) {
        return Some(seconds);
    }
    if let Some(seconds) = seconds_by('m', 60, text) {
        return Some(seconds);
    }
    if let Some(seconds) = seconds_by('h', 3600, text) {
        return Some(seconds);
    }
    seconds_by('d', DAY, text)
}

fn seconds_by(letter: char, unit: u64, text: &str) -> Option<u64>
    requires ascii { letter < 128 }
    requires unit { unit ≤ 86400 }
    ensures { result ≡ specs.seconds_by letter unit text.now }
{
    match text.split_once(letter) {
        Some((number, "")) => Some(decimal_within(number, 0, MOST)? * unit),
        _ => None,
    }
}

/// The time of a moment, given the present time, in the form of a server's log, with milliseconds
/// and `Z`. A moment before the first time becomes the first time.
// open: whether an allocation fails, its one error; when it is the first time.
#[tactic(auto, using(crate::proofs::LogTimes::text_of))]
pub fn time_text(alloc: Global, moment: NamedTime, now: Timestamp) -> Result<String, AllocError>
    ensures { IfOk result (λ text. times.IsTextOf now moment (string_bytes text)) }
{
    let time = time_of(moment, now);
    let text = log_time(time);
    String::from_str(alloc, text.as_str())
}

fn time_of(moment: NamedTime, now: Timestamp) -> Timestamp
    ensures { times.IsTimeOf now moment result }
{
    match moment {
        NamedTime::At(time) => time,
        NamedTime::Ago(seconds) => earlier(now, seconds),
    }
}

fn earlier(now: Timestamp, seconds: u64) -> Timestamp
    ensures { times.IsBefore now seconds result }
{
    let nanoseconds = seconds as i128 * 1_000_000_000;
    let Ok(time) = Timestamp::from_nanosecond(now.nanosecond - nanoseconds) else {
        return Timestamp::MIN;
    };
    time
}

fn log_time(time: Timestamp) -> ArrayString<33>
    ensures { times.IsLogTime time result.bytes }
{
    DateTimePrinter::new()
        .precision(Some(3))
        .timestamp_text(time)
}
