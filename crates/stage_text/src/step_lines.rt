//! Steps as lines: what a step did, when, by whom, and why.

// No contract says what they are: rows compare them. Names, paths and reasons are printed with
// their control characters escaped.

use jiff_core::Timestamp;
use moments::{NamedTime, time_text};
use printing::TextBuffer;
use stage_records::{StagingStep, StepAction};
use std::alloc::{AllocError, Global};
use std::time::{Clock, SystemTime, UNIX_EPOCH};

/// The nanoseconds of a second.
const NANOSECONDS: i128 = 1_000_000_000;

/// The seconds of a day.
const DAY: u64 = 86_400;

/// The second by the clock; 0 if it can't be read.
// open: what the clock says.
pub fn now_of<R: Clock>(rt: &R) -> u64 {
    let Ok(now) = SystemTime::now(rt) else {
        return 0;
    };
    match now.duration_since(UNIX_EPOCH) {
        Ok(since) => since.as_secs(),
        Err(_) => 0,
    }
}

/// A second since 1970 as a time by RFC 3339.
// open: what the text is: rows.
pub fn time_of(alloc: Global, second: u64) -> Result<String, AllocError> {
    match Timestamp::from_nanosecond(second as i128 * NANOSECONDS) {
        Ok(time) => time_text(alloc, NamedTime::At(time), time),
        Err(_) => String::from_str(alloc, "at an unknown time"),
    }
}

// The hour and minute of a time of today, or else the date.
fn short_time(time: &str, is_today: bool) -> &str {
    let short = if is_today {
        time.get(11..16)
    } else {
        time.get(0..10)
    };
    short.unwrap_or(time)
}

// Adds who took a step, if that is known.
fn push_user(text: &mut TextBuffer, step: &StagingStep) {
    if let Some(user) = &step.user {
        text.push_printed(" by ", user.as_str(), "");
    }
}

/// Adds since when a step is in force, and by whom. Times are in UTC: the hour and minute if `now`
/// is the same day, else the date.
// open: what the words are: rows.
pub fn push_since(alloc: Global, text: &mut TextBuffer, step: &StagingStep, now: u64) {
    text.push("since ");
    match time_of(alloc, step.time) {
        Ok(time) => text.push(short_time(time.as_str(), step.time / DAY == now / DAY)),
        Err(_) => text.leave_out(),
    }
    push_user(text, step);
}

/// Adds what a step did, such as `raise editor 2500`.
// open: what the words are: rows.
pub fn push_action(text: &mut TextBuffer, action: &StepAction) {
    match action {
        StepAction::Halt { appid } => text.push_printed("halt ", appid.as_str(), ""),
        StepAction::HaltRelease { appid, version } => {
            text.push_printed("halt ", appid.as_str(), "");
            text.push_printed(" ", version.as_str(), "");
        }
        StepAction::Raise { appid, buckets } => {
            text.push_printed("raise ", appid.as_str(), "");
            text.push_number(" ", *buckets as u64, "");
        }
        StepAction::Resume { appid, buckets } => {
            text.push_printed("resume ", appid.as_str(), "");
            if let Some(buckets) = *buckets {
                text.push_number(" ", buckets as u64, "");
            }
        }
        StepAction::Put { manifest } => text.push_printed("put ", manifest.as_str(), ""),
    }
}

/// Adds a line of a step: a word, its number, its time, who took it, what it did, and why.
// open: what the line is: rows.
pub fn push_step(alloc: Global, text: &mut TextBuffer, word: &str, step: &StagingStep) {
    text.push(word);
    text.push_number(" step ", step.number as u64, " of ");
    match time_of(alloc, step.time) {
        Ok(time) => text.push(time.as_str()),
        Err(_) => text.leave_out(),
    }
    push_user(text, step);
    text.push(": ");
    push_action(text, &step.action);
    if let Some(because) = &step.because {
        text.push_printed(" (", because.as_str(), ")");
    }
    text.push("\n");
}
