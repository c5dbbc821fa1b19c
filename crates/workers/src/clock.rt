//! The clock's times for a connection: its moment, and its deadline.

use std::thread;
use std::time::{Clock, Duration, Instant, SystemTime, UNIX_EPOCH};

/// How long a thread waits before it retries after a failure.
const PAUSE_MILLIS: u64 = 10;

/// The start of a connection, and its deadline.
#[derive(Clone, Copy)]
pub(crate) struct Limits {
    begun: Instant,
    until: Instant,
}

impl Limits {
    /// The limits of what begins now, and may last `timeout`. `None` if the clock can't be read.
    pub(crate) fn begin<H: Clock>(rt: &H, timeout: Duration) -> Option<Limits> {
        let begun = Instant::now(rt).ok()?;
        let until = begun.checked_add(timeout)?;
        Some(Limits { begun, until })
    }

    /// The deadline.
    pub(crate) fn until(&self) -> Instant {
        self.until
    }
}

/// The start, if the clock could be read.
pub(crate) fn begun(limits: Option<Limits>) -> Option<Instant> {
    match limits {
        Some(limits) => Some(limits.begun),
        None => None,
    }
}

/// The microseconds from one moment to another; 0 if one is unknown.
pub(crate) fn micros_between(from: Option<Instant>, to: Option<Instant>) -> u64 {
    match (from, to) {
        (Some(from), Some(to)) => {
            u64::try_from(to.duration_since(from).as_micros()).unwrap_or(u64::MAX)
        }
        _ => 0,
    }
}

/// The second by the clock; 0 if it can't be read, which counts as the first second of 2007.
pub(crate) fn unix_second<H: Clock>(rt: &H) -> i64 {
    let Ok(now) = SystemTime::now(rt) else {
        return 0;
    };
    match now.duration_since(UNIX_EPOCH) {
        Ok(since) => i64::try_from(since.as_secs()).unwrap_or(0),
        Err(_) => 0,
    }
}

/// Waits a moment, before a failed call is retried.
pub(crate) fn pause<H: Clock>(rt: &H) {
    thread::sleep(rt, Duration::from_millis(PAUSE_MILLIS));
}
