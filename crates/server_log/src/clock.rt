//! The times of a log line: when it was made, how long a connection took, and until when the line
//! waits for a place. Nothing is proved about clocks.

ghost use Rattle.std.specs.Prelude.{◌≡◌};

use access_log::{LineHeader, Utc};
use std::time::{Clock, Duration, Instant, SystemTime, UNIX_EPOCH};

/// The start of 1970.
const FIRST: Utc = Utc {
    year: 1970,
    month: 1,
    day: 1,
    hour: 0,
    minute: 0,
    second: 0,
    millis: 0,
};

/// The time in `seconds` seconds; `None` if the clock can't be read.
pub fn seconds_from_now<H: Clock>(rt: &H, seconds: u64) -> Option<Instant> {
    Instant::now(rt)
        .ok()?
        .checked_add(Duration::from_secs(seconds))
}

/// Whether a moment is past; false if the clock can't be read.
pub(crate) fn is_past<H: Clock>(rt: &H, moment: Instant) -> bool {
    match Instant::now(rt) {
        Ok(now) => moment <= now,
        Err(_) => false,
    }
}

/// The microseconds since `begun`; 0 if unknown.
pub(crate) fn micros_since<H: Clock>(rt: &H, begun: Option<Instant>) -> u64 {
    let Some(begun) = begun else {
        return 0;
    };
    match begun.elapsed(rt) {
        Ok(elapsed) => u64::try_from(elapsed.as_micros()).unwrap_or(u64::MAX),
        Err(_) => 0,
    }
}

/// The header of a log line of the server with this clients' port.
pub(crate) fn header_now<H: Clock>(rt: &H, port: u16) -> LineHeader
    ensures { result.port ≡ port }
{
    LineHeader {
        time: utc_now(rt),
        port,
    }
}

/// The time of a log line; the start of 1970 if the clock can't be read.
// open: that it is the present time: nothing is proved about clocks.
pub fn utc_now<H: Clock>(rt: &H) -> Utc {
    let since = match SystemTime::now(rt) {
        Ok(now) => now.duration_since(UNIX_EPOCH).unwrap_or(Duration::ZERO),
        Err(_) => Duration::ZERO,
    };
    Utc::of_unix(since.as_secs(), since.subsec_millis() as u16).unwrap_or(FIRST)
}
