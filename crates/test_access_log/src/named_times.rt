//! Moments named by how long ago, and their times.

use jiff_core::Timestamp;
use moments::{moment_in, time_text};
use std::alloc::{AllocError, Global};
use std::test::Fail;

/// 2026-11-25T10:00:00Z
const NOW: i128 = 1795600800 * 1_000_000_000;

/// A moment, and its time.
const ROWS: [(&str, &str); 7] = [
    ("90s", "2026-11-25T09:58:30.000Z"),
    ("10m", "2026-11-25T09:50:00.000Z"),
    ("2h", "2026-11-25T08:00:00.000Z"),
    ("3d", "2026-11-22T10:00:00.000Z"),
    ("0s", "2026-11-25T10:00:00.000Z"),
    ("99999d", "1753-02-10T10:00:00.000Z"),
    ("99999s", "2026-11-24T06:13:21.000Z"),
];

#[test]
fn moments_have_times(rt: HostRuntime) -> Result<(), Fail> {
    for (text, wanted) in &ROWS {
        assert!(rt; has_time(rt.alloc(), text, wanted)?, "{text}");
    }
    Ok(())
}

// Whether a text names the moment of this time.
fn has_time(alloc: Global, text: &str, wanted: &str) -> Result<bool, AllocError> {
    let Ok(now) = Timestamp::from_nanosecond(NOW) else {
        return Ok(false);
    };
    match moment_in(text) {
        Some(moment) => Ok(time_text(alloc, moment, now)?.as_str() == wanted),
        None => Ok(false),
    }
}
