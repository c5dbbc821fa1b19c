//! Moments by the second after 1970 began, in the form of RFC 3339.

use crate::given::{HEADER, is_whole_line};
use access_log::{LineHeader, LogEvent, Utc};
use std::alloc::{AllocError, Global};
use std::test::Fail;

const ROWS: &[(u64, u16, &str)] = &[
    (0, 0, "1970-01-01T00:00:00.000Z"),
    (1, 7, "1970-01-01T00:00:01.007Z"),
    (86399, 999, "1970-01-01T23:59:59.999Z"),
    (86400, 10, "1970-01-02T00:00:00.010Z"),
    (951782399, 0, "2000-02-28T23:59:59.000Z"),
    (951782400, 0, "2000-02-29T00:00:00.000Z"),
    (951868800, 0, "2000-03-01T00:00:00.000Z"),
    (1167609600, 0, "2007-01-01T00:00:00.000Z"),
    (1795522756, 42, "2026-11-24T12:19:16.042Z"),
    (4107542399, 0, "2100-02-28T23:59:59.000Z"),
    (4107542400, 0, "2100-03-01T00:00:00.000Z"),
    (253402300799, 999, "9999-12-31T23:59:59.999Z"),
];

// Whether this is the time of a line.
fn is_stop(alloc: Global, time: Utc, text: &str) -> Result<bool, AllocError> {
    let wanted = format!(in alloc; "{{\"time\":\"{text}\",\"port\":65535,\"kind\":\"stop\"}}\n")?;
    let header = LineHeader { time, ..HEADER };
    is_whole_line(alloc, &header, &LogEvent::Stop(None), &wanted)
}

#[test]
fn times_are_those_of_the_calendar(rt: HostRuntime) -> Result<(), Fail> {
    for (seconds, millis, text) in ROWS {
        let time = Utc::of_unix(*seconds, *millis).ok_or("a year up to 9999")?;
        assert!(rt; is_stop(rt.alloc(), time, *text)?, "{text}");
    }
    assert!(rt; Utc::of_unix(253402300800, 0).is_none());
    assert!(rt; Utc::of_unix(u64::MAX, 0).is_none());
    Ok(())
}
