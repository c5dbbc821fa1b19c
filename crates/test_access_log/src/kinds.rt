//! Requests of apps of several kinds: what is left out of a line is counted by kind, and no line is
//! too long.

use crate::app_samples::{FURTHER_MEMBERS, WIDE};
use crate::apps::{Row, is_row, line_of};
use crate::given::NOTES;
use access_log::{Connection, Excerpt, FurtherMembers, LoggedApp, Outcome};
use std::test::Fail;

/// Apps of one letter: one is offered a release, one requests no update, one is unknown. They take
/// 84, 57 and 72 bytes.
const OFFERED: LoggedApp<'static> = LoggedApp {
    appid: Excerpt {
        text: "x",
        length: 1,
    },
    ..NOTES
};

const OTHER: LoggedApp<'static> = LoggedApp {
    outcome: Outcome::NotRequested,
    ..OFFERED
};

const UNKNOWN: LoggedApp<'static> = LoggedApp {
    outcome: Outcome::Unknown,
    ..OFFERED
};

const KINDS: &[Row] = &[
    Row {
        apps: &[(OFFERED, 42), (OTHER, 1)],
        parts: &[],
        end: "]}\n",
    },
    Row {
        apps: &[(OFFERED, 42), (OTHER, 2)],
        parts: &[],
        end: "],\"left_out\":1}\n",
    },
    Row {
        apps: &[(OFFERED, 42), (UNKNOWN, 2)],
        parts: &[],
        end: "],\"left_out\":1,\"unknown_left_out\":1}\n",
    },
    Row {
        apps: &[(OFFERED, 42), (OTHER, 1), (UNKNOWN, 1)],
        parts: &[],
        end: "],\"left_out\":1,\"unknown_left_out\":1}\n",
    },
    Row {
        apps: &[(OFFERED, 45)],
        parts: &[],
        end: "],\"left_out\":2,\"offers_left_out\":2}\n",
    },
    Row {
        apps: &[(OFFERED, 45), (UNKNOWN, 4)],
        parts: &[],
        end: "],\"left_out\":6,\"offers_left_out\":2,\"unknown_left_out\":4}\n",
    },
    Row {
        apps: &[(OFFERED, 256)],
        parts: &[],
        end: "],\"left_out\":213,\"offers_left_out\":213}\n",
    },
];

#[test]
fn what_is_left_out_is_counted_by_kind(rt: HostRuntime) -> Result<(), Fail> {
    for row in KINDS {
        assert!(rt; is_row(rt.alloc(), row)?);
    }
    Ok(())
}

/// The longest line around the apps of a connection. It has a peer with a scope, the longest
/// address of a proxy, no request id, a refusal with a cause, and numbers of twenty digits.
const LONG: Connection<'static> = Connection {
    peer: "[ffff:ffff:ffff:ffff:ffff:ffff:ffff:ffff%4294967295]:65535",
    forwarded: Some("ffff:ffff:ffff:ffff:ffff:ffff:ffff:ffff"),
    lacks_id: true,
    request_id: None,
    status: 0,
    refusal: Some("P8 Device"),
    cause: Some("time-out"),
    generation: u64::MAX,
    bytes: u64::MAX,
    micros: u64::MAX,
    waited: u64::MAX,
    apps: &[],
};

/// An unknown app with the further members, which isn't named, and whose appid has 64 bytes; one
/// whose appid has 33; and one that is offered a release.
const FULL: LoggedApp<'static> = LoggedApp {
    appid: Excerpt {
        text: WIDE,
        length: 64,
    },
    named: false,
    outcome: Outcome::Unknown,
    more: FurtherMembers {
        ap: Some(Excerpt {
            text: "x",
            length: 1,
        }),
        ..FURTHER_MEMBERS
    },
    ..NOTES
};

const FULL_33: LoggedApp<'static> = LoggedApp {
    appid: Excerpt {
        text: "aaaaaaaaaaaaaaaaaaaaaaaaaaaaaaaaa",
        length: 33,
    },
    ..FULL
};

const FULL_OFFERED: LoggedApp<'static> = LoggedApp {
    outcome: Outcome::Offered(64, "1.0"),
    ..FULL
};

/// 256 apps that take as much as they may. 26 with 64 bytes and one with 33 fill 3641 bytes, except
/// the comma before the first; the rest of the line has 455.
const LONGEST: &[(LoggedApp<'static>, usize)] = &[
    (FULL, 26),
    (FULL_33, 1),
    (FULL, 103),
    (FULL_OFFERED, 126),
];

#[test]
fn no_line_of_a_connection_is_too_long(rt: HostRuntime) -> Result<(), Fail> {
    let line = line_of(rt.alloc(), LONG, LONGEST)?;
    let end = "],\"more_left_out\":27,\"left_out\":229,\"offers_left_out\":126,\
        \"unknown_left_out\":103}\n";
    assert!(rt; line.ends_with(end) && line.len() == 4095, "{line}");
    Ok(())
}

/// The same with an id, of 16 bytes or of 15 and without a cause. The line of the first would have
/// 4116 bytes; that of the second has 4096.
const IDENTIFIED: Connection<'static> = Connection {
    lacks_id: false,
    request_id: Some("{D505492F-95FE-4"),
    ..LONG
};

const UNCAUSED: Connection<'static> = Connection {
    request_id: Some("{D505492F-95FE-"),
    cause: None,
    ..IDENTIFIED
};

#[test]
fn an_id_that_fits_is_in_the_line(rt: HostRuntime) -> Result<(), Fail> {
    let line = line_of(rt.alloc(), IDENTIFIED, LONGEST)?;
    assert!(rt;
        !line.contains("request_id") && line.len() == 4084,
        "{line}"
    );
    let line = line_of(rt.alloc(), UNCAUSED, LONGEST)?;
    let id = ",\"request_id\":\"{D505492F-95FE-\",\"refusal\":";
    assert!(rt; line.contains(id) && line.len() == 4096, "{line}");
    Ok(())
}
