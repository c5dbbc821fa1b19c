//! Requests of many apps: how many apps are in a line, what is left out, and which events fit.

use crate::app_samples::{
    APPID_64, APPID_65, APPID_3300, CUT_TEXTS, FURTHER, NO_APPID, PLAIN, WITH_BOTH, WITH_EVENT,
    WITH_MORE,
};
use crate::given::{ANSWERED, HEADER, line_with};
use access_log::{Connection, LogEvent, LoggedApp};
use std::alloc::{AllocError, Global};
use std::io;
use std::test::Fail;

/// Apps of a request, each with how many like it there are, and what their line has.
#[derive(Clone, Copy)]
pub(crate) struct Row {
    pub(crate) apps: &'static [(LoggedApp<'static>, usize)],
    /// Parts of the line, and how often it has them; and its end.
    pub(crate) parts: &'static [(&'static str, usize)],
    pub(crate) end: &'static str,
}

/// Each app takes 67 bytes and its appid's, with the comma before it, and 19 or 22 if its appid is
/// cut. All apps together have 3641. At least eleven apps are in a line: all texts are cut, and no
/// event fits. Thirty apps of 93 bytes leave 851, and an event takes 502 more than its length.
/// Details take no bytes from apps. Thirty apps of 88 bytes leave 1001, enough for eight times 115.
/// Eight of 109 leave 2769, enough for four times 617. Six leave 2987, enough for an event more.
const ROWS: &[Row] = &[
    Row {
        apps: &[(NO_APPID, 1)],
        parts: &[("\"appid\"", 1)],
        end: "]}\n",
    },
    Row {
        apps: &[(PLAIN, 50)],
        parts: &[("\"appid\"", 50)],
        end: "]}\n",
    },
    Row {
        apps: &[(PLAIN, 51)],
        parts: &[("\"appid\"", 50)],
        end: "],\"left_out\":1}\n",
    },
    Row {
        apps: &[(PLAIN, 256)],
        parts: &[("\"appid\"", 50)],
        end: "],\"left_out\":206}\n",
    },
    Row {
        apps: &[(APPID_64, 27)],
        parts: &[("\"appid\"", 27)],
        end: "]}\n",
    },
    Row {
        apps: &[(APPID_64, 28)],
        parts: &[("\"appid\"", 27)],
        end: "],\"left_out\":1}\n",
    },
    Row {
        apps: &[(APPID_65, 24)],
        parts: &[("\"appid\"", 24)],
        end: "]}\n",
    },
    Row {
        apps: &[(APPID_65, 25)],
        parts: &[("\"appid\"", 24)],
        end: "],\"left_out\":1}\n",
    },
    Row {
        apps: &[(APPID_3300, 256)],
        parts: &[("\"appid\"", 23)],
        end: "],\"left_out\":233}\n",
    },
    Row {
        apps: &[(CUT_TEXTS, 12)],
        parts: &[
            ("\"appid_left_out\":936", 11),
            ("\"version_left_out\":936", 11),
            ("\"event_left_out\":1000", 11),
            ("\"event\":", 0),
        ],
        end: "],\"left_out\":1,\"offers_left_out\":1}\n",
    },
    Row {
        apps: &[(WITH_EVENT, 30)],
        parts: &[
            ("\"appid\"", 30),
            ("\"event\":", 1),
            ("\"event_left_out\":512", 29),
        ],
        end: "}\n",
    },
    Row {
        apps: &[(WITH_MORE, 1)],
        parts: &[(FURTHER, 1)],
        end: "]}\n",
    },
    Row {
        apps: &[(WITH_MORE, 17)],
        parts: &[(FURTHER, 17)],
        end: "]}\n",
    },
    Row {
        apps: &[(WITH_MORE, 30)],
        parts: &[("\"appid\"", 30), (FURTHER, 8), ("\"ap\":", 8)],
        end: "],\"more_left_out\":22}\n",
    },
    Row {
        apps: &[(WITH_BOTH, 8)],
        parts: &[("\"event\":", 4), ("\"ap\":", 4)],
        end: "],\"more_left_out\":4}\n",
    },
    Row {
        apps: &[(WITH_BOTH, 6)],
        parts: &[
            ("\"event\":", 5),
            ("\"ap\":", 4),
            ("\"event_left_out\":512", 1),
        ],
        end: "],\"more_left_out\":2}\n",
    },
];

// Appends apps, each this number of times.
fn push_apps<'a>(
    all: &mut Vec<LoggedApp<'a>>,
    apps: &[(LoggedApp<'a>, usize)],
) -> Result<(), AllocError> {
    for (app, count) in apps {
        for _ in 0..*count {
            all.push(*app)?;
        }
    }
    Ok(())
}

// A connection with these apps.
fn with_apps<'a>(connection: Connection<'a>, apps: &'a [LoggedApp<'a>]) -> LogEvent<'a> {
    LogEvent::Connection(Connection { apps, ..connection })
}

/// The line of a connection with these apps.
pub(crate) fn line_of(
    alloc: Global,
    connection: Connection<'static>,
    apps: &[(LoggedApp<'static>, usize)],
) -> io::Result<String> {
    let mut all = Vec::new(alloc);
    push_apps(&mut all, apps)?;
    line_with(alloc, &HEADER, &with_apps(connection, &all))
}

// How often a text occurs in a line.
fn times(line: &str, part: &str) -> usize {
    line.split(part).count().saturating_sub(1)
}

// Whether a line is as the row says.
fn is_line(line: &str, row: &Row) -> bool {
    for (part, count) in row.parts {
        if times(line, *part) != *count {
            return false;
        }
    }
    line.ends_with(row.end) && line.len() <= 4096
}

/// Whether the line of a row's request is as the row says.
pub(crate) fn is_row(alloc: Global, row: &Row) -> io::Result<bool> {
    let line = line_of(alloc, ANSWERED, row.apps)?;
    Ok(is_line(&line, row))
}

#[test]
fn as_many_apps_are_logged_as_fit(rt: HostRuntime) -> Result<(), Fail> {
    for row in ROWS {
        assert!(rt; is_row(rt.alloc(), row)?);
    }
    Ok(())
}
