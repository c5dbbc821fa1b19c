//! Parts of events, of which the tests have the lines.

use crate::given::NO_MORE;
use access_log::{Connection, Excerpt, Halt, Load, LoggedApp, Outcome, Start};

const MANIFEST: Excerpt<'static> = Excerpt {
    text: "m.toml",
    length: 6,
};

/// A text after which 9 bytes are left out.
pub(crate) const CUT: Excerpt<'static> = Excerpt {
    text: "a\tb",
    length: 12,
};

pub(crate) const START: Start<'static> = Start {
    manifest: MANIFEST,
    operator: 8081,
    digest: None,
    counters: None,
    refusal: None,
    cause: None,
};

pub(crate) const LOAD: Load<'static> = Load {
    path: MANIFEST,
    generation: 0,
    digest: None,
    halted: 0,
    refusal: None,
    cause: None,
};

pub(crate) const HALT: Halt<'static> = Halt {
    app: Excerpt {
        text: "editor",
        length: 6,
    },
    is_resume: false,
    generation: 0,
    refusal: None,
};

/// A connection whose client got no reply.
pub(crate) const DROPPED: Connection<'static> = Connection {
    peer: "[fe80::1%2]:80",
    forwarded: None,
    lacks_id: false,
    request_id: None,
    status: 0,
    refusal: Some("P8 Device"),
    cause: Some("time-out"),
    generation: 0,
    bytes: 0,
    micros: 0,
    waited: 0,
    apps: &[],
};

/// An app that requested no update, and whose cohort names no bucket.
const EDITOR: LoggedApp<'static> = LoggedApp {
    appid: Excerpt {
        text: "editor",
        length: 6,
    },
    version: None,
    bucket: 7,
    named: false,
    outcome: Outcome::NotRequested,
    event: None,
    more: NO_MORE,
};

/// Apps with strange texts: an unknown one with an event, one with an empty version, and one whose
/// event is cut.
pub(crate) const STRANGE: &[LoggedApp<'static>] = &[
    LoggedApp {
        appid: Excerpt {
            text: "q\"\\é",
            length: 5,
        },
        outcome: Outcome::Unknown,
        event: Some(Excerpt {
            text: "[{\"a\":\"\\n\"}]",
            length: 12,
        }),
        ..EDITOR
    },
    LoggedApp {
        version: Some(Excerpt {
            text: "",
            length: 0,
        }),
        ..EDITOR
    },
    LoggedApp {
        appid: Excerpt {
            text: "\u{1}\n/",
            length: 3,
        },
        outcome: Outcome::NoUpdate,
        event: Some(Excerpt {
            text: "\t{}",
            length: 15,
        }),
        ..EDITOR
    },
];

/// Apps whose texts are cut, or change a terminal.
pub(crate) const CUT_APPS: &[LoggedApp<'static>] = &[
    LoggedApp {
        appid: Excerpt {
            text: "\u{9b}31m",
            length: 3305,
        },
        version: Some(Excerpt {
            text: "\u{202e}1",
            length: 4,
        }),
        outcome: Outcome::Unknown,
        ..EDITOR
    },
    LoggedApp {
        appid: Excerpt {
            text: "\u{2028}",
            length: 3,
        },
        version: Some(Excerpt {
            text: "1\u{7f}",
            length: 3,
        }),
        outcome: Outcome::Offered(64, "2.0"),
        ..EDITOR
    },
];
