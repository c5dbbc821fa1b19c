//! Apps and their further members, of the lengths that the tests need.

use crate::given::{NO_MORE, NOTES};
use access_log::{Excerpt, FurtherMembers, LoggedApp, Outcome};

/// A text of 32 bytes, and one of 64.
const SHORT: &str = "aaaaaaaaaaaaaaaaaaaaaaaaaaaaaaaa";

pub(crate) const WIDE: &str = "aaaaaaaaaaaaaaaaaaaaaaaaaaaaaaaaaaaaaaaaaaaaaaaaaaaaaaaaaaaaaaaa";

/// A text of 512 bytes.
const LONG: &str = "aaaaaaaaaaaaaaaaaaaaaaaaaaaaaaaaaaaaaaaaaaaaaaaaaaaaaaaaaaaaaaaa\
    aaaaaaaaaaaaaaaaaaaaaaaaaaaaaaaaaaaaaaaaaaaaaaaaaaaaaaaaaaaaaaaa\
    aaaaaaaaaaaaaaaaaaaaaaaaaaaaaaaaaaaaaaaaaaaaaaaaaaaaaaaaaaaaaaaa\
    aaaaaaaaaaaaaaaaaaaaaaaaaaaaaaaaaaaaaaaaaaaaaaaaaaaaaaaaaaaaaaaa\
    aaaaaaaaaaaaaaaaaaaaaaaaaaaaaaaaaaaaaaaaaaaaaaaaaaaaaaaaaaaaaaaa\
    aaaaaaaaaaaaaaaaaaaaaaaaaaaaaaaaaaaaaaaaaaaaaaaaaaaaaaaaaaaaaaaa\
    aaaaaaaaaaaaaaaaaaaaaaaaaaaaaaaaaaaaaaaaaaaaaaaaaaaaaaaaaaaaaaaa\
    aaaaaaaaaaaaaaaaaaaaaaaaaaaaaaaaaaaaaaaaaaaaaaaaaaaaaaaaaaaaaaaa";

/// The event of an app, and one of which 488 bytes are left out.
pub(crate) const EVENT: Option<Excerpt<'static>> = Some(Excerpt {
    text: LONG,
    length: 512,
});

pub(crate) const CUT_EVENT: Option<Excerpt<'static>> = Some(Excerpt {
    text: LONG,
    length: 1000,
});

/// The further members of an app, which take 115 bytes.
pub(crate) const FURTHER_MEMBERS: FurtherMembers<'static> = FurtherMembers {
    ap: Some(Excerpt {
        text: SHORT,
        length: 40,
    }),
    lang: Some(Excerpt {
        text: "de\u{9b}",
        length: 4,
    }),
    installdate: Some(0),
    ignored: Some("brand cohort"),
    ..NO_MORE
};

/// These members in a line.
pub(crate) const FURTHER: &str = "\"release\":\"1.1\",\"ap\":\"aaaaaaaaaaaaaaaaaaaaaaaaaaaaaaaa\",\
    \"ap_left_out\":8,\"lang\":\"de\\u009b\",\"installdate\":0,\"ignored\":\"brand cohort\"}";

/// An app of five letters that is offered nothing, and others with a shorter and with longer ids.
pub(crate) const PLAIN: LoggedApp<'static> = LoggedApp {
    appid: Excerpt {
        text: "aaaaa",
        length: 5,
    },
    outcome: Outcome::NoUpdate,
    ..NOTES
};

pub(crate) const NO_APPID: LoggedApp<'static> = LoggedApp {
    appid: Excerpt {
        text: "",
        length: 0,
    },
    ..PLAIN
};

pub(crate) const APPID_64: LoggedApp<'static> = LoggedApp {
    appid: Excerpt {
        text: WIDE,
        length: 64,
    },
    ..PLAIN
};

pub(crate) const APPID_65: LoggedApp<'static> = LoggedApp {
    appid: Excerpt {
        text: WIDE,
        length: 65,
    },
    ..PLAIN
};

pub(crate) const APPID_3300: LoggedApp<'static> = LoggedApp {
    appid: Excerpt {
        text: WIDE,
        length: 3300,
    },
    ..PLAIN
};

/// An app with all texts cut.
pub(crate) const CUT_TEXTS: LoggedApp<'static> = LoggedApp {
    appid: Excerpt {
        text: WIDE,
        length: 1000,
    },
    version: Some(Excerpt {
        text: WIDE,
        length: 1000,
    }),
    event: CUT_EVENT,
    outcome: Outcome::Offered(64, "4294967295.4294967295.4294967295.4294967295"),
    ..PLAIN
};

/// An app with an event, and ones with further members.
pub(crate) const WITH_EVENT: LoggedApp<'static> = LoggedApp {
    event: EVENT,
    ..PLAIN
};

pub(crate) const WITH_MORE: LoggedApp<'static> = LoggedApp {
    outcome: Outcome::Offered(2, "1.1"),
    more: FURTHER_MEMBERS,
    ..PLAIN
};

pub(crate) const WITH_BOTH: LoggedApp<'static> = LoggedApp {
    event: EVENT,
    ..WITH_MORE
};
