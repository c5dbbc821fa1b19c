//! Each kind of event, and its line.

use crate::given::{ANSWERED, NOTES, is_line};
use crate::samples::{CUT, CUT_APPS, DROPPED, HALT, LOAD, START, STRANGE};
use access_log::{Connection, Counter, Halt, Load, LogEvent, Start, Totals};
use std::test::Fail;

/// An event, and what its line has from its kind on. Line feeds here don't count.
const EVENTS: &[(LogEvent<'static>, &str)] = &[
    (
        LogEvent::Start(START),
        r#""start","path":"m.toml","operator":8081}"#,
    ),
    (
        LogEvent::Start(Start {
            digest: Some("e3b0c44298fc1c14"),
            ..START
        }),
        r#""start","path":"m.toml","operator":8081,"digest":"e3b0c44298fc1c14"}"#,
    ),
    (
        LogEvent::Start(Start {
            counters: Some("crashed"),
            ..START
        }),
        r#""start","path":"m.toml","operator":8081,"counters":"crashed"}"#,
    ),
    (
        LogEvent::Start(Start {
            manifest: CUT,
            ..START
        }),
        r#""start","path":"a\tb","path_left_out":9,"operator":8081}"#,
    ),
    (
        LogEvent::Start(Start {
            refusal: Some("B6 Bind"),
            ..START
        }),
        r#""start","path":"m.toml","operator":8081,"refusal":"B6 Bind"}"#,
    ),
    (
        LogEvent::Start(Start {
            refusal: Some("M2 Field"),
            cause: Some(CUT),
            ..START
        }),
        r#""start","path":"m.toml","operator":8081,"refusal":"M2 Field",
"cause":"a\tb","cause_left_out":9}"#,
    ),
    (LogEvent::Serving(1), r#""serving","generation":1}"#),
    (
        LogEvent::Load(Load {
            generation: 2,
            ..LOAD
        }),
        r#""load","path":"m.toml","generation":2}"#,
    ),
    (
        LogEvent::Load(Load {
            generation: 2,
            digest: Some("e3b0c44298fc1c14"),
            ..LOAD
        }),
        r#""load","path":"m.toml","generation":2,"digest":"e3b0c44298fc1c14"}"#,
    ),
    (
        LogEvent::Load(Load {
            path: CUT,
            refusal: Some("M2 Field"),
            ..LOAD
        }),
        r#""load","path":"a\tb","path_left_out":9,"refusal":"M2 Field"}"#,
    ),
    (
        LogEvent::Load(Load {
            refusal: Some("M7 Cells N2 Redefined in array 1"),
            cause: Some(CUT),
            ..LOAD
        }),
        r#""load","path":"m.toml","refusal":"M7 Cells N2 Redefined in array 1",
"cause":"a\tb","cause_left_out":9}"#,
    ),
    (
        LogEvent::Load(Load {
            generation: 3,
            digest: Some("e3b0c44298fc1c14"),
            halted: 2,
            ..LOAD
        }),
        r#""load","path":"m.toml","generation":3,"digest":"e3b0c44298fc1c14","halted":2}"#,
    ),
    (
        LogEvent::Halt(Halt {
            generation: 4,
            ..HALT
        }),
        r#""halt","app":"editor","word":"halt","generation":4}"#,
    ),
    (
        LogEvent::Halt(Halt {
            is_resume: true,
            generation: 5,
            ..HALT
        }),
        r#""halt","app":"editor","word":"resume","generation":5}"#,
    ),
    (
        LogEvent::Halt(Halt {
            app: CUT,
            refusal: Some("B8 App"),
            ..HALT
        }),
        r#""halt","app":"a\tb","app_left_out":9,"word":"halt","refusal":"B8 App"}"#,
    ),
    (
        LogEvent::Unaccepted("Too many open files (os error 24)"),
        r#""unaccepted","reason":"Too many open files (os error 24)"}"#,
    ),
    (
        LogEvent::Lost(18446744073709551615),
        r#""lost","lines":18446744073709551615}"#,
    ),
    (
        LogEvent::Totals(Totals {
            success: 1,
            bad_request: 2,
            not_found: 3,
            method_not_allowed: 4,
            length_required: 5,
            content_too_large: 6,
            header_fields_too_large: 7,
            internal_server_error: 8,
            service_unavailable: 0,
            dropped: 9,
            longest_wait: 18446744073709551615,
            busy: 64,
        }),
        r#""totals","status_200":1,"status_400":2,"status_404":3,"status_405":4,"status_411":5,
"status_413":6,"status_431":7,"status_500":8,"dropped":9,
"longest_wait":18446744073709551615,"busy":64}"#,
    ),
    (LogEvent::Counters(None), r#""counters"}"#),
    (
        LogEvent::Counters(Some("K4 Store")),
        r#""counters","refusal":"K4 Store"}"#,
    ),
    (LogEvent::Stop(None), r#""stop"}"#),
    (
        LogEvent::Stop(Some("H2 NoPlace")),
        r#""stop","refusal":"H2 NoPlace"}"#,
    ),
    (
        LogEvent::Counter(Counter {
            array: "canary",
            index: 3,
            value: 18446744073709551615,
        }),
        r#""counter","array":"canary","index":3,"value":18446744073709551615}"#,
    ),
    (
        LogEvent::Connection(Connection {
            peer: "[2001:db8::1]:443",
            status: 411,
            refusal: Some("P4 Length"),
            cause: None,
            bytes: 111,
            micros: 9,
            ..DROPPED
        }),
        r#""connection","peer":"[2001:db8::1]:443","status":411,"refusal":"P4 Length",
"bytes":111,"micros":9,"waited":0}"#,
    ),
    (
        LogEvent::Connection(DROPPED),
        r#""connection","peer":"[fe80::1%2]:80","refusal":"P8 Device","cause":"time-out",
"bytes":0,"micros":0,"waited":0}"#,
    ),
    (
        LogEvent::Connection(Connection {
            lacks_id: true,
            cause: Some("device"),
            bytes: 7,
            ..DROPPED
        }),
        r#""connection","peer":"[fe80::1%2]:80","id":false,"refusal":"P8 Device",
"cause":"device","bytes":7,"micros":0,"waited":0}"#,
    ),
    (
        LogEvent::Connection(Connection {
            request_id: Some("{D505492F-95FE\""),
            ..ANSWERED
        }),
        r#""connection","peer":"127.0.0.1:41248","forwarded":"203.0.113.7",
"request_id":"{D505492F-95FE\"","status":200,
"generation":5,"bytes":566,"micros":68,"waited":7}"#,
    ),
    (
        LogEvent::Connection(Connection {
            apps: &[NOTES],
            ..ANSWERED
        }),
        r#""connection","peer":"127.0.0.1:41248","forwarded":"203.0.113.7","status":200,
"generation":5,"bytes":566,"micros":68,"waited":7,
"apps":[{"appid":"notes","version":"1.0","bucket":9999,
"named":true,"choice":2,"release":"1.1"}]}"#,
    ),
    (
        LogEvent::Connection(Connection {
            apps: STRANGE,
            ..ANSWERED
        }),
        r#""connection","peer":"127.0.0.1:41248","forwarded":"203.0.113.7","status":200,
"generation":5,"bytes":566,"micros":68,"waited":7,
"apps":[{"appid":"q\"\\é","bucket":7,"named":false,"unknown":true,
"event":"[{\"a\":\"\\n\"}]"},{"appid":"editor","version":"","bucket":7,"named":false},
{"appid":"\u0001\n/","bucket":7,"named":false,"choice":0,"event":"\t{}",
"event_left_out":12}]}"#,
    ),
    (
        LogEvent::Connection(Connection {
            apps: CUT_APPS,
            ..ANSWERED
        }),
        r#""connection","peer":"127.0.0.1:41248","forwarded":"203.0.113.7","status":200,
"generation":5,"bytes":566,"micros":68,"waited":7,
"apps":[{"appid":"\u009b31m","appid_left_out":3300,"version":"\u202e1","bucket":7,
"named":false,"unknown":true},{"appid":"\u2028","version":"1\u007f",
"version_left_out":1,"bucket":7,"named":false,"choice":64,"release":"2.0"}]}"#,
    ),
];

#[test]
fn each_event_has_its_line(rt: HostRuntime) -> Result<(), Fail> {
    for (event, lines) in EVENTS {
        let wanted = lines.replace(rt.alloc(), "\n", "")?;
        assert!(rt; is_line(rt.alloc(), event, &wanted)?, "{wanted}");
    }
    Ok(())
}
