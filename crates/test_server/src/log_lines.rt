//! A log's lines of clients: for each the clock of the server, and what the client sends.

/// A stopped clock, and what the log has by it: the start of its lines, the line of the ready
/// server, and the line of a connection that couldn't be accepted. A nonblocking port without
/// waiting connections causes the last one.
pub(crate) struct Timed {
    /// The number of seconds after 1970 began.
    pub(crate) seconds: u64,
    pub(crate) is_readable: bool,
    pub(crate) start: &'static str,
    pub(crate) serving: &'static str,
    pub(crate) unaccepted: &'static str,
}

/// 2026-03-02 01:00:00 UTC, which is day 7000 and second 3600 of Omaha's count.
const STOPPED: Timed = Timed {
    seconds: 1772413200,
    is_readable: true,
    start: "{\"time\":\"2026-03-02T01:00:00.000Z\",\"port\":8080,\"kind\":",
    serving: "{\"time\":\"2026-03-02T01:00:00.000Z\",\"port\":8080,\"kind\":\"serving\",\
        \"generation\":1}\n",
    unaccepted: "{\"time\":\"2026-03-02T01:00:00.000Z\",\"port\":8080,\"kind\":\"unaccepted\",\
        \"reason\":\"Resource temporarily unavailable (os error 11)\"}\n",
};

const UNREADABLE: Timed = Timed {
    seconds: 0,
    is_readable: false,
    start: "{\"time\":\"1970-01-01T00:00:00.000Z\",\"port\":8080,\"kind\":",
    serving: "{\"time\":\"1970-01-01T00:00:00.000Z\",\"port\":8080,\"kind\":\"serving\",\
        \"generation\":1}\n",
    unaccepted: "{\"time\":\"1970-01-01T00:00:00.000Z\",\"port\":8080,\"kind\":\"unaccepted\",\
        \"reason\":\"Resource temporarily unavailable (os error 11)\"}\n",
};

/// A clock, a client's request after its first line, and what its line in the log has before
/// `bytes` and after `waited`.
pub(crate) struct Line {
    pub(crate) timed: Timed,
    pub(crate) request: &'static str,
    pub(crate) outcome: &'static str,
    pub(crate) apps: &'static str,
}

/// The last client gets no reply, since the clock can't be read.
pub(crate) const LINES: &[Line] = &[
    Line {
        timed: STOPPED,
        request: "Content-Length: 69\r\n\r\n\
            {\"request\":{\"protocol\":\"3.1\",\"app\":[{\"appid\":\"x\",\"updatecheck\":{}}]}}",
        outcome: r#""id":false,"status":200,"generation":1,"#,
        apps: r#","apps":[{"appid":"x","bucket":6037,"named":false,"choice":0}]"#,
    },
    Line {
        timed: STOPPED,
        request: "Content-Length: 69\r\nX-Forwarded-For: ::1\r\n\r\n\
            {\"request\":{\"protocol\":\"3.1\",\"app\":[{\"appid\":\"y\",\"event\":[{ }]   }]}}",
        outcome: r#""forwarded":"::1","id":false,"status":200,"generation":1,"#,
        apps: ",\"apps\":[{\"appid\":\"y\",\"bucket\":6037,\"named\":false,\
            \"unknown\":true,\"event\":\"[{}]\"}]",
    },
    Line {
        timed: STOPPED,
        request: "Content-Length: 92\r\n\r\n\
            {\"request\":{\"protocol\":\"3.1\",\"os\":{\"platform\":\"w\"},\
            \"app\":[{\"appid\":\"x\",\"ap\":\"a\",\"lang\":5}]}}",
        outcome: r#""id":false,"status":200,"generation":1,"#,
        apps: ",\"apps\":[{\"appid\":\"x\",\"bucket\":6037,\"named\":false,\
            \"ap\":\"a\",\"platform\":\"w\",\"ignored\":\"lang\"}]",
    },
    Line {
        timed: STOPPED,
        request: "Content-Length: 97\r\n\r\n\
            {\"request\":{\"protocol\":\"3.1\",\"requestid\":\"\",\
            \"app\":[{\"appid\":\"x\",\"cohort\":[],\"installdate\":\"7\"}]}}",
        outcome: r#""id":false,"status":200,"generation":1,"#,
        apps: ",\"apps\":[{\"appid\":\"x\",\"bucket\":6037,\"named\":false,\
            \"ignored\":\"cohort installdate\"}]",
    },
    Line {
        timed: STOPPED,
        request: "Content-Length: 123\r\n\r\n\
            {\"request\":{\"protocol\":\"3.1\",\
            \"requestid\":\"{D505492F-95FE-4F74-8253-AA75ED1E4A5A}\",\
            \"app\":[{\"appid\":\"x\",\"cohort\":\"b:0007\"}]}}",
        outcome: r#""request_id":"{D505492F-95FE-4","status":200,"generation":1,"#,
        apps: r#","apps":[{"appid":"x","bucket":7,"named":true}]"#,
    },
    Line {
        timed: STOPPED,
        request: "Content-Length: 86\r\n\r\n\
            {\"request\":{\"protocol\":\"3.1\",\"sessionid\":\"s\",\
            \"app\":[{\"appid\":\"x\",\"cohort\":\"b:0008\"}]}}",
        outcome: r#""request_id":"s","status":200,"generation":1,"#,
        apps: r#","apps":[{"appid":"x","bucket":8,"named":true}]"#,
    },
    Line {
        timed: STOPPED,
        request: "Content-Length: 2\r\nX-Forwarded-For: ::1, ::2\r\n\r\n[]",
        outcome: r#""status":400,"refusal":"O2 Shape","#,
        apps: "",
    },
    Line {
        timed: STOPPED,
        request: "Host: h\r\nX-Forwarded-For: unknown\r\n\r\n",
        outcome: r#""status":411,"refusal":"P4 Length","#,
        apps: "",
    },
    Line {
        timed: STOPPED,
        request: "Content-Length: 2\r\n\r\n{",
        outcome: r#""refusal":"P7 Ended","#,
        apps: "",
    },
    Line {
        timed: UNREADABLE,
        request: "Content-Length: 69\r\n\r\n\
            {\"request\":{\"protocol\":\"3.1\",\"app\":[{\"appid\":\"x\",\"updatecheck\":{}}]}}",
        outcome: r#""refusal":"P8 Device","cause":"clock","#,
        apps: "",
    },
];
