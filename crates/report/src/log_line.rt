//! What a report reads of a line, and of the apps in it. It is read once, and then each question
//! looks at it.

ghost use Rattle.std.specs.Prelude.{◌≡◌, ◌++◌, IfOk, codes, decimal};
ghost use Rattle.std.specs.String.{string_bytes};
ghost use Rattle.json.specs.Value.{value_view, items_view};
ghost use Rattle.report.specs.Borrowed.{data_of, items_data};
ghost use Rattle.report.specs.Members as specs;
ghost use Rattle.report.specs.Windows.{is_kind};

use crate::line_members::{flag_at, list_at, number_at, text_at};
use crate::log_events::is_text;
use json::Value;
use std::alloc::{AllocError, Global};
use std::marker::Model;

/// The statuses of a server's replies.
const STATUSES: [u64; 9] = [200, 400, 404, 405, 411, 413, 431, 500, 503];

/// The members of an app.
#[derive(Drop)]
pub(crate) struct LogApp<'a> {
    pub(crate) appid: Option<&'a str>,
    pub(crate) version: Option<&'a str>,
    pub(crate) release: Option<&'a str>,
    pub(crate) event: Option<&'a str>,
    pub(crate) choice: Option<u64>,
    pub(crate) bucket: Option<u64>,
    pub(crate) event_left_out: Option<u64>,
    pub(crate) unknown: Option<bool>,
    pub(crate) named: Option<bool>,
}

impl<'a> Model for LogApp<'a> {
    ghost use Rattle.std.specs.Option.{option_copied};
    ghost use Rattle.report.specs.Members.{AppMembers};

    ghost Value = { AppMembers };

    ghost view = { λ a. record {
      appid = option_copied a.appid;
      version = option_copied a.version;
      release = option_copied a.release;
      event = option_copied a.event;
      choice = a.choice;
      bucket = a.bucket;
      event_left_out = a.event_left_out;
      unknown = a.unknown;
      named = a.named;
    } };
}

/// The members of a line, with the apps of a connection.
#[derive(Drop)]
pub(crate) struct LogLine<'a> {
    pub(crate) time: Option<&'a str>,
    pub(crate) kind: Option<&'a str>,
    pub(crate) refusal: Option<&'a str>,
    pub(crate) path: Option<&'a str>,
    pub(crate) digest: Option<&'a str>,
    pub(crate) status: Option<u64>,
    pub(crate) generation: Option<u64>,
    pub(crate) lines: Option<u64>,
    pub(crate) left_out: Option<u64>,
    pub(crate) offers_left_out: Option<u64>,
    pub(crate) id: Option<bool>,
    pub(crate) apps: Vec<LogApp<'a>>,
    /// Of a line of totals: each status with the number of replies of it, the number of
    /// connections that got no whole reply, and the longest wait in microseconds.
    pub(crate) responses: Vec<(u64, u64)>,
    pub(crate) dropped: u64,
    pub(crate) longest_wait: u64,
}

impl<'a> Model for LogLine<'a> {
    ghost use Rattle.std.specs.Option.{option_copied};
    ghost use Rattle.report.specs.Members.{LineMembers};

    ghost Value = { LineMembers };

    ghost view = { λ l. record {
      time = option_copied l.time;
      kind = option_copied l.kind;
      refusal = option_copied l.refusal;
      path = option_copied l.path;
      digest = option_copied l.digest;
      status = l.status;
      generation = l.generation;
      lines = l.lines;
      left_out = l.left_out;
      offers_left_out = l.offers_left_out;
      id = l.id;
      apps = l.apps.items;
      responses = l.responses.items;
      dropped = l.dropped;
      longest_wait = l.longest_wait;
    } };
}

impl<'a> LogApp<'a> {
    fn of(app: &Value<'a>) -> LogApp<'a>
        ensures { result ≡ specs.app_members (data_of (value_view app.now)) }
    {
        LogApp {
            appid: text_at(app, "appid"),
            version: text_at(app, "version"),
            release: text_at(app, "release"),
            event: text_at(app, "event"),
            choice: number_at(app, "choice"),
            bucket: number_at(app, "bucket"),
            event_left_out: number_at(app, "event_left_out"),
            unknown: flag_at(app, "unknown"),
            named: flag_at(app, "named"),
        }
    }
}

// The members of each app.
fn each_app<'a>(alloc: Global, values: &[Value<'a>]) -> Result<Vec<LogApp<'a>>, AllocError>
    ensures { IfOk result
        (λ apps. apps.items ≡ specs.each_app (items_data (items_view values.now))) }
{
    let mut apps = Vec::with_capacity(alloc, values.len())?;
    let mut left = values;
    while let [value, rest @ ..] = left {
        apps.push(LogApp::of(value))?;
        left = rest;
    }
    Ok(apps)
}

// The apps of a line, if it is a connection's.
fn apps_in<'a>(alloc: Global, line: &Value<'a>) -> Result<Vec<LogApp<'a>>, AllocError>
    ensures { IfOk result (λ apps. apps.items ≡ specs.apps_in (data_of (value_view line.now))) }
{
    if !is_text("connection", text_at(line, "kind")) {
        return Ok(Vec::new(alloc));
    }
    match list_at(line, "apps") {
        Some(values) => each_app(alloc, values),
        None => Ok(Vec::new(alloc)),
    }
}

fn is_totals(line: &Value<'_>) -> bool
    ensures { result ≡ specs.is_totals (data_of (value_view line.now)) }
{
    is_text("totals", text_at(line, "kind"))
}

// A number of a line of totals, or 0.
fn totals_number(line: &Value<'_>, name: &str) -> u64
    ensures { result ≡ specs.totals_number name.now (data_of (value_view line.now)) }
{
    if is_totals(line) {
        number_at(line, name).unwrap_or(0)
    } else {
        0
    }
}

fn member_of(alloc: Global, status: u64) -> Result<String, AllocError>
    ensures { IfOk result (λ s. string_bytes s ≡ codes "status_" ++ decimal status) }
{
    format!(in alloc; "status_{status}")
}

// Each status with the number of replies of it.
fn each_status(
    alloc: Global,
    line: &Value<'_>,
    statuses: &[u64],
) -> Result<Vec<(u64, u64)>, AllocError>
    ensures { IfOk result
        (λ found. found.items ≡ specs.each_status (data_of (value_view line.now)) statuses.now) }
{
    let mut found = Vec::with_capacity(alloc, statuses.len())?;
    let mut left = statuses;
    while let [status, rest @ ..] = left {
        let member = member_of(alloc, *status)?;
        let count = totals_number(line, member.as_str());
        found.push((*status, count))?;
        left = rest;
    }
    Ok(found)
}

fn responses_in(alloc: Global, line: &Value<'_>) -> Result<Vec<(u64, u64)>, AllocError>
    ensures { IfOk result
        (λ found. found.items ≡ specs.responses_in (data_of (value_view line.now))) }
{
    if !is_totals(line) {
        return Ok(Vec::new(alloc));
    }
    each_status(alloc, line, &STATUSES)
}

impl<'a> LogLine<'a> {
    /// The members of a line.
    pub(crate) fn of(alloc: Global, line: &Value<'a>) -> Result<LogLine<'a>, AllocError>
        ensures { IfOk result
            (λ members. members ≡ specs.line_members (data_of (value_view line.now))) }
    {
        let responses = responses_in(alloc, line)?;
        let apps = apps_in(alloc, line)?;
        Ok(LogLine {
            time: text_at(line, "time"),
            kind: text_at(line, "kind"),
            refusal: text_at(line, "refusal"),
            path: text_at(line, "path"),
            digest: text_at(line, "digest"),
            status: number_at(line, "status"),
            generation: number_at(line, "generation"),
            lines: number_at(line, "lines"),
            left_out: number_at(line, "left_out"),
            offers_left_out: number_at(line, "offers_left_out"),
            id: flag_at(line, "id"),
            apps,
            responses,
            dropped: totals_number(line, "dropped"),
            longest_wait: totals_number(line, "longest_wait"),
        })
    }

    /// Whether the line is of this kind.
    pub(crate) fn is_kind(&self, kind: &str) -> bool
        ensures { result ≡ is_kind kind.now self.now }
    {
        is_text(kind, self.kind)
    }
}
