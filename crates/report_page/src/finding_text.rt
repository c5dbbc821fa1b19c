//! What a finding says, and what to do.

use crate::elements::{put, put_name, put_share, put_time, put_wait};
use crate::findings::{Failing, Finding, UsedUp};
use crate::log_age::NewestEnd;
use crate::offer_section::{put_halt, put_quota};
use crate::source::PageSource;
use markup::{Document, Tag};
use printing::Printed;

/// Adds what is wrong.
pub(crate) fn draw_title(page: &mut Document, finding: Finding<'_>) {
    match finding {
        Finding::Silent(port) => page.text(format_args!("The server at {port} doesn't reply")),
        Finding::Fails(failing) => draw_failing(page, failing),
        Finding::Ended(end) => draw_end(page, end),
        Finding::NoLine => page.text("The log's end has no line of a server"),
        Finding::Errors(n) => {
            page.text(format_args!("Requests with a status of 500 or more: {n}"));
        }
        Finding::Rowless(n) => page.text(format_args!("Counts of versions without a row: {n}")),
        Finding::Lost(n) => page.text(format_args!("Lines of the log that are lost: {n}")),
        Finding::Waited(wait) => put_wait(page, wait),
        Finding::Halted(appid) => {
            put_name(page, appid);
            page.text(" is halted");
        }
        Finding::Unexplained([_]) => page.text("A load that no step explains"),
        Finding::Unexplained(loads) => {
            let n = loads.len();
            page.text(format_args!("Loads that no step explains: {n}"));
        }
        Finding::UsedUp(used) => draw_used_up(page, used),
        Finding::Unread(_) => page.text("The folder isn't read whole"),
        Finding::Unknown(n) => {
            page.text(format_args!("Requests for apps that aren't served: {n}"));
        }
        Finding::Foreign(n) => {
            page.text(format_args!("Lines of the log that aren't the server's: {n}"));
        }
    }
}

fn draw_failing(page: &mut Document, failing: Failing<'_>) {
    let failures = failing.newest.failures;
    let installs = failing.newest.installs;
    put_name(page, failing.appid);
    page.text(" ");
    put_name(page, failing.version);
    page.text(format_args!(" fails: {failures} of the newest {installs} installs, "));
    put_share(page, failures, installs);
}

fn draw_end(page: &mut Document, end: NewestEnd<'_>) {
    let minutes = end.minutes;
    page.text("The log ends at ");
    put_time(page, end.time);
    page.text(format_args!(", {minutes} minutes before this page"));
}

fn draw_used_up(page: &mut Document, used: UsedUp<'_>) {
    put_name(page, used.appid);
    page.text(": the quota ");
    put_quota(page, used.quota);
    page.text(" is used up");
}

/// Adds what follows from it, or what to do.
pub(crate) fn draw_advice(page: &mut Document, source: &PageSource<'_>, finding: Finding<'_>) {
    match finding {
        Finding::Silent(port) => draw_question(page, port),
        Finding::Fails(failing) => draw_halt(page, source, failing.appid),
        Finding::Lost(n) => page.text(format_args!(
            "Up to {n} requests are in no number of this page."
        )),
        Finding::Halted(appid) => draw_resume(page, source, appid),
        Finding::Unexplained(loads) => draw_newest(page, source, loads),
        Finding::Unread(sentence) => page.text(Printed(sentence)),
        _ => page.text(consequence(finding)),
    }
}

// What follows from a finding, whatever its numbers.
fn consequence(finding: Finding<'_>) -> &'static str {
    match finding {
        Finding::Ended(_) => "A server writes a line each minute.",
        Finding::NoLine => "A server writes a line each minute, unless the log is new.",
        Finding::Errors(_) => "The table of requests below has their reasons.",
        Finding::Rowless(_) => "Only the first 256 have one: another may fail unseen.",
        Finding::Waited(_) => "There are too few workers (--workers), or clients send slowly.",
        Finding::UsedUp(_) => "Later machines get what the rule says next.",
        Finding::Unknown(_) => "The whole report below names them.",
        Finding::Foreign(_) => "They are in no number of this page.",
        _ => "",
    }
}

// The command that prints what a server serves.
fn draw_question(page: &mut Document, port: u16) {
    page.text("To ask it again, as root: ");
    put(
        page,
        Tag::Code,
        format_args!("rollout state --operator {port}"),
    );
}

// How an app is halted, unless the server does that already.
fn draw_halt(page: &mut Document, source: &PageSource<'_>, appid: &str) {
    if source.is_halted(appid) {
        put_halt(page, source);
        return;
    }
    page.text("To offer it no longer, on the server's host: ");
    put_command(page, source, "rollout stage halt", appid);
}

// How a halt ends: by `stage`, or at the server only, if nothing but `halt` was called there.
fn draw_resume(page: &mut Document, source: &PageSource<'_>, appid: &str) {
    page.text("To offer it again: ");
    put_command(page, source, "rollout stage resume", appid);
    page.text(", or ");
    put_command(page, source, "rollout resume", appid);
    page.text(" after ");
    put(page, Tag::Code, "rollout halt");
    page.text(" alone.");
}

// The newest of these loads, and the command that compares what is served.
fn draw_newest(page: &mut Document, source: &PageSource<'_>, loads: &[&str]) {
    if let [.., newest] = loads {
        let mut texts = newest.split('\t');
        page.text("The newest was at ");
        put_time(page, texts.next().unwrap_or(""));
        page.text(", generation ");
        page.text(texts.next().unwrap_or(""));
        page.text(". To compare: ");
    }
    page.open(Tag::Code);
    page.text("rollout stage status");
    put_port(page, source);
    page.close();
}

// A command on an app, at the server's port if it is given.
fn put_command(page: &mut Document, source: &PageSource<'_>, command: &str, appid: &str) {
    let name = if is_plain(appid) { appid } else { "APPID" };
    page.open(Tag::Code);
    page.text(format_args!("{command} {name}"));
    put_port(page, source);
    page.close();
}

// The option for a server's port, if that is given.
fn put_port(page: &mut Document, source: &PageSource<'_>) {
    if let Some(server) = source.facts.server {
        let port = server.port;
        page.text(format_args!(" --operator {port}"));
    }
}

// Whether a shell takes the text as one word: letters, digits, dots, hyphens and underscores, and
// no hyphen first.
fn is_plain(text: &str) -> bool {
    for byte in text.as_bytes() {
        let plain = byte.is_ascii_alphanumeric() || *byte == b'.' || *byte == b'-' || *byte == b'_';
        if !plain {
            return false;
        }
    }
    !text.is_empty() && !text.starts_with('-')
}
