//! The names that a line's apps count under, by question.

ghost use Rattle.std.specs.Prelude.{◌≡◌, IfOk};
ghost use Rattle.std.specs.String.{string_bytes};
ghost use Rattle.report.specs.Names as specs;

use crate::log_events::is_number;
use crate::log_line::{LogApp, LogLine};
use crate::name_text::{course_name, decimal, one, text_or_mark, three, two};
use crate::question::AppQuestion;
use std::alloc::{AllocError, Global};

/// Whether the question is about this app of the line.
pub(crate) fn is_about_app(question: AppQuestion, line: &LogLine<'_>, app: &LogApp<'_>) -> bool
    ensures { result ≡ specs.is_about_app question line.now app.now }
{
    match question {
        AppQuestion::UpdateCheck => has_update_check(line, app),
        AppQuestion::Offered => has_offer(line, app),
        AppQuestion::Unoffered => has_no_update(line, app),
        AppQuestion::Hour => has_update_check(line, app),
        AppQuestion::Bucket => has_bucket(line, app),
        AppQuestion::Unknown => is_unknown(app),
        AppQuestion::WithoutCohort => is_unnamed(app),
        AppQuestion::WithoutId => has_no_id(line, app),
        AppQuestion::CutEvent => app.event_left_out.is_some(),
        AppQuestion::UpdateCheckBy => has_update_check(line, app),
        AppQuestion::UpdateCheckAt(_) => has_update_check(line, app),
        AppQuestion::OfferedAt(_) => has_offer(line, app),
    }
}

/// The name of an app that the question is about.
pub(crate) fn app_name_of(
    alloc: Global,
    question: AppQuestion,
    line: &LogLine<'_>,
    app: &LogApp<'_>,
    appid: &str,
) -> Result<String, AllocError>
    ensures { IfOk result (λ name. string_bytes name
        ≡ specs.app_name_of question line.now app.now appid.now) }
{
    match question {
        AppQuestion::UpdateCheck => one(alloc, appid),
        AppQuestion::Offered => two(alloc, appid, release_or_mark(app)),
        AppQuestion::Unoffered => one(alloc, appid),
        AppQuestion::Hour => three(alloc, appid, hour_of(line), version_or_mark(app)),
        AppQuestion::Bucket => bucket_name(alloc, app, appid),
        AppQuestion::Unknown => one(alloc, appid),
        AppQuestion::WithoutCohort => one(alloc, appid),
        AppQuestion::WithoutId => one(alloc, appid),
        AppQuestion::CutEvent => one(alloc, appid),
        AppQuestion::UpdateCheckBy => two(alloc, appid, version_or_mark(app)),
        AppQuestion::UpdateCheckAt(moment) => {
            course_name(alloc, "asks", appid, version_or_mark(app), moment)
        }
        AppQuestion::OfferedAt(moment) => {
            course_name(alloc, "offers", appid, release_or_mark(app), moment)
        }
    }
}

// ---- the members of an app

// Whether the whole reply was sent, with status 200.
fn is_answered(line: &LogLine<'_>) -> bool
    ensures { result ≡ specs.is_answered line.now }
{
    is_number(200, line.status)
}

fn has_update_check(line: &LogLine<'_>, app: &LogApp<'_>) -> bool
    ensures { result ≡ specs.has_update_check line.now app.now }
{
    is_answered(line) && app.choice.is_some()
}

fn has_no_update(line: &LogLine<'_>, app: &LogApp<'_>) -> bool
    ensures { result ≡ specs.has_no_update line.now app.now }
{
    is_answered(line) && is_number(0, app.choice)
}

fn is_unknown(app: &LogApp<'_>) -> bool
    ensures { result ≡ specs.is_unknown app.now }
{
    match app.unknown {
        Some(unknown) => unknown,
        None => false,
    }
}

fn is_unnamed(app: &LogApp<'_>) -> bool
    ensures { result ≡ specs.is_unnamed app.now }
{
    match app.named {
        Some(named) => !named,
        None => false,
    }
}

fn has_no_id(line: &LogLine<'_>, app: &LogApp<'_>) -> bool
    ensures { result ≡ specs.has_no_id line.now app.now }
{
    is_unnamed(app) && is_without_id(line)
}

fn is_without_id(line: &LogLine<'_>) -> bool
    ensures { result ≡ specs.is_without_id line.now }
{
    match line.id {
        Some(id) => !id,
        None => false,
    }
}

// Whether a release was offered, and the whole reply was sent.
fn has_offer(line: &LogLine<'_>, app: &LogApp<'_>) -> bool
    ensures { result ≡ specs.has_offer line.now app.now }
{
    is_answered(line) && app.release.is_some()
}

fn has_bucket(line: &LogLine<'_>, app: &LogApp<'_>) -> bool
    ensures { result ≡ specs.has_bucket line.now app.now }
{
    has_update_check(line, app) && app.bucket.is_some()
}

// ---- names of an app

fn bucket_name(alloc: Global, app: &LogApp<'_>, appid: &str) -> Result<String, AllocError>
    ensures { IfOk result (λ name. string_bytes name
        ≡ specs.bucket_name app.now appid.now) }
{
    let bucket = decimal(alloc, app.bucket.unwrap_or(0))?;
    two(alloc, appid, bucket.as_str())
}

// The hour of a line's time, such as `2026-11-24T12`.
fn hour_of<'a>(line: &LogLine<'a>) -> &'a str
    ensures { result.now ≡ specs.hour_of line.now }
{
    let time = text_or_mark(line.time);
    match time.split_once(':') {
        Some((hour, _)) => hour,
        None => time,
    }
}

fn release_or_mark<'a>(app: &LogApp<'a>) -> &'a str
    ensures { result.now ≡ specs.release_or_mark app.now }
{
    text_or_mark(app.release)
}

// The version in an app's request.
fn version_or_mark<'a>(app: &LogApp<'a>) -> &'a str
    ensures { result.now ≡ specs.version_or_mark app.now }
{
    text_or_mark(app.version)
}
