//! The names that events count under, by question.

ghost use Rattle.std.specs.Prelude.{◌≡◌, IfOk};
ghost use Rattle.std.specs.String.{string_bytes};
ghost use Rattle.json.specs.Value.{value_view};
ghost use Rattle.report.specs.Borrowed.{data_of};
ghost use Rattle.report.specs.Events as specs;

use crate::line_members::{number_at, text_at};
use crate::log_events::is_number;
use crate::log_line::LogApp;
use crate::name_text::{course_name, decimal, text_or_mark, three, two};
use crate::question::EventQuestion;
use json::Value;
use std::alloc::{AllocError, Global};

/// The name of an event that the question is about.
pub(crate) fn event_name_of(
    alloc: Global,
    question: EventQuestion,
    app: &LogApp<'_>,
    appid: &str,
    event: &Value<'_>,
) -> Result<String, AllocError>
    ensures { IfOk result (λ name. string_bytes name
        ≡ specs.event_name_of question app.now appid.now (data_of (value_view event.now))) }
{
    match question {
        EventQuestion::Ended => install_name(alloc, app, appid, event),
        EventQuestion::Result => result_name(alloc, app, appid, event),
        EventQuestion::FailedTo => two(alloc, appid, to_version(event)),
        EventQuestion::FailedAt(moment) => {
            course_name(alloc, "failures", appid, to_version(event), moment)
        }
        EventQuestion::EndedAt(moment) => {
            course_name(alloc, "installs", appid, to_version(event), moment)
        }
    }
}

/// Whether the question is about this event.
pub(crate) fn is_about(question: EventQuestion, event: &Value<'_>) -> bool
    ensures { result ≡ specs.is_about question (data_of (value_view event.now)) }
{
    match question {
        EventQuestion::Ended | EventQuestion::Result | EventQuestion::EndedAt(_) => {
            is_install(event)
        }
        EventQuestion::FailedTo | EventQuestion::FailedAt(_) => is_failure(event),
    }
}

fn is_failure(event: &Value<'_>) -> bool
    ensures { result ≡ specs.is_failure (data_of (value_view event.now)) }
{
    is_install(event) && is_number(0, number_at(event, "eventresult"))
}

fn is_install(event: &Value<'_>) -> bool
    ensures { result ≡ specs.is_install (data_of (value_view event.now)) }
{
    is_number(2, number_at(event, "eventtype")) || is_number(3, number_at(event, "eventtype"))
}

// From the event's previous version, or else the app's version, to the event's next version.
fn install_name(
    alloc: Global,
    app: &LogApp<'_>,
    appid: &str,
    event: &Value<'_>,
) -> Result<String, AllocError>
    ensures { IfOk result (λ name. string_bytes name
        ≡ specs.install_name app.now appid.now (data_of (value_view event.now))) }
{
    let next = to_version(event);
    match text_at(event, "previousversion") {
        Some(previous) => three(alloc, appid, previous, next),
        None => three(alloc, appid, text_or_mark(app.version), next),
    }
}

fn to_version<'a>(event: &Value<'a>) -> &'a str
    ensures { result.now ≡ specs.to_version (data_of (value_view event.now)) }
{
    text_or_mark(text_at(event, "nextversion"))
}

fn result_name(
    alloc: Global,
    app: &LogApp<'_>,
    appid: &str,
    event: &Value<'_>,
) -> Result<String, AllocError>
    ensures { IfOk result (λ name. string_bytes name
        ≡ specs.result_name app.now appid.now (data_of (value_view event.now))) }
{
    let text = result_text(alloc, number_at(event, "eventresult"))?;
    let install = install_name(alloc, app, appid, event)?;
    format!(in alloc; "{text}\t{install}")
}

fn result_text(alloc: Global, found: Option<u64>) -> Result<String, AllocError>
    ensures { IfOk result (λ s. string_bytes s ≡ specs.result_text found) }
{
    match found {
        Some(n) => decimal(alloc, n),
        None => String::from_str(alloc, "?"),
    }
}
