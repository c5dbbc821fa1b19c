//! Whether a value of JSON is these counts.

ghost use Rattle.std.specs.Prelude.{◌≡◌, IsSomeAnd, true, unwrap_or};
ghost use Rattle.json.specs.Value.{items_view, value_view};
ghost use Rattle.report.specs.Borrowed.{data_of, items_data};
ghost use Rattle.report.specs.LogEvents.{number_in};
ghost use Rattle.report_state.specs.States as specs;

use json::Value;
use report::{
    LineQuestion, QUESTIONS, Question, Report, Tally, flag_at, list_at, member_at, number_at,
    text_at,
};
use std::collections::BTreeMap;

/// Whether the member of this name is the number.
pub(crate) fn is_number(value: &Value<'_>, name: &str, number: u64) -> bool
    ensures { result ≡ true → specs.HasNumber (data_of (value_view value.now)) name.now number }
{
    match number_at(value, name) {
        Some(found) => found == number,
        None => false,
    }
}

fn is_row(value: &Value<'_>, name: &str, count: u64) -> bool
    ensures { result ≡ true → specs.IsRow (data_of (value_view value.now)) name.now count }
{
    match text_at(value, "name") {
        Some(found) => is_number(value, "count", count) && found == name,
        None => false,
    }
}

fn are_rows(values: &[Value<'_>], rows: &BTreeMap<String, u64>) -> bool
    ensures { result ≡ true
        → specs.AreRows (items_data (items_view values.now)) rows.now.entries }
{
    let mut left = values;
    for (name, count) in rows.iter() {
        let [value, rest @ ..] = left else {
            return false;
        };
        if !is_row(value, name.as_str(), *count) {
            return false;
        }
        left = rest;
    }
    left.is_empty()
}

/// Whether a value has the members of a table.
pub(crate) fn is_table(value: &Value<'_>, tally: &Tally) -> bool
    ensures { result ≡ true → specs.IsTable tally.now (data_of (value_view value.now)) }
{
    match list_at(value, "rows") {
        Some(rows) => {
            is_number(value, "limit", tally.limit() as u64)
                && is_number(value, "others", tally.others())
                && are_rows(rows, tally.rows())
        }
        None => false,
    }
}

// Whether nothing is counted.
fn is_unused(tally: &Tally) -> bool
    ensures { result ≡ true → specs.IsUnused tally.now }
{
    tally.limit() == 256 && tally.others() == 0 && are_rows(&[], tally.rows())
}

// Whether a state of an earlier version lacks the table.
fn may_lack(question: Question) -> bool
    ensures { result ≡ specs.may_lack question }
{
    match question {
        Question::Responses | Question::Line(LineQuestion::LoadDigest) => true,
        _ => false,
    }
}

fn has_table(value: &Value<'_>, question: Question, tally: &Tally) -> bool
    ensures { result ≡ true → specs.HasTable (data_of (value_view value.now)) question tally.now }
{
    match member_at(value, question.member()) {
        Some(table) => is_table(table, tally),
        None => may_lack(question) && is_unused(tally),
    }
}

// Whether the member of this name is the number, or both are missing.
fn is_number_or_none(value: &Value<'_>, name: &str, number: u64) -> bool
    ensures { result ≡ true
        → unwrap_or (number_in name.now (data_of (value_view value.now))) 0 ≡ number }
{
    match number_at(value, name) {
        Some(found) => found == number,
        None => number == 0,
    }
}

fn has_numbers(value: &Value<'_>, report: &Report) -> bool
    ensures { result ≡ true → specs.HasNumbers (data_of (value_view value.now)) report.now }
{
    is_number(value, "lines", report.lines)
        && is_number(value, "foreign", report.foreign)
        && is_number(value, "lost", report.lost)
        && is_number(value, "left_out", report.left_out)
        && is_number(value, "offers_left_out", report.offers_left_out)
        && is_number_or_none(value, "longest_wait", report.longest_wait)
}

fn has_tables(value: &Value<'_>, questions: &[Question], tallies: &[Tally]) -> bool
    ensures { result ≡ true
        → specs.HasTables (data_of (value_view value.now)) questions.now tallies.now }
{
    let mut asked = questions;
    let mut left = tallies;
    while let [question, more @ ..] = asked {
        let [tally, rest @ ..] = left else {
            return false;
        };
        if !has_table(value, *question, tally) {
            return false;
        }
        asked = more;
        left = rest;
    }
    left.is_empty()
}

fn is_drawn(value: &Value<'_>, drawn: bool) -> bool
    ensures { result ≡ true → specs.IsDrawn (data_of (value_view value.now)) drawn }
{
    match flag_at(value, "drawn") {
        Some(found) => found == drawn,
        None => false,
    }
}

fn is_report(value: &Value<'_>, report: &Report) -> bool
    ensures { result ≡ true → specs.IsReport report.now (data_of (value_view value.now)) }
{
    has_numbers(value, report)
        && is_drawn(value, report.drawn)
        && has_tables(value, &QUESTIONS, report.tallies.as_slice())
}

/// Whether a state's member `counts` is these counts.
pub(crate) fn has_counts(state: &Value<'_>, report: &Report) -> bool
    ensures { result ≡ true → specs.HasCounts report.now (data_of (value_view state.now)) }
{
    match member_at(state, "counts") {
        Some(counts) => is_report(counts, report),
        None => false,
    }
}
