//! The rows of a report's screen: a number and what it counts. No clause says how they look; rows
//! of `crates/rows` compare them.

use crate::labels::{first, rest};
use crate::tally::Tally;
use printing::TextBuffer;
use std::alloc::{AllocError, Global};
use std::collections::BTreeMap;

/// Appends a row to a text.
pub(crate) fn push_row(text: &mut TextBuffer, n: u64, name: &str) {
    text.push_number("", n, "\t");
    text.push_all(&[name, "\n"]);
}

/// Appends the title of a group of rows, and the heads of its columns if they are requested.
pub(crate) fn push_title(text: &mut TextBuffer, heads: bool, title: &str, columns: &[&str]) {
    text.push_all(&[title, "\n"]);
    if heads {
        text.push("number");
        for column in columns {
            text.push_all(&["\t", *column]);
        }
        text.push("\n");
    }
}

/// Appends the rows of a table.
pub(crate) fn push_rows(text: &mut TextBuffer, rows: &BTreeMap<String, u64>) {
    for (name, n) in rows.iter() {
        push_row(text, *n, name.as_str());
    }
}

/// Appends the row of the names without one, if there are any. Because of its second tab no app
/// called `others` has the same row.
pub(crate) fn push_others(text: &mut TextBuffer, others: u64) {
    if others != 0 {
        push_row(text, others, "\tothers");
    }
}

// ---- buckets

/// Appends a row for each app with update checks: the number of its buckets with rows.
pub(crate) fn push_bucket_rows(
    alloc: Global,
    text: &mut TextBuffer,
    buckets: &BTreeMap<String, u64>,
    update_checks: Option<&Tally>,
) {
    let Some(update_checks) = update_checks else {
        return;
    };
    match buckets_by_app(alloc, buckets) {
        Ok(counts) => push_counts(text, &counts, &update_checks.rows),
        Err(_) => text.leave_out(),
    }
}

// The number of each app's buckets with rows.
fn buckets_by_app(alloc: Global, buckets: &BTreeMap<String, u64>) -> Result<Tally, AllocError> {
    let mut counts = Tally::new(alloc, 0);
    for (name, _) in buckets.iter() {
        let app = first(name.as_str());
        let count = counts.count_of(app).unwrap_or(0);
        counts.set(String::from_str(alloc, app)?, count.saturating_add(1))?;
    }
    Ok(counts)
}

fn push_counts(text: &mut TextBuffer, counts: &Tally, apps: &BTreeMap<String, u64>) {
    for (app, _) in apps.iter() {
        let count = counts.count_of(app.as_str()).unwrap_or(0);
        push_row(text, count, app.as_str());
    }
}

// ---- results of installs

/// Appends each result with its share in the installs that ended.
pub(crate) fn push_result_rows(
    text: &mut TextBuffer,
    ended: Option<&Tally>,
    results: &BTreeMap<String, u64>,
) {
    let Some(ended) = ended else {
        return;
    };
    for (name, n) in results.iter() {
        text.push_number("", *n, "\t");
        push_share(text, *n, ended.count_of(rest(name.as_str())));
        text.push_all(&["\t", name.as_str(), "\n"]);
    }
}

// The percentage of n in the whole, such as `95.22 %`, or a question mark if the whole is unknown.
fn push_share(text: &mut TextBuffer, n: u64, whole: Option<u64>) {
    match whole {
        Some(whole) if whole != 0 => push_percent(text, n as u128 * 10000 / whole as u128),
        _ => text.push("?"),
    }
}

fn push_percent(text: &mut TextBuffer, hundredths: u128) {
    let whole = hundredths / 100;
    let tenth = hundredths / 10 % 10;
    let hundredth = hundredths % 10;
    text.push_value(&whole);
    text.push(".");
    text.push_value(&tenth);
    text.push_value(&hundredth);
    text.push(" %");
}
