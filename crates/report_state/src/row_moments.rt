//! The minutes or hours of rows, and from which on they are kept.

ghost use Rattle.std.specs.Prelude.{◌≡◌};
ghost use Rattle.report.specs.Exposition.{rest};
ghost use Rattle.report_state.specs.Courses as specs;

use crate::course::MOST_ROWS;
use lexing::decimal_within;
use report::Tally;
use std::collections::BTreeMap;

/// The last minute of the year 9999, counted from 1970; all times of a server's log are before its
/// end.
const LAST_MINUTE: u64 = 4223371679;

/// How many minutes or hours are kept. It is the maximum number of a chart's bins; if the newest
/// ones have too many rows, fewer are kept.
const SPANS: [u64; 8] = [200, 100, 50, 25, 12, 6, 3, 1];

/// Whether the minute or hour of a name is this one or later.
pub(crate) fn is_since(from: u64, name: &str) -> bool
    ensures { result ≡ specs.is_since from (specs.moment_of name.now) }
{
    match moment_of(name) {
        Some(moment) => from <= moment,
        None => false,
    }
}

/// The minute or hour of a name.
pub(crate) fn moment_of(name: &str) -> Option<u64>
    ensures { result ≡ specs.moment_of name.now }
{
    decimal_within(rest(rest(rest(name))), 0, LAST_MINUTE)
}

/// The first text of a name.
pub(crate) fn first<'a>(name: &'a str) -> &'a str {
    match name.split_once('\t') {
        Some((text, _)) => text,
        None => name,
    }
}

/// The texts of a name after the first.
pub(crate) fn rest<'a>(name: &'a str) -> &'a str
    ensures { result.now ≡ rest name.now }
{
    match name.split_once('\t') {
        Some((_, others)) => others,
        None => "",
    }
}

/// The first minute or hour to be kept: of the newest up to the present one, as many as have few
/// enough rows.
pub(crate) fn first_moment(
    rows: &BTreeMap<String, u64>,
    part: Option<&Tally>,
    present: u64,
) -> u64 {
    let mut newest = newest_in(rows, present);
    if let Some(part) = part {
        newest = newest.max(newest_in(part.rows(), present));
    }
    let end = newest.saturating_add(1);
    for span in SPANS {
        let first = end.saturating_sub(span);
        if count_since(first, rows, part) <= MOST_ROWS {
            return first;
        }
    }
    end
}

/// The newest minute or hour of rows up to the present one; 0 without rows.
pub(crate) fn newest_in(rows: &BTreeMap<String, u64>, present: u64) -> u64 {
    let mut newest = 0;
    for (name, _count) in rows.iter() {
        if let Some(moment) = moment_of(name.as_str()) {
            if moment > newest && moment <= present {
                newest = moment;
            }
        }
    }
    newest
}

// How many rows of both there are from a moment on.
fn count_since(first: u64, rows: &BTreeMap<String, u64>, part: Option<&Tally>) -> usize {
    let count = rows_since(first, rows);
    match part {
        Some(part) => count.saturating_add(rows_since(first, part.rows())),
        None => count,
    }
}

fn rows_since(first: u64, rows: &BTreeMap<String, u64>) -> usize {
    let mut count: usize = 0;
    for (name, _count) in rows.iter() {
        if is_since(first, name.as_str()) {
            count = count.saturating_add(1);
        }
    }
    count
}
