//! The table of an app's rows. No clause says how it looks; rows compare it.

use crate::shown::{AppRows, ShownRelease, ShownRow};
use attrs::Elapsed;
use moments::CivilDate;
use printing::{push_column, width_of};
use std::alloc::AllocError;
use std::fmt::Write;

/// The widths of the columns.
#[derive(Clone, Copy)]
struct LineWidths {
    title: usize,
    current: usize,
    next: usize,
}

fn version_of(release: &Option<ShownRelease>) -> &str {
    match release {
        Some(release) => release.version.as_str(),
        None => "none",
    }
}

// The first column is as wide as the title, but at least 15; those of versions are as wide as the
// widest, but at least 9.
fn widths_of(title: &str, rows: &[ShownRow]) -> LineWidths {
    let mut current = 9;
    let mut next = 9;
    for row in rows {
        current = current.max(width_of(version_of(&row.current)));
        next = next.max(width_of(version_of(&row.next)));
    }
    LineWidths {
        title: width_of(title).max(15),
        current,
        next,
    }
}

// What `and` joins; everybody is in a row without a condition.
fn push_condition(text: &mut String, row: &ShownRow) -> Result<(), AllocError> {
    if row.tests.is_empty() && row.grants.is_empty() {
        return text.push_str("everybody");
    }
    let mut before = "";
    for test in &row.tests {
        text.push_str(before)?;
        text.push_str(test.as_str())?;
        before = " and ";
    }
    for grant in &row.grants {
        text.push_str(before)?;
        text.push_str(grant.as_str())?;
        before = " and ";
    }
    Ok(())
}

fn push_row(text: &mut String, widths: LineWidths, row: &ShownRow) -> Result<(), AllocError> {
    push_column(text, widths.title, "")?;
    push_column(text, widths.current, version_of(&row.current))?;
    push_column(text, widths.next, version_of(&row.next))?;
    push_column(text, 7, row.kind.mark())?;
    push_condition(text, row)?;
    text.push_str("\n")
}

/// The days from 1970-01-01 to 2007-01-01.
const FIRST_DAY: u64 = 13514;

// The date of a day, which is counted from 2007-01-01, unless it is after the last one.
fn push_day(text: &mut String, day: u32) -> Result<(), AllocError> {
    if day > Elapsed::LAST_DAY {
        return Ok(());
    }
    let date = CivilDate::of_day(FIRST_DAY + day as u64);
    let year = date.year;
    let month = date.month;
    let number = date.day;
    writeln!(text, "  day {day} is {year}-{month:02}-{number:02}")
}

/// Appends the table of an app's rows: a head that begins with this title, the rows, and the dates
/// of their days. Without rows it appends nothing. The title must have no controls.
// open: whether an allocation fails; how the table looks: rows.
pub fn push_rows(text: &mut String, title: &str, rows: &AppRows) -> Result<(), AllocError> {
    if rows.rows.is_empty() {
        return Ok(());
    }
    let widths = widths_of(title, &rows.rows);
    push_column(text, widths.title, title)?;
    push_column(text, widths.current, "now")?;
    text.push_str("next\n")?;
    for row in &rows.rows {
        push_row(text, widths, row)?;
    }
    for day in &rows.days {
        push_day(text, *day)?;
    }
    Ok(())
}
