//! What went wrong, as a page says it first: in all lines, or in the newest minutes.

ghost use Rattle.std.specs.Prelude.{◌≡◌};

use crate::course::Course;
use crate::row_moments::{first, newest_in};
use report::{AppQuestion, LineQuestion, Question, Report, Tally};
use std::alloc::{AllocError, Global};

/// The first texts of the rows of faults among those by the minute.
const ERRORS: &str = "errors";

const LOST: &str = "lost";

const UNKNOWN: &str = "unknown";

const FOREIGN: &str = "foreign";

/// The first text of the rows of waits, whose numbers are microseconds.
const WAITED: &str = "waited";

/// Numbers of faults.
#[derive(Clone, Copy)]
pub struct Faults {
    /// Requests that were refused with a status from 500 on.
    pub errors: u64,
    /// Lines that the log lost.
    pub lost: u64,
    /// Update checks of apps that the server doesn't know.
    pub unknown: u64,
    /// Lines that aren't the server's.
    pub foreign: u64,
    /// The longest wait of a client for a worker, in microseconds.
    pub longest_wait: u64,
}

impl Faults {
    /// The faults in all lines of a report.
    // open: the errors and the unknown apps: rows.
    pub fn of_report(report: &Report) -> Faults
        ensures lost { result.lost ≡ report.now.lost }
        ensures foreign { result.foreign ≡ report.now.foreign }
        ensures longest_wait { result.longest_wait ≡ report.now.longest_wait }
    {
        Faults {
            errors: errors_in(report),
            lost: report.lost,
            unknown: unknown_in(report),
            foreign: report.foreign,
            longest_wait: report.longest_wait,
        }
    }

    /// The faults in the minutes of a course.
    // open: which rows are faults: rows of the program.
    pub fn of_course(course: &Course) -> Faults {
        let minutes = &course.minutes.tally;
        Faults {
            errors: noted(minutes, ERRORS),
            lost: noted(minutes, LOST),
            unknown: noted(minutes, UNKNOWN),
            foreign: noted(minutes, FOREIGN),
            longest_wait: longest(minutes),
        }
    }
}

impl Course {
    /// Counts faults in the newest minute that has a row, up to the present one.
    // open: that only rows of faults change: rows.
    pub fn note_faults(
        &mut self,
        alloc: Global,
        faults: Faults,
        present: u64,
    ) -> Result<(), AllocError> {
        let minute = newest_in(self.minutes.tally.rows(), present);
        let minutes = &mut self.minutes.tally;
        note(alloc, minutes, ERRORS, minute, faults.errors)?;
        note(alloc, minutes, LOST, minute, faults.lost)?;
        note(alloc, minutes, UNKNOWN, minute, faults.unknown)?;
        note(alloc, minutes, FOREIGN, minute, faults.foreign)?;
        note_wait(alloc, minutes, minute, faults.longest_wait)
    }
}

fn note(
    alloc: Global,
    minutes: &mut Tally,
    kind: &str,
    minute: u64,
    n: u64,
) -> Result<(), AllocError> {
    if n == 0 {
        return Ok(());
    }
    let name = row_name(alloc, kind, minute)?;
    let count = minutes
        .count_of(name.as_str())
        .unwrap_or(0)
        .saturating_add(n);
    minutes.set(name, count)
}

// The name of a minute's row of a kind.
fn row_name(alloc: Global, kind: &str, minute: u64) -> Result<String, AllocError> {
    format!(in alloc; "{kind}\t\t\t{minute}")
}

// Of a minute's waits the longest is kept.
fn note_wait(
    alloc: Global,
    minutes: &mut Tally,
    minute: u64,
    microseconds: u64,
) -> Result<(), AllocError> {
    if microseconds == 0 {
        return Ok(());
    }
    let name = row_name(alloc, WAITED, minute)?;
    let longest = minutes
        .count_of(name.as_str())
        .unwrap_or(0)
        .max(microseconds);
    minutes.set(name, longest)
}

// The longest wait of all rows.
fn longest(minutes: &Tally) -> u64 {
    let mut longest = 0;
    for (name, microseconds) in minutes.rows().iter() {
        if first(name.as_str()) == WAITED {
            longest = longest.max(*microseconds);
        }
    }
    longest
}

// The counts of all rows of a kind.
fn noted(minutes: &Tally, kind: &str) -> u64 {
    let mut count: u64 = 0;
    for (name, n) in minutes.rows().iter() {
        if first(name.as_str()) == kind {
            count = count.saturating_add(*n);
        }
    }
    count
}

fn errors_in(report: &Report) -> u64 {
    let mut errors: u64 = 0;
    if let Some(refusals) = report.tally(Question::Line(LineQuestion::Refusal)) {
        for (name, count) in refusals.rows().iter() {
            if name.as_str().starts_with('5') {
                errors = errors.saturating_add(*count);
            }
        }
    }
    errors
}

fn unknown_in(report: &Report) -> u64 {
    match report.tally(Question::App(AppQuestion::Unknown)) {
        Some(unknown) => all_of(unknown),
        None => 0,
    }
}

// All counts of a table.
fn all_of(tally: &Tally) -> u64 {
    let mut count = tally.others();
    for (_name, n) in tally.rows().iter() {
        count = count.saturating_add(*n);
    }
    count
}
