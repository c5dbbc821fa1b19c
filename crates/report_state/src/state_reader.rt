//! Reads a state.

ghost use Rattle.std.specs.Prelude.{IfOk, IfSome};
ghost use Rattle.json.specs.Value.{value_view};
ghost use Rattle.report.specs.Borrowed.{data_of};
ghost use Rattle.report_state.specs.Places.{AreApart};
ghost use Rattle.report_state.specs.States.{HasCounts, HasCourse, SpellsCounts, SpellsCourse};

use crate::course::Course;
use crate::course_text::{course_in, has_course};
use crate::places::{LogPlace, places_in};
use crate::spelling::has_counts;
use json::{Scratch, Value};
use report::{
    QUESTIONS, Question, Report, Tally, flag_at, list_at, member_at, number_at, read_borrowed,
    text_at,
};
use std::alloc::{AllocError, Global};

/// What is counted, the place in each log up to which it is, and what a page draws, if a call has
/// begun to count it.
#[derive(Drop)]
pub struct ReportState {
    pub report: Report,
    pub places: Vec<LogPlace>,
    pub course: Option<Course>,
}

fn fill_row(alloc: Global, value: &Value<'_>, tally: &mut Tally) -> Result<(), AllocError> {
    let Some(name) = text_at(value, "name") else {
        return Ok(());
    };
    let Some(count) = number_at(value, "count") else {
        return Ok(());
    };
    tally.set(String::from_str(alloc, name)?, count)
}

/// Fills a table with what the member of this name says; if it is malformed, some rows are missing.
pub(crate) fn fill(
    alloc: Global,
    counts: &Value<'_>,
    name: &str,
    tally: &mut Tally,
) -> Result<(), AllocError> {
    let Some(table) = member_at(counts, name) else {
        return Ok(());
    };
    tally.set_others(number_at(table, "others").unwrap_or(0));
    if let Some(rows) = list_at(table, "rows") {
        // Names ascend, and a table is searched from its first name on, so the last row goes first.
        for row in rows.iter().rev() {
            fill_row(alloc, row, tally)?;
        }
    }
    Ok(())
}

fn fill_numbers(counts: &Value<'_>, report: &mut Report) {
    report.lines = number_at(counts, "lines").unwrap_or(0);
    report.foreign = number_at(counts, "foreign").unwrap_or(0);
    report.lost = number_at(counts, "lost").unwrap_or(0);
    report.left_out = number_at(counts, "left_out").unwrap_or(0);
    report.offers_left_out = number_at(counts, "offers_left_out").unwrap_or(0);
    report.longest_wait = number_at(counts, "longest_wait").unwrap_or(0);
}

fn fill_report(alloc: Global, state: &Value<'_>, report: &mut Report) -> Result<(), AllocError> {
    let Some(counts) = member_at(state, "counts") else {
        return Ok(());
    };
    fill_numbers(counts, report);
    let mut left: &[Question] = &QUESTIONS;
    for tally in report.tallies.iter_mut() {
        if let [question, rest @ ..] = left {
            fill(alloc, counts, question.member(), tally)?;
            left = rest;
        }
    }
    Ok(())
}

fn is_drawn(state: &Value<'_>) -> bool {
    match member_at(state, "counts") {
        Some(counts) => flag_at(counts, "drawn").unwrap_or(false),
        None => false,
    }
}

// The counts of a state, if they are what it says.
fn report_of(alloc: Global, state: &Value<'_>) -> Result<Option<Report>, AllocError>
    ensures { IfOk result
        (λ o. IfSome o (λ report. HasCounts report (data_of (value_view state.now)))) }
{
    let mut report = Report::new(alloc, is_drawn(state))?;
    let filled = fill_report(alloc, state, &mut report);
    // Rows that an allocation left out show in the comparison.
    if has_counts(state, &report) {
        return Ok(Some(report));
    }
    drop(report);
    filled?;
    Ok(None)
}

fn state_of(alloc: Global, state: &Value<'_>) -> Result<Option<ReportState>, AllocError>
    ensures counts { IfOk result
        (λ o. IfSome o (λ s. HasCounts s.report (data_of (value_view state.now)))) }
    ensures course { IfOk result
        (λ o. IfSome o (λ s. HasCourse s.course (data_of (value_view state.now)))) }
    ensures apart { IfOk result (λ o. IfSome o (λ s. AreApart s.places.items)) }
{
    let Some(places) = places_in(alloc, state)? else {
        return Ok(None);
    };
    let course = course_in(alloc, state)?;
    if !has_course(state, course.as_ref()) {
        return Ok(None);
    }
    match report_of(alloc, state)? {
        Some(report) => Ok(Some(ReportState {
            report,
            places,
            course,
        })),
        None => Ok(None),
    }
}

/// The state that these bytes spell; none if they spell no state, or one with other limits. Of
/// places in one log the last counts.
// open: whether an allocation fails, its one error; which places there are; and whether there is
// none.
pub fn read_state(alloc: Global, bytes: &[u8]) -> Result<Option<ReportState>, AllocError>
    ensures counts { IfOk result
        (λ o. IfSome o (λ state. SpellsCounts bytes.now state.report)) }
    ensures course { IfOk result
        (λ o. IfSome o (λ state. SpellsCourse bytes.now state.course)) }
    ensures apart { IfOk result (λ o. IfSome o (λ state. AreApart state.places.items)) }
{
    let mut scratch = Scratch::new(alloc);
    match read_borrowed(alloc, &mut scratch, bytes)? {
        Some(value) => {
            let state = state_of(alloc, &value);
            drop(value);
            state
        }
        None => Ok(None),
    }
}
