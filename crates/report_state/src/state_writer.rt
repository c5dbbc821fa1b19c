//! Writes a state: its text is made without a contract, and then it is read back.

ghost use Rattle.std.specs.Prelude.{◌≡◌, IfOk, IfSome, option_map, string_bytes, true};
ghost use Rattle.report_state.specs.States.{SpellsCounts, SpellsCourse};

use crate::course::Course;
use crate::course_text::{course_value, has_course};
use crate::places::{LogPlace, place_values};
use crate::spelling::has_counts;
use json::Scratch;
use json_value::ObjectBuilder;
use report::{QUESTIONS, Report, Tally, read_borrowed};
use serde_json::Value;
use std::alloc::{AllocError, Global};

fn row_value(alloc: Global, name: &str, count: u64) -> Result<Value, AllocError> {
    let mut row = ObjectBuilder::new(alloc);
    row.put_number("count", count);
    row.put_text("name", name);
    row.finish()
}

fn row_values(alloc: Global, tally: &Tally) -> Result<Vec<Value>, AllocError> {
    let mut values = Vec::new(alloc);
    for (name, count) in tally.rows().iter() {
        values.push(row_value(alloc, name.as_str(), *count)?)?;
    }
    Ok(values)
}

/// Adds the members of a table.
pub(crate) fn put_members(alloc: Global, table: &mut ObjectBuilder, tally: &Tally) {
    table.put_number("limit", tally.limit() as u64);
    table.put_number("others", tally.others());
    table.put_list("rows", row_values(alloc, tally));
}

fn put_table(alloc: Global, counts: &mut ObjectBuilder, name: &str, tally: &Tally) {
    let mut table = ObjectBuilder::new(alloc);
    put_members(alloc, &mut table, tally);
    counts.put(name, table.finish());
}

fn put_numbers(counts: &mut ObjectBuilder, report: &Report) {
    counts.put_number("lines", report.lines);
    counts.put_number("foreign", report.foreign);
    counts.put_number("lost", report.lost);
    counts.put_number("left_out", report.left_out);
    counts.put_number("offers_left_out", report.offers_left_out);
    counts.put_number("longest_wait", report.longest_wait);
    counts.put_bool("drawn", report.drawn);
}

fn put_tables(alloc: Global, counts: &mut ObjectBuilder, report: &Report) {
    let mut left = report.tallies.as_slice();
    for question in QUESTIONS.iter() {
        if let [tally, rest @ ..] = left {
            put_table(alloc, counts, question.member(), tally);
            left = rest;
        }
    }
}

fn counts_value(alloc: Global, report: &Report) -> Result<Value, AllocError> {
    let mut counts = ObjectBuilder::new(alloc);
    put_numbers(&mut counts, report);
    put_tables(alloc, &mut counts, report);
    counts.finish()
}

fn text_of(
    alloc: Global,
    report: &Report,
    places: &[LogPlace],
    course: Option<&Course>,
) -> Result<String, AllocError> {
    let mut state = ObjectBuilder::new(alloc);
    state.put("counts", counts_value(alloc, report));
    if let Some(course) = course {
        state.put("course", course_value(alloc, course));
    }
    state.put_list("logs", place_values(alloc, places));
    let state = state.finish()?;
    let printed = state.to_string(alloc);
    drop(state);
    let mut text = printed?;
    text.push_str("\n")?;
    Ok(text)
}

// Whether a text spells these counts and this course.
fn reads_back(
    alloc: Global,
    text: &str,
    report: &Report,
    course: Option<&Course>,
) -> Result<bool, AllocError>
    ensures counts { IfOk result (λ ok. ok ≡ true → SpellsCounts text.now report.now) }
    ensures course { IfOk result (λ ok. ok ≡ true
        → SpellsCourse text.now (option_map (λ c. c.now) course.entry)) }
{
    let mut scratch = Scratch::new(alloc);
    match read_borrowed(alloc, &mut scratch, text.as_bytes())? {
        Some(value) => {
            let spelled = has_counts(&value, report) && has_course(&value, course);
            drop(value);
            Ok(spelled)
        }
        None => Ok(false),
    }
}

/// The text of a state, a line of JSON. There is none if it can't be read back.
// open: whether an allocation fails, its one error; the places; and whether there is none.
pub fn state_text(
    alloc: Global,
    report: &Report,
    places: &[LogPlace],
    course: Option<&Course>,
) -> Result<Option<String>, AllocError>
    ensures counts { IfOk result
        (λ o. IfSome o (λ text. SpellsCounts (string_bytes text) report.now)) }
    ensures course { IfOk result (λ o. IfSome o
        (λ text. SpellsCourse (string_bytes text) (option_map (λ c. c.now) course.entry))) }
{
    let text = text_of(alloc, report, places, course)?;
    if reads_back(alloc, text.as_str(), report, course)? {
        return Ok(Some(text));
    }
    Ok(None)
}
