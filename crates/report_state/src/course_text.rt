//! The course of a state, as JSON.

ghost use Rattle.std.specs.Prelude.{◌≡◌, option_copied, option_map, true};
ghost use Rattle.json.specs.Value.{value_view};
ghost use Rattle.report.specs.Borrowed.{data_of};
ghost use Rattle.report_state.specs.States as specs;

use crate::course::{Course, CourseRows};
use crate::spelling::{is_number, is_table};
use crate::state_reader::fill;
use crate::state_writer::put_members;
use json::Value;
use json_value::ObjectBuilder;
use report::{member_at, number_at};
use serde_json::Value as WrittenValue;
use std::alloc::{AllocError, Global};

// ---- reading

// The rows of the member of this name; if it is malformed, some are missing.
fn rows_in(alloc: Global, course: &Value<'_>, name: &str) -> Result<CourseRows, AllocError> {
    let mut rows = CourseRows::new(alloc);
    if let Some(member) = member_at(course, name) {
        rows.from = number_at(member, "from").unwrap_or(0);
    }
    fill(alloc, course, name, &mut rows.tally)?;
    Ok(rows)
}

/// The course of a state, if it has one. If it is malformed, some rows are missing.
pub(crate) fn course_in(alloc: Global, state: &Value<'_>) -> Result<Option<Course>, AllocError> {
    match member_at(state, "course") {
        Some(course) => Ok(Some(Course {
            minutes: rows_in(alloc, course, "minutes")?,
            hours: rows_in(alloc, course, "hours")?,
        })),
        None => Ok(None),
    }
}

// ---- writing

fn rows_value(alloc: Global, rows: &CourseRows) -> Result<WrittenValue, AllocError> {
    let mut value = ObjectBuilder::new(alloc);
    value.put_number("from", rows.from);
    put_members(alloc, &mut value, &rows.tally);
    value.finish()
}

/// The member `course` of a state.
pub(crate) fn course_value(alloc: Global, course: &Course) -> Result<WrittenValue, AllocError> {
    let mut value = ObjectBuilder::new(alloc);
    value.put("minutes", rows_value(alloc, &course.minutes));
    value.put("hours", rows_value(alloc, &course.hours));
    value.finish()
}

// ---- comparing

fn are_course_rows(value: &Value<'_>, rows: &CourseRows) -> bool
    ensures { result ≡ true → specs.IsCourseRows rows.now (data_of (value_view value.now)) }
{
    is_number(value, "from", rows.from) && is_table(value, &rows.tally)
}

fn has_rows(course: &Value<'_>, name: &str, rows: &CourseRows) -> bool
    ensures { result ≡ true
        → specs.HasCourseRows (data_of (value_view course.now)) name.now rows.now }
{
    match member_at(course, name) {
        Some(value) => are_course_rows(value, rows),
        None => false,
    }
}

fn is_course(value: &Value<'_>, course: &Course) -> bool
    ensures { result ≡ true → specs.IsCourse course.now (data_of (value_view value.now)) }
{
    has_rows(value, "minutes", &course.minutes) && has_rows(value, "hours", &course.hours)
}

/// Whether a state has this course, or none.
pub(crate) fn has_course(state: &Value<'_>, course: Option<&Course>) -> bool
    ensures { result ≡ true
        → specs.HasCourse (option_map (λ c. c.now) course.entry) (data_of (value_view state.now)) }
{
    match (member_at(state, "course"), course) {
        (Some(value), Some(course)) => is_course(value, course),
        (None, None) => true,
        _ => false,
    }
}
