//! Counts the parts of logs that a state hasn't counted.

ghost use Rattle.std.specs.Prelude.{◌≡◌, IfOk, OnOk, false, length};
ghost use Rattle.report_state.specs.Places.{KeepsApart};
ghost use Rattle.cli_logs.specs.Reports.{CountsLogs};

use crate::log_part::{BegunPart, begin_part};
use crate::progress_lines::ProgressLines;
use crate::report_fault::ReportFault;
use crate::reporting::{fault_of, path_of, seconds_now};
use crate::same_places::{are_same, copies_of};
use bounded_files::ResourceFault;
use report::{Report, Window, count_log};
use report_state::{Course, Faults, LogPlace, keeping_is_transitive};
use std::alloc::{AllocError, Global};
use std::fs;
use std::io::{self, Read, Seek, SeekFrom};
use std::rt::Files;
use std::time::Clock;

/// The places after the new lines, and the course with them; and whether the state changes: lines
/// were read, or the places aren't the same, or not in the same order.
#[derive(Drop)]
pub(crate) struct NewLines {
    pub(crate) places: Vec<LogPlace>,
    pub(crate) course: Option<Course>,
    pub(crate) is_changed: bool,
}

// The places after the parts of logs, and whether a part had a byte.
#[derive(Drop)]
struct CountedParts {
    places: Vec<LogPlace>,
    is_read: bool,
}

/// Counts the new lines of each log in a report, and in the course if there is one.
pub(crate) fn count_new<R>(
    rt: &R,
    logs: &[&str],
    window: &Window<'_>,
    places: Vec<LogPlace>,
    course: Option<Course>,
    report: &mut Report,
) -> Result<NewLines, ReportFault>
where
    R: Files + AllocGlobal + Clock + Eprint,
    ensures counts { OnOk result
        (CountsLogs window.now (length logs.now) report.old report.new) }
    ensures keeps { IfOk result (λ new. KeepsApart places.items new.places.items) }
    ensures same { IfOk result (λ new. new.is_changed ≡ false → report.new ≡ report.old) }
{
    let Ok(mut part) = Report::new(rt.alloc(), true) else {
        return Err(ReportFault::Resource(ResourceFault::Memory));
    };
    let Ok(before) = copies_of(rt.alloc(), places.as_slice()) else {
        drop(part);
        return Err(ReportFault::Resource(ResourceFault::Memory));
    };
    let drawn = course.is_some();
    let counted = count_parts(rt, logs, window, places, report, drawn, &mut part);
    let course = course_with(rt, course, &part, has_read(&counted));
    drop(part);
    let CountedParts { places, is_read } = counted?;
    let course = course?;
    let is_changed = is_read || !are_same(before.as_slice(), places.as_slice());
    Ok(NewLines {
        places,
        course,
        is_changed,
    })
}

// Whether there were new bytes.
fn has_read(counted: &Result<CountedParts, ReportFault>) -> bool {
    match counted {
        Ok(parts) => parts.is_read,
        Err(_) => false,
    }
}

// The course with the lines of a report on the new ones, if there are any.
fn course_with<R>(
    rt: &R,
    course: Option<Course>,
    part: &Report,
    is_read: bool,
) -> Result<Option<Course>, ReportFault>
where
    R: AllocGlobal + Clock,
{
    let Some(course) = course else {
        return Ok(None);
    };
    if !is_read {
        return Ok(Some(course));
    }
    let present = match seconds_now(rt) {
        Ok(seconds) => seconds / 60,
        Err(fault) => return Err(ReportFault::Resource(fault)),
    };
    match continued_course(rt.alloc(), course, part, present) {
        Ok(course) => Ok(Some(course)),
        Err(_) => Err(ReportFault::Resource(ResourceFault::Memory)),
    }
}

fn continued_course(
    alloc: Global,
    course: Course,
    part: &Report,
    present: u64,
) -> Result<Course, AllocError> {
    let mut course = course.continue_by(alloc, part, present)?;
    course.note_faults(alloc, Faults::of_report(part), present)?;
    Ok(course)
}

// Counts the new lines of each log in a report, and in `part` if they are drawn.
#[tactic(auto, using(crate::proofs::Logs::no_logs, crate::proofs::Logs::more_logs))]
fn count_parts<R>(
    rt: &R,
    paths: &[&str],
    window: &Window<'_>,
    old: Vec<LogPlace>,
    report: &mut Report,
    drawn: bool,
    part: &mut Report,
) -> Result<CountedParts, ReportFault>
where
    R: Files + AllocGlobal + Clock + Eprint,
    ensures counts { OnOk result
        (CountsLogs window.now (length paths.now) report.old report.new) }
    ensures keeps { IfOk result (λ new. KeepsApart old.items new.places.items) }
    ensures same { IfOk result (λ new. new.is_read ≡ false → report.new ≡ report.old) }
{
    keeping_is_transitive();
    let mut places = old;
    let mut is_read = false;
    for path in paths {
        match count_part(rt, *path, window, places, report, drawn, part) {
            Ok(more) => {
                places = more.places;
                is_read = is_read || more.is_read;
            }
            Err(error) => return Err(ReportFault::Resource(fault_of(&error))),
        }
    }
    Ok(CountedParts { places, is_read })
}

// Counts the part of one log that isn't counted yet.
#[tactic(auto, using(crate::proofs::Logs::empty_log))]
fn count_part<R>(
    rt: &R,
    path: &str,
    window: &Window<'_>,
    old: Vec<LogPlace>,
    report: &mut Report,
    drawn: bool,
    part: &mut Report,
) -> io::Result<CountedParts>
where
    R: Files + AllocGlobal + Clock + Eprint,
    ensures counts { OnOk result (CountsLogs window.now 1 report.old report.new) }
    ensures keeps { IfOk result (λ new. KeepsApart old.items new.places.items) }
    ensures same { IfOk result (λ new. new.is_read ≡ false → report.new ≡ report.old) }
{
    let mut file = fs::open(rt, path_of(path))?;
    let BegunPart {
        places,
        start,
        length,
    } = begin_part(rt.alloc(), &mut file, old)?;
    if length == 0 {
        return Ok(CountedParts {
            places,
            is_read: false,
        });
    }
    if drawn {
        read_part(rt, &mut file, start, length, window, part)?;
    }
    read_part(rt, &mut file, start, length, window, report)?;
    Ok(CountedParts {
        places,
        is_read: true,
    })
}

// Counts the lines of `length` bytes of a log from `start` on.
#[tactic(auto, using(crate::proofs::Logs::one_log))]
fn read_part<R, F>(
    rt: &R,
    file: &mut F,
    start: u64,
    length: u64,
    window: &Window<'_>,
    report: &mut Report,
) -> io::Result<()>
where
    R: Files + AllocGlobal + Clock + Eprint,
    F: Read + Seek,
    ensures { OnOk result (CountsLogs window.now 1 report.old report.new) }
{
    file.seek(SeekFrom::Start(start))?;
    let mut reader = file.by_ref().take(length);
    let mut onlooker = ProgressLines::new(rt);
    count_log(rt.alloc(), &mut reader, window, report, &mut onlooker)?;
    Ok(())
}
