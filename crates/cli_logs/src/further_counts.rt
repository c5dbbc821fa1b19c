//! What a report with a state counts and prints, before any file is written.

ghost use Rattle.std.specs.Prelude.{◌≡◌, IfOk, false, length, option_copied, option_map};
ghost use Rattle.std.specs.String.{string_bytes};
ghost use Rattle.report_state.specs.States.{SpellsCounts};
ghost use Rattle.cli_logs.specs.Continued.{BeginsFrom, Continues, HasOutput, IsSpelledBy};
ghost use Rattle.cli_logs.specs.Continued.{state_after};

use crate::drawing::{Drawings, Drawn, draw_with, is_drawn};
use crate::named_page::NamedPage;
use crate::new_lines::{NewLines, count_new};
use crate::report_fault::ReportFault;
use crate::report_form::{ReportForm, text_by};
use crate::reporting::ReportOutput;
use bounded_files::ResourceFault;
use report::{MetricKind, Report, Window};
use report_state::{Course, LogPlace, ReportState, state_text};
use std::alloc::Global;
use std::fs::File;
use std::rt::Files;
use std::time::Clock;

/// How many places a state has, unless a call names more logs. A log that was left out for the
/// longest time goes first.
const MOST_PLACES: usize = 1000;

/// The output, and the text of the new state, if it isn't the old one.
#[derive(Drop)]
pub(crate) struct Continued {
    pub(crate) output: ReportOutput,
    pub(crate) kept: Option<String>,
}

// What a state has counted then: the printed text, the text of the new state, if it isn't the old
// one, and the course.
#[derive(Drop)]
struct Counted {
    text: String,
    kept: Option<String>,
    course: Option<Course>,
}

/// Counts what is new in these logs after a state, which the known bytes spell if there are any.
pub(crate) fn continued_from<R>(
    rt: &R,
    logs: &[&str],
    form: ReportForm,
    drawn: Drawn,
    page: Option<NamedPage<'_>>,
    known: Option<&[u8]>,
    begun: ReportState,
) -> Result<Continued, ReportFault>
where
    R: Files<File = File> + AllocGlobal + Clock + Eprint,
    requires { BeginsFrom (option_copied known) begun.report }
    ensures { IfOk result (λ c. HasOutput (length logs.now) form begun.report begun.places.items
        drawn.picture drawn.page c.output) }
{
    let ReportState {
        mut report,
        places,
        course,
    } = begun;
    let stays = course.is_some() || !is_drawn(drawn);
    let known = known_if(stays, known);
    let course = course_if(rt.alloc(), drawn, course);
    let continued = output_on(
        rt,
        logs,
        form,
        drawn,
        page,
        known,
        places,
        course,
        &mut report,
    );
    drop(report);
    continued
}

// The bytes that may stay; a state whose course begins doesn't.
fn known_if<'a>(stays: bool, known: Option<&'a [u8]>) -> Option<&'a [u8]>
    ensures { (report : Report) → BeginsFrom (option_copied known.entry) report
        → IsSpelledBy (option_copied result) report }
{
    match known {
        Some(bytes) if stays => Some(bytes),
        _ => None,
    }
}

// The course that is continued; a picture or a page begins one.
fn course_if(alloc: Global, drawn: Drawn, found: Option<Course>) -> Option<Course> {
    match found {
        Some(course) => Some(course),
        None => {
            if is_drawn(drawn) {
                Some(Course::new(alloc))
            } else {
                None
            }
        }
    }
}

// Counts what is new, and draws the picture and the page.
#[tactic(auto, using(crate::proofs::Continued::has_output))]
fn output_on<R>(
    rt: &R,
    logs: &[&str],
    form: ReportForm,
    drawn: Drawn,
    page: Option<NamedPage<'_>>,
    known: Option<&[u8]>,
    places: Vec<LogPlace>,
    course: Option<Course>,
    report: &mut Report,
) -> Result<Continued, ReportFault>
where
    R: Files<File = File> + AllocGlobal + Clock + Eprint,
    requires { IsSpelledBy (option_copied known) report.old }
    ensures { IfOk result (λ c. HasOutput (length logs.now) form report.old places.items
        drawn.picture drawn.page c.output) }
{
    let Counted { text, kept, course } = continue_counts(
        rt, logs, form, known, places, course, report,
    )?;
    let Drawings { picture, page } = draw_with(rt, logs, drawn, page, course, report)?;
    Ok(Continued {
        output: ReportOutput {
            text,
            picture,
            page,
        },
        kept,
    })
}

// Counts what is new, and makes the new state.
fn continue_counts<R>(
    rt: &R,
    logs: &[&str],
    form: ReportForm,
    known: Option<&[u8]>,
    places: Vec<LogPlace>,
    course: Option<Course>,
    report: &mut Report,
) -> Result<Counted, ReportFault>
where
    R: Files<File = File> + AllocGlobal + Clock + Eprint,
    requires { IsSpelledBy (option_copied known) report.old }
    ensures { IfOk result (λ c. Continues (length logs.now) form report.old report.new
        places.items (string_bytes c.text)) }
{
    let window = Window {
        since: None,
        until: None,
    };
    let NewLines {
        places,
        course,
        is_changed,
    } = count_new(rt, logs, &window, places, course, report)?;
    let mut new = places;
    new.truncate(logs.len().max(MOST_PLACES));
    let kept = kept_if(
        rt.alloc(),
        is_changed,
        known,
        report,
        new.as_slice(),
        course.as_ref(),
    );
    drop(new);
    let kept = kept?;
    match text_by(rt.alloc(), form, MetricKind::Counter, report) {
        Ok(text) => Ok(Counted { text, kept, course }),
        Err(_) => Err(ReportFault::Resource(ResourceFault::Memory)),
    }
}

// The text of the new state, unless nothing is changed, and known bytes spell it.
fn kept_if(
    alloc: Global,
    is_changed: bool,
    known: Option<&[u8]>,
    report: &Report,
    places: &[LogPlace],
    course: Option<&Course>,
) -> Result<Option<String>, ReportFault>
    requires { is_changed ≡ false → IsSpelledBy (option_copied known) report.now }
    ensures { IfOk result (λ kept. SpellsCounts
        (state_after (option_map string_bytes kept) (option_copied known.entry)) report.now) }
{
    match known {
        Some(_bytes) if !is_changed => Ok(None),
        _ => {
            let kept = kept_text(alloc, report, places, course)?;
            Ok(Some(kept))
        }
    }
}

fn kept_text(
    alloc: Global,
    report: &Report,
    places: &[LogPlace],
    course: Option<&Course>,
) -> Result<String, ReportFault>
    ensures { IfOk result (λ text. SpellsCounts (string_bytes text) report.now) }
{
    match state_text(alloc, report, places, course) {
        Ok(Some(text)) => Ok(text),
        Ok(None) => Err(ReportFault::State),
        Err(_) => Err(ReportFault::Resource(ResourceFault::Memory)),
    }
}
