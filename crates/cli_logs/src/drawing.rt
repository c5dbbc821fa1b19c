//! The picture and the page of a report.

ghost use Rattle.std.specs.Prelude.{◌≡◌, ◌||◌, IfOk};
ghost use Rattle.markup.specs.WellFormed.{HasPicture};
ghost use Rattle.report_page.specs.Pages.{HasPage};

use crate::log_end::{FoundEnd, end_of_logs};
use crate::named_page::{NamedPage, page_facts};
use crate::report_fault::ReportFault;
use crate::reporting::{text_of, time_of};
use bounded_files::ResourceFault;
use moments::NamedTime;
use report::Report;
use report_page::{PageFacts, page_text};
use report_state::{Course, Faults};
use std::alloc::{AllocError, Global};
use std::rt::Files;
use std::time::Clock;
use timeline::draw_course;

/// Which files a report has besides its text.
#[derive(Clone, Copy)]
pub(crate) struct Drawn {
    pub(crate) picture: bool,
    pub(crate) page: bool,
}

/// Whether a report counts what its files draw.
pub(crate) fn is_drawn(drawn: Drawn) -> bool
    ensures { result ≡ drawn.picture || drawn.page }
{
    drawn.picture || drawn.page
}

/// The picture of a report, if one is drawn.
pub(crate) fn picture_if(
    alloc: Global,
    drawn: bool,
    report: &Report,
) -> Result<Option<String>, AllocError>
    ensures { IfOk result (HasPicture drawn) }
{
    if drawn {
        Ok(Some(draw_course(alloc, report)?))
    } else {
        Ok(None)
    }
}

/// The present, if a page is written.
pub(crate) fn moment_if(drawn: bool) -> Option<NamedTime> {
    if drawn { Some(NamedTime::Ago(0)) } else { None }
}

/// The page of a report with these faults and facts, if one is written.
pub(crate) fn page_if(
    alloc: Global,
    drawn: bool,
    report: &Report,
    faults: Faults,
    facts: PageFacts<'_>,
) -> Result<Option<String>, AllocError>
    ensures { IfOk result (HasPage drawn) }
{
    if drawn {
        Ok(Some(page_text(alloc, report, faults, facts)?))
    } else {
        Ok(None)
    }
}

/// When the logs end, if a page is written that shows it.
pub(crate) fn end_if<R>(rt: &R, shown: bool, logs: &[&str]) -> Result<FoundEnd, ResourceFault>
where
    R: Files + AllocGlobal,
{
    if shown {
        end_of_logs(rt, logs)
    } else {
        Ok(FoundEnd::Unknown)
    }
}

/// The texts of a picture and of a page.
#[derive(Drop)]
pub(crate) struct Drawings {
    pub(crate) picture: Option<String>,
    pub(crate) page: Option<String>,
}

/// Draws a report on these logs with this course, whose rows become the report's, and with its
/// faults.
pub(crate) fn draw_with<R>(
    rt: &R,
    logs: &[&str],
    drawn: Drawn,
    page: Option<NamedPage<'_>>,
    course: Option<Course>,
    report: &mut Report,
) -> Result<Drawings, ReportFault>
where
    R: Files + AllocGlobal + Clock,
    ensures picture { IfOk result (λ d. HasPicture drawn.picture d.picture) }
    ensures page { IfOk result (λ d. HasPage drawn.page d.page) }
{
    let written = time_of(rt, moment_if(drawn.page)).map_err(ReportFault::Resource)?;
    let end = end_if(rt, drawn.page, logs).map_err(ReportFault::Resource)?;
    let facts = page_facts(page, text_of(&written), end.shown());
    let faults = faults_of(course.as_ref(), report);
    let drawings = match show_if(rt.alloc(), is_drawn(drawn), course, report) {
        Ok(()) => drawings_of(rt.alloc(), drawn, report, faults, facts),
        Err(error) => Err(error),
    };
    match drawings {
        Ok(drawings) => Ok(drawings),
        Err(_) => Err(ReportFault::Resource(ResourceFault::Memory)),
    }
}

fn faults_of(course: Option<&Course>, report: &Report) -> Faults {
    match course {
        Some(course) => Faults::of_course(course),
        None => Faults::of_report(report),
    }
}

fn show_if(
    alloc: Global,
    drawn: bool,
    course: Option<Course>,
    report: &mut Report,
) -> Result<(), AllocError> {
    match course {
        Some(course) if drawn => course.show(alloc, report),
        _ => Ok(()),
    }
}

fn drawings_of(
    alloc: Global,
    drawn: Drawn,
    report: &Report,
    faults: Faults,
    facts: PageFacts<'_>,
) -> Result<Drawings, AllocError>
    ensures picture { IfOk result (λ d. HasPicture drawn.picture d.picture) }
    ensures page { IfOk result (λ d. HasPage drawn.page d.page) }
{
    let picture = picture_if(alloc, drawn.picture, report)?;
    let page = page_if(alloc, drawn.page, report, faults, facts)?;
    Ok(Drawings { picture, page })
}
