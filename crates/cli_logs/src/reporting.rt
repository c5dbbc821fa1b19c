//! `report`: counts the lines of logs.

ghost use Rattle.std.specs.Prelude.{◌≡◌, ◌||◌, [], IfOk, OnOk, is_some, length, option_map};
ghost use Rattle.std.specs.Option.{option_copied};
ghost use Rattle.std.specs.String.{string_bytes};
ghost use Rattle.report.specs.Counts.{Counts};
ghost use Rattle.cli_logs.specs.Reports.{CountsLogs, HasReported, IsTextBy, IsTimeIf, kind_of};
ghost use Rattle.markup.specs.WellFormed.{HasPicture};
ghost use Rattle.report_page.specs.Pages.{HasPage};

use crate::drawing::{Drawn, end_if, is_drawn, moment_if, page_if, picture_if};
use crate::named_page::{NamedPage, page_facts, path_if};
use crate::page_file::require_page;
use crate::picture_file::{require_drawable, write_if};
use crate::progress_lines::ProgressLines;
use crate::report_form::{ReportForm, text_by};
use bounded_files::ResourceFault;
use jiff_core::Timestamp;
use moments::{NamedTime, time_text};
use report::{MetricKind, Report, Window, count_log};
use report_page::PageFacts;
use report_state::Faults;
use std::alloc::{AllocError, Global};
use std::fs::{self, File};
use std::io::{self, Error, ErrorKind};
use std::rt::Files;
use std::time::{Clock, SystemTime, UNIX_EPOCH};

/// The file of standard input, which is read in blocks.
const STANDARD_INPUT: &str = "/dev/stdin";

/// A report on logs: a text, and if files are named for them a picture, as the text of an SVG file,
/// and a page, as that of an HTML file.
#[derive(Drop)]
pub struct ReportOutput {
    pub text: String,
    pub picture: Option<String>,
    pub page: Option<String>,
}

/// The report on the logs' lines from `since` on and before `until`, in this form. A log named `-`
/// is standard input. If `picture` names a file, a picture of the lines' course is written into
/// it once all logs are read, and then the page into the file that `page` names, with what that has
/// of a server and of a folder.
///
/// Returns B3 if the picture would overwrite a log, or a file that isn't empty and isn't a picture,
/// and likewise for the page; if a log can't be read; if a moment is given, or a page written, and
/// the clock can't be read; or if the picture or the page can't be written. Returns B4 if an
/// allocation fails. A read that takes over a second prints its progress, if standard error is a
/// terminal.
// open: whether an allocation fails; which progress is printed; that the files get the picture and
// the page.
pub fn report_logs<R>(
    rt: &R,
    logs: &[&str],
    since: Option<NamedTime>,
    until: Option<NamedTime>,
    form: ReportForm,
    picture: Option<&str>,
    page: Option<NamedPage<'_>>,
) -> Result<ReportOutput, ResourceFault>
where
    R: Files<File = File> + AllocGlobal + Clock + Eprint,
    ensures { IfOk result
        (HasReported (length logs.now) since until form (is_some picture.entry)
        (is_some page.entry)) }
{
    require_drawable(rt, logs, picture)?;
    require_page(rt, logs, path_if(page))?;
    let drawn = Drawn {
        picture: picture.is_some(),
        page: page.is_some(),
    };
    let mut report = new_report(rt.alloc(), is_drawn(drawn))?;
    let output = output_of_logs(rt, logs, since, until, form, drawn, page, &mut report);
    drop(report);
    let output = output?;
    write_if(rt, picture, &output.picture)?;
    write_if(rt, path_if(page), &output.page)?;
    Ok(output)
}

// A report on no lines.
fn new_report(alloc: Global, drawn: bool) -> Result<Report, ResourceFault>
    ensures { IfOk result (λ report. (window : Window) → Counts window [] drawn report) }
{
    match Report::new(alloc, drawn) {
        Ok(report) => Ok(report),
        Err(_) => Err(ResourceFault::Memory),
    }
}

// The report, before its picture is written. It is counted in `report`, which has counted nothing.
fn output_of_logs<R>(
    rt: &R,
    logs: &[&str],
    since: Option<NamedTime>,
    until: Option<NamedTime>,
    form: ReportForm,
    drawn: Drawn,
    page: Option<NamedPage<'_>>,
    report: &mut Report,
) -> Result<ReportOutput, ResourceFault>
where
    R: Files + AllocGlobal + Clock + Eprint,
    requires { (window : Window) → Counts window [] (drawn.picture || drawn.page) report.old }
    ensures { IfOk result
        (HasReported (length logs.now) since until form drawn.picture drawn.page) }
{
    let kind = kind_of(since, until);
    let since = time_of(rt, since)?;
    let until = time_of(rt, until)?;
    let window = Window {
        since: text_of(&since),
        until: text_of(&until),
    };
    count_logs(rt, logs, &window, report)?;
    let written = time_of(rt, moment_if(drawn.page))?;
    let end = end_if(rt, drawn.page && until.is_none(), logs)?;
    let facts = page_facts(page, text_of(&written), end.shown());
    match output_of(rt.alloc(), form, kind, drawn, facts, report) {
        Ok(output) => Ok(output),
        Err(_) => Err(ResourceFault::Memory),
    }
}

fn output_of(
    alloc: Global,
    form: ReportForm,
    kind: MetricKind,
    drawn: Drawn,
    facts: PageFacts<'_>,
    report: &Report,
) -> Result<ReportOutput, AllocError>
    ensures text { IfOk result
        (λ output. IsTextBy form kind report.now (string_bytes output.text)) }
    ensures picture { IfOk result (λ output. HasPicture drawn.picture output.picture) }
    ensures page { IfOk result (λ output. HasPage drawn.page output.page) }
{
    let picture = picture_if(alloc, drawn.picture, report)?;
    let page = page_if(alloc, drawn.page, report, Faults::of_report(report), facts)?;
    let text = text_by(alloc, form, kind, report)?;
    Ok(ReportOutput {
        text,
        picture,
        page,
    })
}

// In a window of time the counts go up and down.
fn kind_of(since: Option<NamedTime>, until: Option<NamedTime>) -> MetricKind
    ensures { result ≡ kind_of since until }
{
    match (since, until) {
        (None, None) => MetricKind::Counter,
        _ => MetricKind::Gauge,
    }
}

/// The text, if there is one.
pub(crate) fn text_of<'a>(text: &'a Option<String>) -> Option<&'a str>
    ensures { option_copied result ≡ option_map string_bytes text.now }
{
    match text {
        Some(text) => Some(text.as_str()),
        None => None,
    }
}

/// The time of a moment, in the form of a log's lines.
#[tactic(auto, using(crate::proofs::Logs::by_clock))]
pub(crate) fn time_of<R>(rt: &R, moment: Option<NamedTime>) -> Result<Option<String>, ResourceFault>
where
    R: AllocGlobal + Clock,
    ensures { IfOk result (λ text. IsTimeIf moment (option_map string_bytes text)) }
{
    let Some(moment) = moment else {
        return Ok(None);
    };
    let now = now_of(rt)?;
    match time_text(rt.alloc(), moment, now) {
        Ok(text) => Ok(Some(text)),
        Err(_) => Err(ResourceFault::Memory),
    }
}

fn now_of<R: Clock>(rt: &R) -> Result<Timestamp, ResourceFault> {
    let seconds = seconds_now(rt)?;
    match Timestamp::from_nanosecond(seconds as i128 * 1_000_000_000) {
        Ok(now) => Ok(now),
        Err(_) => Err(ResourceFault::File),
    }
}

/// The seconds of the clock since 1970.
pub(crate) fn seconds_now<R: Clock>(rt: &R) -> Result<u64, ResourceFault> {
    let Ok(now) = SystemTime::now(rt) else {
        return Err(ResourceFault::File);
    };
    match now.duration_since(UNIX_EPOCH) {
        Ok(since) => Ok(since.as_secs()),
        Err(_) => Err(ResourceFault::File),
    }
}

// Counts the lines of each log.
#[tactic(auto, using(crate::proofs::Logs::no_logs, crate::proofs::Logs::more_logs))]
fn count_logs<R>(
    rt: &R,
    paths: &[&str],
    window: &Window<'_>,
    report: &mut Report,
) -> Result<(), ResourceFault>
where
    R: Files + AllocGlobal + Clock + Eprint,
    ensures { OnOk result (CountsLogs window.now (length paths.now) report.old report.new) }
{
    for path in paths {
        if let Err(error) = read_file(rt, *path, window, report) {
            return Err(fault_of(&error));
        }
    }
    Ok(())
}

/// Why a log can't be read.
pub(crate) fn fault_of(error: &Error) -> ResourceFault {
    match error.kind() {
        ErrorKind::OutOfMemory => ResourceFault::Memory,
        _ => ResourceFault::File,
    }
}

#[tactic(auto, using(crate::proofs::Logs::one_log))]
fn read_file<R>(rt: &R, path: &str, window: &Window<'_>, report: &mut Report) -> io::Result<()>
where
    R: Files + AllocGlobal + Clock + Eprint,
    ensures { OnOk result (CountsLogs window.now 1 report.old report.new) }
{
    let mut file = fs::open(rt, path_of(path))?;
    let mut onlooker = ProgressLines::new(rt);
    count_log(rt.alloc(), &mut file, window, report, &mut onlooker)
}

/// The path of a log; a hyphen is standard input.
pub(crate) fn path_of<'a>(path: &'a str) -> &'a str {
    if path == "-" { STANDARD_INPUT } else { path }
}
