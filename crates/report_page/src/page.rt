//! The whole page.

ghost use Rattle.std.specs.Prelude.{◌≡◌, IfOk, OnOk, string_bytes};
ghost use Rattle.markup.specs.WellFormed.{IsContent};
ghost use Rattle.report_page.specs.Pages.{IsPage};

use crate::app_section::draw_apps;
use crate::band::draw_state;
use crate::facts::PageFacts;
use crate::facts_line::draw_facts;
use crate::findings::{AppCourse, apps_of, findings_of};
use crate::head::{PAGE_END, PAGE_HEAD};
use crate::request_section::{draw_loads, draw_requests, draw_whole};
use crate::source::PageSource;
use crate::step_section::draw_steps;
use crate::unexplained::unexplained_loads;
use cell_assignments::read_assignments;
use markup::Document;
use report::Report;
use report_state::Faults;
use server_replies::lines_of;
use std::alloc::{AllocError, Global};
use timeline::Times;

/// The page of a report, as the text of a file in HTML, with these faults and facts. Also returns
/// `AllocError` if a number overflows 64 bits.
// open: when it fails; what the page shows: rows compare it.
pub fn page_text(
    alloc: Global,
    report: &Report,
    faults: Faults,
    facts: PageFacts<'_>,
) -> Result<String, AllocError>
    ensures { IfOk result (λ text. IsPage (string_bytes text)) }
{
    let content = content_of(alloc, report, faults, facts)?;
    let mut text = String::from_str(alloc, PAGE_HEAD)?;
    text.push_str(content.as_str())?;
    text.push_str(PAGE_END)?;
    Ok(text)
}

fn content_of(
    alloc: Global,
    report: &Report,
    faults: Faults,
    facts: PageFacts<'_>,
) -> Result<String, AllocError>
    ensures { IfOk result (λ text. IsContent (string_bytes text)) }
{
    let mut page = Document::content(alloc);
    let drawn = draw_content(alloc, &mut page, report, faults, facts);
    let text = page.finish_content()?;
    drawn?;
    Ok(text)
}

fn draw_content(
    alloc: Global,
    page: &mut Document,
    report: &Report,
    faults: Faults,
    facts: PageFacts<'_>,
) -> Result<(), AllocError> {
    let times = Times::of_report(report);
    let apps = apps_of(alloc, report, times)?;
    let drawn = draw_from(alloc, page, report, times, faults, facts, apps.as_slice());
    drop(apps);
    drawn
}

fn draw_from(
    alloc: Global,
    page: &mut Document,
    report: &Report,
    times: Times,
    faults: Faults,
    facts: PageFacts<'_>,
    apps: &[AppCourse],
) -> Result<(), AllocError> {
    let state = lines_of(alloc, facts.state())?;
    let cells = read_assignments(alloc, facts.cells())?;
    let unexplained = unexplained_loads(alloc, report, facts.folder)?;
    let source = PageSource {
        report,
        times,
        faults,
        facts,
        apps,
        state: state.as_slice(),
        cells: cells.as_slice(),
        unexplained: unexplained.as_slice(),
    };
    draw_parts(alloc, page, &source)
}

fn draw_parts(
    alloc: Global,
    page: &mut Document,
    source: &PageSource<'_>,
) -> Result<(), AllocError> {
    let findings = findings_of(alloc, source)?;
    draw_state(page, source, findings.as_slice());
    draw_facts(page, source);
    draw_apps(alloc, page, source)?;
    draw_steps(page, source.facts.folder);
    draw_loads(page, source);
    draw_requests(page, source.report);
    draw_whole(alloc, page, source.report)
}
