//! The section of an app: its versions with their counts, and its course.

use crate::elements::{
    close_table, number_cell, open_table, put_as, put_name, put_number, remark, share_cell,
};
use crate::findings::AppCourse;
use crate::folder::FolderFacts;
use crate::offer_section::{draw_halt, draw_offer};
use crate::source::PageSource;
use markup::{Class, Document, Tag};
use std::alloc::{AllocError, Global};
use timeline::{CourseNotes, StepMark, VersionCourse, class_of, draw_app};

/// The heads of the columns of versions.
const HEADS: [&str; 7] = [
    "Version",
    "Asks",
    "of all",
    "Offers",
    "Installs",
    "Failed",
    "of installs",
];

/// What the lines of a course are.
const LINES: &str =
    "Solid lines are steps, dashed ones loads. The dotted one is at 5 % failed: above \
    it is red, if three or more did.";

/// Draws the section of each app, and of each one that only the folder has.
pub(crate) fn draw_apps(
    alloc: Global,
    page: &mut Document,
    source: &PageSource<'_>,
) -> Result<(), AllocError> {
    if source.apps.is_empty() {
        page.open(Tag::Section);
        remark(page, "No client has made an update check.");
        page.close();
        page.line();
    }
    for app in source.apps {
        draw_section(alloc, page, source, app)?;
    }
    if let Some(folder) = source.facts.folder {
        draw_unasked(page, source, folder);
    }
    Ok(())
}

fn draw_section(
    alloc: Global,
    page: &mut Document,
    source: &PageSource<'_>,
    app: &AppCourse,
) -> Result<(), AllocError> {
    page.open(Tag::Section);
    draw_heading(page, app);
    let appid = app.appid.as_str();
    draw_halt(page, source, appid);
    draw_both(page, source, app);
    let steps = marks_of(alloc, source.facts.folder, appid)?;
    let notes = CourseNotes {
        steps: steps.as_slice(),
        unexplained: source.unexplained,
    };
    draw_app(alloc, page, source.report, source.times, appid, notes)?;
    if !app.versions.is_empty() {
        remark(page, LINES);
    }
    page.close();
    page.line();
    Ok(())
}

// What an app is offered, and next to it what happened. A division without a class has two columns
// in a wide window.
fn draw_both(page: &mut Document, source: &PageSource<'_>, app: &AppCourse) {
    if source.offer_to(app.appid.as_str()).is_none() {
        draw_versions(page, app);
        return;
    }
    page.open(Tag::Division);
    page.open(Tag::Division);
    draw_offer(page, source, app.appid.as_str());
    page.close();
    page.open(Tag::Division);
    draw_versions(page, app);
    page.close();
    page.close();
    page.line();
}

// Those of the folder's last 20 steps that changed an app or the manifest, the oldest first. The
// section of steps says how many earlier ones there are.
fn marks_of<'a>(
    alloc: Global,
    folder: Option<&'a FolderFacts>,
    appid: &str,
) -> Result<Vec<StepMark<'a>>, AllocError> {
    let mut marks = Vec::new(alloc);
    let Some(folder) = folder else {
        return Ok(marks);
    };
    for step in folder.steps.iter().rev() {
        if step.appid.is_empty() || step.appid.as_str() == appid {
            let time = step.time.as_str();
            let label = step.label.as_str();
            marks.push(StepMark { time, label })?;
        }
    }
    Ok(marks)
}

// What the folder offers the apps of which no client makes update checks.
fn draw_unasked(page: &mut Document, source: &PageSource<'_>, folder: &FolderFacts) {
    for app in folder.apps.as_slice() {
        let appid = app.appid.as_str();
        if !source.is_asked(appid) {
            page.open(Tag::Section);
            page.open(Tag::Heading);
            put_name(page, appid);
            page.close();
            page.line();
            draw_halt(page, source, appid);
            draw_offer(page, source, appid);
            remark(page, "No client has made an update check of it.");
            page.close();
            page.line();
        }
    }
}

// The app, and the versions of it that fail.
fn draw_heading(page: &mut Document, app: &AppCourse) {
    page.open(Tag::Heading);
    put_name(page, app.appid.as_str());
    for version in app.versions.as_slice() {
        if version.newest.fails() {
            page.text(" ");
            page.open_as(Tag::Bold, Class::Bad);
            put_name(page, version.version.as_str());
            page.text(" fails");
            page.close();
        }
    }
    page.close();
    page.line();
}

// The versions, the last one first.
fn draw_versions(page: &mut Document, app: &AppCourse) {
    let versions = app.versions.as_slice();
    open_table(page, &HEADS, 1);
    for later in 0..versions.len() {
        let index = versions.len().saturating_sub(later).saturating_sub(1);
        if let Some(version) = versions.get(index) {
            draw_version(page, version, index, app.asks);
        }
    }
    close_table(page);
    let installs = installs_of(versions);
    if installs == 0 {
        remark(page, "No client has reported an install.");
    } else {
        remark(
            page,
            "The last share is that of the version's own installs, over all old versions.",
        );
    }
}

fn installs_of(versions: &[VersionCourse]) -> u64 {
    let mut installs: u64 = 0;
    for version in versions {
        installs = installs.saturating_add(version.counts.installs);
    }
    installs
}

fn draw_version(page: &mut Document, version: &VersionCourse, index: usize, asks: u64) {
    let counts = version.counts;
    page.open(Tag::TableRow);
    page.open(Tag::TableCell);
    put_as(page, Tag::Span, class_of(index), "");
    put_name(page, version.version.as_str());
    page.close();
    number_cell(page, counts.asks);
    share_cell(page, Class::Number, counts.asks, asks);
    number_cell(page, counts.offers);
    number_cell(page, counts.installs);
    if version.newest.fails() {
        page.open_as(Tag::TableCell, Class::Bad);
        put_number(page, counts.failures);
        page.close();
        share_cell(page, Class::Bad, counts.failures, counts.installs);
    } else {
        number_cell(page, counts.failures);
        share_cell(page, Class::Number, counts.failures, counts.installs);
    }
    page.close();
    page.line();
}
