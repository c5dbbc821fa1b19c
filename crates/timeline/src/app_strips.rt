//! The course of an app in a page, as strips over time. A page's style gives them their size and
//! their colours.

ghost use Rattle.timeline.specs.Bins.{AreBins};

use crate::app_axis::{draw_axis, draw_heading};
use crate::app_layers::{draw_offers, draw_shares};
use crate::app_panel::PictureSource;
use crate::bins::Bins;
use crate::course::{course_of, newest_course_of, source_of};
use crate::course_marks::{CourseLines, CourseNotes, draw_marks};
use crate::page_strip::{caption, class_of, close_strip, draw_path, open_strip};
use crate::steps::{CourseStep, DrawnSteps, StepShape, path_of_steps, share_of};
use crate::strips::steps_of_version;
use crate::times::Times;
use crate::versions::versions_in_rows;
use markup::{Attribute, Class, Document, Tag};
use report::Report;
use std::alloc::{AllocError, Global};

/// Draws the course of an app: for each version the share of its own installs that failed, its
/// offers, and its share of the update checks. Lines mark loads, and the steps of these notes.
/// Below is that of the newest minutes, if the first is by the hour for want of earlier ones.
/// Nothing if no update check has a readable time. Also returns `AllocError` if a number overflows
/// 64 bits.
// open: what is drawn: people look at it.
pub fn draw_app(
    alloc: Global,
    page: &mut Document,
    report: &Report,
    times: Times,
    app: &str,
    notes: CourseNotes<'_>,
) -> Result<(), AllocError> {
    if let Some(course) = course_of(report, times) {
        draw_strips(alloc, page, &source_of(course), app, notes)?;
    }
    match newest_course_of(report, times) {
        Some(course) => draw_strips(alloc, page, &source_of(course), app, notes),
        None => Ok(()),
    }
}

fn draw_strips(
    alloc: Global,
    page: &mut Document,
    source: &PictureSource<'_>,
    app: &str,
    notes: CourseNotes<'_>,
) -> Result<(), AllocError>
    requires { AreBins source.now.bins }
{
    let versions = versions_in_rows(alloc, source.versions, app)?;
    let versions = versions.as_slice();
    draw_heading(page, &source.bins);
    page.open_as(Tag::Division, Class::Course);
    let lines = draw_marks(alloc, page, source, notes)?;
    draw_failures(alloc, page, source, &lines, app, versions)?;
    draw_offers(alloc, page, source, &lines, app, versions)?;
    draw_shares(alloc, page, source, &lines, app, versions)?;
    draw_axis(page, &source.bins);
    page.close();
    page.line();
    Ok(())
}

fn draw_failures(
    alloc: Global,
    page: &mut Document,
    source: &PictureSource<'_>,
    lines: &CourseLines,
    app: &str,
    versions: &[String],
) -> Result<(), AllocError>
    requires { AreBins source.now.bins }
{
    let Some(top) = scale_of(alloc, source, app, versions)? else {
        caption(page, "No client reported an install.");
        return Ok(());
    };
    let percent = top / 100;
    caption(
        page,
        format_args!("Failed, of each version's own installs: 0 to {percent} %"),
    );
    open_strip(page, &source.bins);
    draw_limit(page, &source.bins, top);
    let mut index: usize = 0;
    for version in versions {
        let steps = steps_of_version(alloc, source, app, version.as_str())?;
        draw_steps(alloc, page, class_of(index), steps.as_slice(), top)?;
        index = index.wrapping_add(1);
    }
    close_strip(page, lines);
    Ok(())
}

// The height of the strip in hundredths of a percent: 25, 50 or 100 percent. `None` if no version
// has installs.
fn scale_of(
    alloc: Global,
    source: &PictureSource<'_>,
    app: &str,
    versions: &[String],
) -> Result<Option<u128>, AllocError>
    requires { AreBins source.now.bins }
{
    let mut most = None;
    for version in versions {
        let steps = steps_of_version(alloc, source, app, version.as_str())?;
        if !steps.is_empty() {
            most = Some(highest(steps.as_slice(), most.unwrap_or(0)));
        }
    }
    Ok(match most {
        Some(most) if most > 5000 => Some(10000),
        Some(most) if most > 2500 => Some(5000),
        Some(_) => Some(2500),
        None => None,
    })
}

fn highest(steps: &[CourseStep], least: u128) -> u128 {
    let mut most = least;
    for step in steps {
        most = most.max(share_of(*step));
    }
    most
}

// A line at 5 percent.
fn draw_limit(page: &mut Document, bins: &Bins, top: u128) {
    let count = bins.count;
    let y = 10000_u128.saturating_sub(5_000_000 / top.max(500));
    page.open_as(Tag::Path, Class::Limit);
    page.attribute(Attribute::D, format_args!("M0 {y}H{count}"));
    page.close();
}

// The steps of a version in its colour; those that are high in the colour of what is bad.
fn draw_steps(
    alloc: Global,
    page: &mut Document,
    class: Class,
    steps: &[CourseStep],
    top: u128,
) -> Result<(), AllocError> {
    let high = Some(false);
    draw_both(alloc, page, class, DrawnSteps { steps, high, top })?;
    let high = Some(true);
    draw_both(alloc, page, Class::Bad, DrawnSteps { steps, high, top })
}

// The areas of steps, and then their edges.
fn draw_both(
    alloc: Global,
    page: &mut Document,
    class: Class,
    drawn: DrawnSteps<'_>,
) -> Result<(), AllocError> {
    draw_shape(alloc, page, class, drawn, StepShape::Area)?;
    draw_shape(alloc, page, class, drawn, StepShape::Edge)
}

fn draw_shape(
    alloc: Global,
    page: &mut Document,
    class: Class,
    drawn: DrawnSteps<'_>,
    shape: StepShape,
) -> Result<(), AllocError> {
    let path = path_of_steps(alloc, drawn, shape)?;
    let opacity = match shape {
        StepShape::Area => "0.4",
        StepShape::Edge => "",
    };
    draw_path(page, class, opacity, path.as_str());
    Ok(())
}
