//! The whole chart.

ghost use Rattle.std.specs.Prelude.{◌≡◌, IfOk, string_bytes};
ghost use Rattle.markup.specs.WellFormed.{IsDocument};
ghost use Rattle.timeline.specs.Bins.{AreBins};
ghost use Rattle.timeline.specs.Loads as specs;

use crate::app_panel::{PictureSource, draw_panel, panels_height};
use crate::bins::Bins;
use crate::course::{DrawnCourse, course_of, source_of};
use crate::load_marks::loads_outside;
use crate::marks::{added, first};
use crate::times::Times;
use markup::{Attribute, Document, Tag};
use report::{Report, Tally};
use std::alloc::{AllocError, Global};
use std::collections::BTreeMap;

/// The height of what is above the panels, in pixels.
const HEAD: u64 = 60;

/// The numbers that a chart leaves out.
#[derive(Clone, Copy)]
pub(crate) struct Undrawn {
    /// Counts without a row in the table.
    pub counts: u64,
    /// Update checks of apps after the first 256.
    pub asks: u64,
    /// Loads after the first 256, and loads outside the bins.
    pub loads: u64,
}

/// The chart of a report's counts over time, as the text of an SVG file. Also returns `AllocError`
/// if a number overflows 64 bits.
// open: when it fails; which numbers the chart shows (rows compare it).
pub fn draw_course(alloc: Global, report: &Report) -> Result<String, AllocError>
    ensures { IfOk result (λ text. IsDocument (string_bytes text)) }
{
    match course_of(report, Times::of_report(report)) {
        Some(course) => draw_over(alloc, course),
        None => draw_none(alloc),
    }
}

// An empty chart.
fn draw_none(alloc: Global) -> Result<String, AllocError>
    ensures { IfOk result (λ text. IsDocument (string_bytes text)) }
{
    let mut picture = Document::picture(alloc, HEAD)?;
    picture.label(
        20,
        30,
        "No ask with a time from 1970-01-01T00:00:00Z to 9999-12-30T22:00:00Z.",
    );
    picture.line();
    picture.finish()
}

fn draw_over<'a>(alloc: Global, course: DrawnCourse<'a>) -> Result<String, AllocError>
    requires { AreBins course.bins }
    ensures { IfOk result (λ text. IsDocument (string_bytes text)) }
{
    let undrawn = undrawn_of(
        course.update_checks,
        course.loads,
        course.counts,
        &course.bins,
    )?;
    let source = source_of(course);
    draw_panels(alloc, &source, course.update_checks.rows(), undrawn)
}

fn undrawn_of(
    update_checks: &Tally,
    loads: &Tally,
    counts: &Tally,
    bins: &Bins,
) -> Result<Undrawn, AllocError>
    ensures { IfOk result (λ undrawn. undrawn
        ≡ specs.undrawn_of update_checks.now loads.now counts.now bins.now) }
{
    let outside = loads_outside(bins, loads.rows())?;
    Ok(Undrawn {
        counts: counts.others(),
        asks: update_checks.others(),
        loads: added(loads.others(), outside)?,
    })
}

// The panels of all apps, one below the other.
fn draw_panels(
    alloc: Global,
    source: &PictureSource<'_>,
    apps: &BTreeMap<String, u64>,
    undrawn: Undrawn,
) -> Result<String, AllocError>
    requires { AreBins source.now.bins }
    ensures { IfOk result (λ text. IsDocument (string_bytes text)) }
{
    let mut picture = Document::picture(alloc, height_of(source, apps))?;
    draw_heading(&mut picture, &source.bins);
    draw_undrawn(&mut picture, undrawn);
    let mut top = HEAD;
    for (app, _asks) in apps.iter() {
        top = draw_panel(alloc, &mut picture, source, top, app.as_str())?;
    }
    picture.finish()
}

fn height_of(source: &PictureSource<'_>, apps: &BTreeMap<String, u64>) -> u64 {
    let mut versions: usize = 0;
    for (name, _count) in source.versions.iter() {
        if apps.contains_key(first(name.as_str())) {
            versions = versions.saturating_add(1);
        }
    }
    HEAD.saturating_add(panels_height(apps.len(), versions))
}

fn draw_heading(picture: &mut Document, bins: &Bins) {
    let minutes = bins.width.saturating_mul(bins.unit);
    picture.open(Tag::Text);
    picture.attribute(Attribute::X, "20");
    picture.attribute(Attribute::Y, "30");
    picture.text("The share of each version (grey: those beyond 256); dashed lines are loads. ");
    picture.text(format_args!("Times are in UTC. Minutes a bin: {minutes}"));
    picture.close();
    picture.line();
}

// What the chart leaves out, if anything.
fn draw_undrawn(picture: &mut Document, undrawn: Undrawn) {
    if undrawn.counts == 0 && undrawn.asks == 0 && undrawn.loads == 0 {
        return;
    }
    picture.open(Tag::Text);
    picture.attribute(Attribute::X, "20");
    picture.attribute(Attribute::Y, "50");
    picture.text("Not drawn:");
    draw_undrawn_number(picture, undrawn.counts, " counts");
    draw_undrawn_number(picture, undrawn.asks, " asks of other apps");
    draw_undrawn_number(picture, undrawn.loads, " loads");
    picture.close();
    picture.line();
}

// A number that the chart leaves out, unless it is 0.
fn draw_undrawn_number(picture: &mut Document, n: u64, what: &str) {
    if n > 0 {
        picture.text(format_args!(" {n}{what}"));
    }
}
