//! The three strips of an app: the shares of versions in update checks and in offers, and the rate
//! of failures.

ghost use Rattle.timeline.specs.Bins.{AreBins};

use crate::app_panel::PictureSource;
use crate::bins::Bins;
use crate::counts::{counts_by_bin, no_counts};
use crate::layers::{draw_layers, next_colour};
use crate::marks::{Series, drawn_count};
use crate::steps::{CourseStep, DrawnSteps, StepShape, path_of_steps, steps_of};
use markup::{Attribute, Document, Tag};
use std::alloc::{AllocError, Global};

/// The width and the height of a strip, and its distance from the left, in pixels.
const WIDTH: u64 = 780;

const HEIGHT: u64 = 90;

const LEFT: u64 = 60;

/// Draws the strips of an app: the shares of versions in its update checks and in its offers, and
/// its failures.
pub(crate) fn draw_strips<'a>(
    alloc: Global,
    picture: &mut Document,
    source: &PictureSource<'_>,
    app: &'a str,
    versions: &'a [String],
) -> Result<(), AllocError>
    requires { AreBins source.now.bins }
{
    draw_shares(
        alloc,
        picture,
        source,
        Series::of_all("asks", app),
        versions,
        60,
    )?;
    draw_shares(
        alloc,
        picture,
        source,
        Series::of_all("offers", app),
        versions,
        180,
    )?;
    draw_rates(alloc, picture, source, app, versions, 300)
}

// A version's share in each bin is its part of all counts of the series.
fn draw_shares<'a>(
    alloc: Global,
    picture: &mut Document,
    source: &PictureSource<'_>,
    drawn: Series<'a>,
    versions: &'a [String],
    top: u64,
) -> Result<(), AllocError>
    requires { AreBins source.now.bins }
{
    let what = drawn.what;
    let count = drawn_count(alloc, source.rows, drawn)?;
    picture.label(LEFT, top.saturating_sub(6), format_args!("{what}: {count}"));
    picture.line();
    draw_strip(alloc, picture, source, drawn, versions, top)
}

// The failures of each version, as shares of its own installs.
fn draw_rates<'a>(
    alloc: Global,
    picture: &mut Document,
    source: &PictureSource<'_>,
    app: &'a str,
    versions: &'a [String],
    top: u64,
) -> Result<(), AllocError>
    requires { AreBins source.now.bins }
{
    let ended = drawn_count(alloc, source.rows, Series::of_all("installs", app))?;
    let failed = drawn_count(alloc, source.rows, Series::of_all("failures", app))?;
    picture.label(
        LEFT,
        top.saturating_sub(6),
        format_args!("failures by version, of its own installs: {failed} of {ended}"),
    );
    picture.line();
    open_strip(picture, &source.bins, top);
    let mut colour = 1;
    for version in versions {
        let steps = steps_of_version(alloc, source, app, version.as_str())?;
        draw_steps(alloc, picture, colour, steps.as_slice())?;
        colour = next_colour(colour);
    }
    picture.close();
    picture.line();
    draw_border(picture, top);
    Ok(())
}

fn draw_steps(
    alloc: Global,
    picture: &mut Document,
    colour: usize,
    steps: &[CourseStep],
) -> Result<(), AllocError> {
    if steps.is_empty() {
        return Ok(());
    }
    let (high, top) = (None, 10000);
    let drawn = DrawnSteps { steps, high, top };
    draw_shape(alloc, picture, colour, drawn, StepShape::Area)?;
    draw_shape(alloc, picture, colour, drawn, StepShape::Edge)?;
    picture.line();
    Ok(())
}

fn draw_shape(
    alloc: Global,
    picture: &mut Document,
    colour: usize,
    drawn: DrawnSteps<'_>,
    shape: StepShape,
) -> Result<(), AllocError> {
    let path = path_of_steps(alloc, drawn, shape)?;
    picture.open(Tag::Path);
    picture.colour(Attribute::Fill, colour);
    match shape {
        StepShape::Area => picture.attribute(Attribute::FillOpacity, "0.3"),
        StepShape::Edge => (),
    }
    picture.attribute(Attribute::D, path.as_str());
    picture.close();
    Ok(())
}

/// The steps of a version's installs.
pub(crate) fn steps_of_version<'a>(
    alloc: Global,
    source: &PictureSource<'_>,
    app: &'a str,
    version: &'a str,
) -> Result<Vec<CourseStep>, AllocError>
    requires { AreBins source.now.bins }
{
    let installs = Series::of_all("installs", app).of_version(version);
    let failures = Series::of_all("failures", app).of_version(version);
    let installs = counts_by_bin(alloc, source.rows, installs, &source.bins)?;
    let failures = counts_by_bin(alloc, source.rows, failures, &source.bins)?;
    steps_of(alloc, installs.as_slice(), failures.as_slice())
}

// The parts that versions have of all counts of a series in each bin.
fn draw_strip<'a>(
    alloc: Global,
    picture: &mut Document,
    source: &PictureSource<'_>,
    drawn: Series<'a>,
    versions: &'a [String],
    top: u64,
) -> Result<(), AllocError>
    requires { AreBins source.now.bins }
{
    let totals = counts_by_bin(alloc, source.rows, drawn, &source.bins)?;
    let mut below = no_counts(alloc, &source.bins)?;
    open_strip(picture, &source.bins, top);
    draw_layers(
        alloc,
        picture,
        source,
        drawn,
        versions,
        totals.as_slice(),
        below.as_mut_slice(),
    )?;
    picture.close();
    picture.line();
    draw_border(picture, top);
    Ok(())
}

// A bin is 1 unit wide, and 10000 units high.
fn open_strip(picture: &mut Document, bins: &Bins, top: u64) {
    let count = bins.count;
    picture.open(Tag::Svg);
    picture.attribute(Attribute::X, LEFT);
    picture.attribute(Attribute::Width, WIDTH);
    picture.attribute(Attribute::Height, HEIGHT);
    picture.attribute(Attribute::PreserveAspectRatio, "none");
    picture.attribute(Attribute::Y, top);
    picture.attribute(Attribute::ViewBox, format_args!("0 0 {count} 10000"));
    picture.attribute(Attribute::ShapeRendering, "crispEdges");
    picture.line();
}

fn draw_border(picture: &mut Document, top: u64) {
    picture.open(Tag::Rect);
    picture.attribute(Attribute::Y, top);
    picture.attribute(Attribute::X, LEFT);
    picture.attribute(Attribute::Width, WIDTH);
    picture.attribute(Attribute::Height, HEIGHT);
    picture.attribute(Attribute::Fill, "none");
    picture.attribute(Attribute::Stroke, "rgb(150,150,150)");
    picture.close();
    picture.line();
    picture.small_label("end", 54, top.saturating_add(11), "100 %");
    picture.line();
    picture.small_label("end", 54, top.saturating_add(HEIGHT), "0");
    picture.line();
}
