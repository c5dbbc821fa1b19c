//! The offers and the update checks of an app in a page: a layer for each version.

ghost use Rattle.std.specs.Prelude.{◌≡◌, ◌<◌, length};
ghost use Rattle.timeline.specs.Bins.{AreBins};

use crate::app_panel::PictureSource;
use crate::counts::{counts_by_bin, no_counts, raise_by_version};
use crate::course_marks::CourseLines;
use crate::layers::number_at;
use crate::marks::Series;
use crate::page_strip::{caption, class_of, close_strip, draw_path, open_strip};
use markup::{Class, Document};
use std::alloc::{AllocError, Global};
use std::fmt::Write;

/// A strip with a layer for each version: the last one is lowest. The height is `most`, or in each
/// bin its total.
#[derive(Clone, Copy)]
struct LayeredStrip<'a> {
    drawn: Series<'a>,
    versions: &'a [String],
    totals: &'a [u64],
    most: Option<u64>,
}

/// Draws the offers of each version, as numbers; a sentence if there is none.
pub(crate) fn draw_offers<'a>(
    alloc: Global,
    page: &mut Document,
    source: &PictureSource<'_>,
    lines: &CourseLines,
    app: &'a str,
    versions: &'a [String],
) -> Result<(), AllocError>
    requires { AreBins source.now.bins }
{
    let drawn = Series::of_all("offers", app);
    let totals = counts_by_bin(alloc, source.rows, drawn, &source.bins)?;
    let most = most_of(totals.as_slice());
    if most == 0 {
        caption(page, "No version was offered.");
        return Ok(());
    }
    caption(
        page,
        format_args!("Offers of each version, at most {most} in a bin"),
    );
    let strip = LayeredStrip {
        drawn,
        versions,
        totals: totals.as_slice(),
        most: Some(most),
    };
    draw_strip(alloc, page, source, lines, strip)
}

/// Draws each version's part of the update checks in each bin; a sentence if there is none.
pub(crate) fn draw_shares<'a>(
    alloc: Global,
    page: &mut Document,
    source: &PictureSource<'_>,
    lines: &CourseLines,
    app: &'a str,
    versions: &'a [String],
) -> Result<(), AllocError>
    requires { AreBins source.now.bins }
{
    let drawn = Series::of_all("asks", app);
    let totals = counts_by_bin(alloc, source.rows, drawn, &source.bins)?;
    if most_of(totals.as_slice()) == 0 {
        caption(page, "No client made an update check.");
        return Ok(());
    }
    caption(page, "Update checks, the share of each version");
    let strip = LayeredStrip {
        drawn,
        versions,
        totals: totals.as_slice(),
        most: None,
    };
    draw_strip(alloc, page, source, lines, strip)
}

fn most_of(numbers: &[u64]) -> u64 {
    let mut most = 0;
    for n in numbers {
        if *n > most {
            most = *n;
        }
    }
    most
}

// A layer for each version, and one for the others.
fn draw_strip(
    alloc: Global,
    page: &mut Document,
    source: &PictureSource<'_>,
    lines: &CourseLines,
    strip: LayeredStrip<'_>,
) -> Result<(), AllocError>
    requires { AreBins source.now.bins }
{
    let mut below = no_counts(alloc, &source.bins)?;
    let mut above = no_counts(alloc, &source.bins)?;
    open_strip(page, &source.bins);
    draw_layers(
        alloc,
        page,
        source,
        strip,
        below.as_mut_slice(),
        above.as_mut_slice(),
    )?;
    close_strip(page, lines);
    Ok(())
}

// The layers, the lowest one first: from `below`, the counts under a layer, to `above`, the same
// with its own.
fn draw_layers(
    alloc: Global,
    page: &mut Document,
    source: &PictureSource<'_>,
    strip: LayeredStrip<'_>,
    below: &mut [u64],
    above: &mut [u64],
) -> Result<(), AllocError>
    requires wide { 0 < source.now.bins.width }
    requires below { length below.old ≡ source.now.bins.count }
    requires above { length above.old ≡ source.now.bins.count }
{
    let mut is_faint = false;
    let mut place = strip.versions.len();
    for version in strip.versions.iter().rev() {
        place = place.saturating_sub(1);
        raise_by_version(
            alloc,
            above,
            source.rows,
            strip.drawn,
            version.as_str(),
            &source.bins,
        )?;
        draw_layer(alloc, page, strip, class_of(place), is_faint, below, above)?;
        below.copy_from_slice(above);
        is_faint = strip.most.is_none();
    }
    draw_layer(
        alloc,
        page,
        strip,
        Class::Others,
        false,
        below,
        strip.totals,
    )
}

// A bar in each bin, from one count to another.
fn draw_layer(
    alloc: Global,
    page: &mut Document,
    strip: LayeredStrip<'_>,
    class: Class,
    is_faint: bool,
    from: &[u64],
    to: &[u64],
) -> Result<(), AllocError> {
    let mut path = String::new(alloc);
    for place in 0..to.len() {
        let whole = strip.most.unwrap_or(number_at(strip.totals, place));
        push_bar(
            &mut path,
            place,
            number_at(from, place),
            number_at(to, place),
            whole,
        )?;
    }
    let opacity = if is_faint { "0.3" } else { "" };
    draw_path(page, class, opacity, path.as_str());
    Ok(())
}

// A bar from one count to another, of `whole`; none if they are the same.
fn push_bar(
    path: &mut String,
    place: usize,
    from: u64,
    to: u64,
    whole: u64,
) -> Result<(), AllocError> {
    if from >= to || whole == 0 {
        return Ok(());
    }
    let top = 10000_u128.saturating_sub(to as u128 * 10000 / whole as u128);
    let bottom = 10000_u128.saturating_sub(from as u128 * 10000 / whole as u128);
    write!(path, "M{place} {top}h1V{bottom}h-1z")
}
