//! The layers of a strip: one for each version.

ghost use Rattle.std.specs.Prelude.{◌≡◌, ◌<◌, length};

use crate::app_panel::PictureSource;
use crate::counts::raise_by_version;
use crate::marks::Series;
use markup::{Attribute, Document, Tag};
use std::alloc::{AllocError, Global};
use std::fmt::Write;

/// The height of a bin, in hundredths of a percent.
const WHOLE: u128 = 10000;

/// Draws a layer for each version, from colour 1 on, and a grey layer for the rest. A layer begins
/// above the layers before it, whose counts by bin are in `below`, and reaches to the top.
pub(crate) fn draw_layers<'a>(
    alloc: Global,
    picture: &mut Document,
    source: &PictureSource<'_>,
    drawn: Series<'a>,
    versions: &'a [String],
    totals: &[u64],
    below: &mut [u64],
) -> Result<(), AllocError>
    requires wide { 0 < source.now.bins.width }
    requires all { length below.old ≡ source.now.bins.count }
{
    let mut colour = 1;
    for version in versions {
        draw_layer(alloc, picture, colour, totals, below)?;
        raise_by_version(
            alloc,
            below,
            source.rows,
            drawn,
            version.as_str(),
            &source.bins,
        )?;
        colour = next_colour(colour);
    }
    draw_layer(alloc, picture, 0, totals, below)
}

/// The colour of the next version: from 1 to 64, and then 1 again.
pub(crate) fn next_colour(colour: usize) -> usize {
    colour % 64 + 1
}

fn draw_layer(
    alloc: Global,
    picture: &mut Document,
    colour: usize,
    totals: &[u64],
    below: &[u64],
) -> Result<(), AllocError> {
    let bars = bars(alloc, totals, below)?;
    picture.open(Tag::Path);
    picture.colour(Attribute::Fill, colour);
    picture.attribute(Attribute::D, bars.as_str());
    picture.close();
    picture.line();
    Ok(())
}

fn bars(alloc: Global, totals: &[u64], below: &[u64]) -> Result<String, AllocError> {
    let mut bars = String::new(alloc);
    for place in 0..totals.len() {
        push_bar(
            &mut bars,
            place,
            number_at(totals, place),
            number_at(below, place),
        )?;
    }
    Ok(bars)
}

/// The number at this place; 0 if there is none.
pub(crate) fn number_at(numbers: &[u64], place: usize) -> u64 {
    match numbers.get(place) {
        Some(n) => *n,
        None => 0,
    }
}

// The bar of a bin, from the share of the layers below up to the top. No bar if they have all
// counts.
fn push_bar(bars: &mut String, place: usize, total: u64, below: u64) -> Result<(), AllocError> {
    if below >= total {
        return Ok(());
    }
    let height = WHOLE.saturating_sub(below as u128 * WHOLE / total as u128);
    write!(bars, "M{place} 0h1v{height}h-1z")
}
