//! The legend of an app: its versions, with their colours and counts.

ghost use Rattle.std.specs.Prelude.{◌≡◌, IfOk};
ghost use Rattle.timeline.specs.Versions as specs;

use crate::layers::next_colour;
use crate::marks::{Series, drawn_count};
use markup::{Attribute, Document, Tag};
use std::alloc::{AllocError, Global};
use std::collections::BTreeMap;

/// The update checks, offers, ended installs and failed installs of a version.
#[derive(Clone, Copy)]
pub struct VersionCounts {
    pub asks: u64,
    pub offers: u64,
    pub installs: u64,
    pub failures: u64,
}

/// Draws a row for each version, from colour 1 on.
pub(crate) fn draw_legend<'a>(
    alloc: Global,
    picture: &mut Document,
    rows: &BTreeMap<String, u64>,
    app: &'a str,
    versions: &'a [String],
) -> Result<(), AllocError> {
    picture.label(80, 455, "version");
    picture.end_label(540, 455, "asks");
    picture.end_label(640, 455, "offers");
    picture.end_label(740, 455, "installs");
    picture.end_label(840, 455, "failures");
    let mut top: u64 = 462;
    let mut colour = 1;
    for version in versions {
        let counts = counts_of_version(alloc, rows, app, version.as_str())?;
        draw_row(picture, top, colour, version.as_str(), counts);
        top = top.saturating_add(20);
        colour = next_colour(colour);
    }
    Ok(())
}

/// The counts of a version. Also returns `AllocError` if a number overflows 64 bits.
pub(crate) fn counts_of_version<'a>(
    alloc: Global,
    rows: &BTreeMap<String, u64>,
    app: &'a str,
    version: &'a str,
) -> Result<VersionCounts, AllocError>
    ensures { IfOk result
        (λ counts. counts ≡ specs.counts_of_version rows.now.entries app.now version.now) }
{
    Ok(VersionCounts {
        asks: drawn_count(alloc, rows, Series::of_all("asks", app).of_version(version))?,
        offers: drawn_count(
            alloc,
            rows,
            Series::of_all("offers", app).of_version(version),
        )?,
        installs: drawn_count(
            alloc,
            rows,
            Series::of_all("installs", app).of_version(version),
        )?,
        failures: drawn_count(
            alloc,
            rows,
            Series::of_all("failures", app).of_version(version),
        )?,
    })
}

fn draw_row(picture: &mut Document, top: u64, colour: usize, version: &str, counts: VersionCounts) {
    picture.open(Tag::Rect);
    picture.attribute(Attribute::Width, "12");
    picture.attribute(Attribute::Height, "12");
    picture.attribute(Attribute::X, "60");
    picture.attribute(Attribute::Y, top);
    picture.colour(Attribute::Fill, colour);
    picture.close();
    let y = top.saturating_add(11);
    picture.label(80, y, version);
    picture.end_label(540, y, counts.asks);
    picture.end_label(640, y, counts.offers);
    picture.end_label(740, y, counts.installs);
    picture.end_label(840, y, counts.failures);
    picture.line();
}
