//! The panel of an app: its title, strips, time axis, loads and legend.

ghost use Rattle.timeline.specs.Bins.{AreBins};

use crate::axis::draw_axis;
use crate::bins::Bins;
use crate::legend::draw_legend;
use crate::load_marks::draw_loads;
use crate::strips::draw_strips;
use crate::versions::versions_in_rows;
use markup::{Attribute, Document, Tag};
use std::alloc::{AllocError, Global};
use std::collections::BTreeMap;

/// The data of a chart.
#[derive(Clone, Copy)]
pub(crate) struct PictureSource<'a> {
    /// The rows, by minute or by hour, and their bins.
    pub rows: &'a BTreeMap<String, u64>,
    pub bins: Bins,
    /// The rows of the versions, and of the loads.
    pub versions: &'a BTreeMap<String, u64>,
    pub loads: &'a BTreeMap<String, u64>,
}

/// The height of the panels of apps: each app takes 500 pixels, and each of their versions 20.
pub(crate) fn panels_height(apps: usize, versions: usize) -> u64 {
    let rows = (versions as u64).saturating_mul(20);
    (apps as u64).saturating_mul(500).saturating_add(rows)
}

/// Draws the panel of an app at the height `top`, and returns the height at which it ends.
pub(crate) fn draw_panel(
    alloc: Global,
    picture: &mut Document,
    source: &PictureSource<'_>,
    top: u64,
    app: &str,
) -> Result<u64, AllocError>
    requires { AreBins source.now.bins }
{
    let versions = versions_in_rows(alloc, source.versions, app)?;
    picture.open(Tag::Group);
    picture.attribute(Attribute::Transform, format_args!("translate(0,{top})"));
    picture.line();
    picture.label(20, 20, format_args!("app {app}"));
    picture.line();
    draw_strips(alloc, picture, source, app, versions.as_slice())?;
    draw_axis(picture, &source.bins);
    draw_loads(picture, &source.bins, source.loads);
    draw_legend(alloc, picture, source.rows, app, versions.as_slice())?;
    picture.close();
    picture.line();
    Ok(top.saturating_add(panels_height(1, versions.len())))
}
