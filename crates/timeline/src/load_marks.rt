//! The loads of a log, as lines across an app's strips.

ghost use Rattle.std.specs.Prelude.{◌≡◌, ◌<◌, IfOk};
ghost use Rattle.timeline.specs.Loads as specs;

use crate::axis::across;
use crate::bins::Bins;
use crate::marks::{added, first, rest};
use markup::{Attribute, Document, Tag};
use moments::minute_in;
use std::alloc::AllocError;
use std::collections::BTreeMap;

/// Draws a line for each load within the bins, with its generation above it, unless that would
/// begin before the last label ends. A label takes 70 pixels.
pub(crate) fn draw_loads(picture: &mut Document, bins: &Bins, loads: &BTreeMap<String, u64>)
    requires { 0 < bins.now.span }
{
    let mut free: u128 = 0;
    for (name, _count) in loads.iter() {
        if let Some(minute) = load_minute(bins, name.as_str()) {
            let x = across(bins, minute);
            draw_line(picture, x);
            if x >= free {
                draw_label(picture, x, first(rest(name.as_str())));
                free = x.saturating_add(70);
            }
        }
    }
}

/// The number of loads outside the bins. Also returns `AllocError` if it overflows 64 bits.
pub(crate) fn loads_outside(bins: &Bins, loads: &BTreeMap<String, u64>) -> Result<u64, AllocError>
    ensures { IfOk result (λ n. n ≡ specs.loads_outside bins.now loads.now.entries) }
{
    let mut count = 0;
    for (name, n) in loads.iter() {
        count = added(count, outside(bins, name.as_str(), *n))?;
    }
    Ok(count)
}

fn outside(bins: &Bins, name: &str, n: u64) -> u64
    ensures { result ≡ specs.outside bins.now name.now n }
{
    if load_minute(bins, name).is_none() {
        n
    } else {
        0
    }
}

/// The minute of a load, if it is within the bins.
pub(crate) fn load_minute(bins: &Bins, name: &str) -> Option<u64>
    ensures { result ≡ specs.load_minute bins.now name.now }
{
    match minute_in(first(name)) {
        Some(minute) => minute_within(bins, minute),
        None => None,
    }
}

/// The same minute, if it is within the bins.
pub(crate) fn minute_within(bins: &Bins, minute: u64) -> Option<u64>
    ensures { result ≡ specs.minute_within bins.now minute }
{
    if minute < bins.start || minute - bins.start >= bins.span {
        return None;
    }
    Some(minute)
}

/// Whether one of these rows has the time and the generation of this one.
// open: when it has: rows.
pub fn is_load_among(loads: &[&str], name: &str) -> bool {
    for load in loads {
        if first(load) == first(name) && first(rest(load)) == first(rest(name)) {
            return true;
        }
    }
    false
}

// A dashed line across the three strips, over a white line.
fn draw_line(picture: &mut Document, x: u128) {
    picture.open(Tag::Path);
    picture.attribute(Attribute::Stroke, "rgb(255,255,255)");
    picture.attribute(Attribute::D, format_args!("M{x} 60v90m0 30v90m0 30v90"));
    picture.close();
    picture.open(Tag::Path);
    picture.attribute(Attribute::Stroke, "rgb(0,0,0)");
    picture.attribute(Attribute::StrokeDasharray, "4 3");
    picture.attribute(Attribute::D, format_args!("M{x} 60v90m0 30v90m0 30v90"));
    picture.close();
    picture.line();
}

fn draw_label(picture: &mut Document, x: u128, generation: &str) {
    picture.open(Tag::Text);
    picture.attribute(Attribute::TextAnchor, "middle");
    picture.attribute(Attribute::FontSize, "12");
    picture.attribute(Attribute::Y, "36");
    picture.attribute(Attribute::X, x);
    picture.text(format_args!("load {generation}"));
    picture.close();
    picture.line();
}
