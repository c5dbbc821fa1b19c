//! A strip of a page: its caption, its picture, and the lines across it.

ghost use Rattle.std.specs.Prelude.{◌<◌};

use crate::bins::Bins;
use crate::course_marks::CourseLines;
use markup::{Attribute, Class, Document, Tag};
use std::fmt::Display;

/// The classes of versions, in turn.
const CLASSES: [Class; 5] = [
    Class::Version1,
    Class::Version2,
    Class::Version3,
    Class::Version4,
    Class::Version5,
];

/// The class of the version with this index.
pub fn class_of(index: usize) -> Class {
    CLASSES[index % 5]
}

/// Adds a paragraph above a strip.
pub(crate) fn caption<T: Display + Drop>(page: &mut Document, text: T) {
    page.open_as(Tag::Paragraph, Class::Muted);
    page.text(text);
    page.close();
    page.line();
}

/// Opens a strip. A bin is 1 unit wide and 10000 units high.
pub(crate) fn open_strip(page: &mut Document, bins: &Bins) {
    let count = bins.count;
    page.open_as(Tag::Svg, Class::Strip);
    page.attribute(Attribute::Xmlns, "http://www.w3.org/2000/svg");
    page.attribute(Attribute::ViewBox, format_args!("0 0 {count} 10000"));
    page.attribute(Attribute::PreserveAspectRatio, "none");
    page.attribute(Attribute::AriaHidden, "true");
    page.line();
}

/// Closes a strip after the lines of steps and of loads.
pub(crate) fn close_strip(page: &mut Document, lines: &CourseLines) {
    draw_path(page, Class::Axis, "", lines.steps.as_str());
    draw_path(page, Class::Load, "", lines.loads.as_str());
    page.close();
    page.line();
}

/// Draws a path, unless it is empty. An empty opacity is that of the class.
pub(crate) fn draw_path(page: &mut Document, class: Class, opacity: &str, path: &str) {
    if path.is_empty() {
        return;
    }
    page.open_as(Tag::Path, class);
    if !opacity.is_empty() {
        page.attribute(Attribute::FillOpacity, opacity);
    }
    page.attribute(Attribute::D, path);
    page.close();
}

/// Opens a label at this part of the width, in tenths of a percent.
pub(crate) fn open_label(page: &mut Document, tenths: u128) {
    let whole = tenths / 10;
    let tenth = tenths % 10;
    page.open(Tag::Text);
    page.attribute(Attribute::X, format_args!("{whole}.{tenth}%"));
    page.attribute(Attribute::Y, "14");
}

/// How far a minute is from the first, if all bins together take `whole`.
pub(crate) fn part_of(bins: &Bins, minute: u64, whole: u64) -> u128
    requires { 0 < bins.now.span }
{
    minute.saturating_sub(bins.start) as u128 * whole as u128 / bins.span as u128
}
