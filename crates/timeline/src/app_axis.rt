//! The times of an app's strips in a page.

ghost use Rattle.timeline.specs.Bins.{AreBins};

use crate::axis::step_for;
use crate::bins::Bins;
use crate::marks::LAST_MINUTE;
use crate::minute_text::{clock_in, date_in, day_in, text_of_minute};
use crate::page_strip::{open_label, part_of};
use markup::{Attribute, Class, Document, Tag};

/// Adds the times at which the bins begin and end, and how long a bin is: such as `09:21 to 10:57
/// UTC on 2026-12-01, by the minute`.
pub(crate) fn draw_heading(page: &mut Document, bins: &Bins) {
    let first = text_of_minute(bins.start.min(LAST_MINUTE));
    let last = text_of_minute(bins.start.saturating_add(bins.span).min(LAST_MINUTE));
    let (first, last) = (first.as_str(), last.as_str());
    let (day, from) = (date_in(first), clock_in(first));
    let (last_day, to) = (date_in(last), clock_in(last));
    page.open(Tag::Subheading);
    if day == last_day {
        page.text(format_args!("{from} to {to} UTC on {day}"));
    } else {
        page.text(format_args!("{day} {from} to {last_day} {to} UTC"));
    }
    put_length(page, bins.width.saturating_mul(bins.unit));
    page.close();
    page.line();
}

// How long a bin is.
fn put_length(page: &mut Document, minutes: u64) {
    let is_in_hours = minutes % 60 == 0;
    let number = if is_in_hours { minutes / 60 } else { minutes };
    let unit = if is_in_hours { "hour" } else { "minute" };
    if number == 1 {
        page.text(format_args!(", by the {unit}"));
    } else {
        page.text(format_args!(", by {number} {unit}s"));
    }
}

/// Draws at most 8 times, at multiples of a step, and none after the bins or the year 9999.
pub(crate) fn draw_axis(page: &mut Document, bins: &Bins)
    requires { AreBins bins.now }
{
    let step = step_for(bins.span);
    let last = bins.start.saturating_add(bins.span).min(LAST_MINUTE);
    page.open_as(Tag::Svg, Class::Axis);
    page.attribute(Attribute::Xmlns, "http://www.w3.org/2000/svg");
    page.attribute(Attribute::AriaHidden, "true");
    for number in bins.start.div_ceil(step)..=last / step {
        let minute = number.saturating_mul(step).min(LAST_MINUTE);
        open_label(page, part_of(bins, minute, 1000));
        put_time(page, step, minute);
        page.close();
    }
    page.close();
    page.line();
}

// The time of day; if all are at midnight the date.
fn put_time(page: &mut Document, step: u64, minute: u64) {
    let text = text_of_minute(minute);
    let text = text.as_str();
    page.text(if step < 1440 {
        clock_in(text)
    } else {
        day_in(text)
    });
}
