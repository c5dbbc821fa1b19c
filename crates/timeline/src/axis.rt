//! The axis of time below an app's strips, with ticks at round times.

ghost use Rattle.std.specs.Prelude.{◌<◌};
ghost use Rattle.timeline.specs.Bins.{AreBins};

use crate::bins::Bins;
use crate::marks::LAST_MINUTE;
use crate::minute_text::{clock_in, date_in, text_of_minute};
use markup::{Attribute, Document, Tag};

/// The steps between ticks, in minutes.
const STEPS: [u64; 18] = [
    1, 2, 5, 10, 15, 30, 60, 120, 180, 360, 720, 1440, 2880, 5760, 10080, 20160, 40320, 80640,
];

/// The width of a strip, and its distance from the left, in pixels.
const WIDTH: u128 = 780;

const LEFT: u128 = 60;

/// The x position of a minute, in pixels.
pub(crate) fn across(bins: &Bins, minute: u64) -> u128
    requires { 0 < bins.now.span }
{
    LEFT + minute.saturating_sub(bins.start) as u128 * WIDTH / bins.span as u128
}

/// Draws the ticks: at most 8, at multiples of a step, and none after the bins or the year 9999.
pub(crate) fn draw_axis(picture: &mut Document, bins: &Bins)
    requires { AreBins bins.now }
{
    let step = step_for(bins.span);
    let last = bins.start.saturating_add(bins.span).min(LAST_MINUTE);
    for number in bins.start.div_ceil(step)..=last / step {
        draw_tick(picture, bins, number.saturating_mul(step).min(LAST_MINUTE));
    }
}

/// The first step that gives at most 8 ticks, or else one that does.
pub(crate) fn step_for(span: u64) -> u64
    ensures { 0 < result }
{
    for step in STEPS {
        if step > 0 && span / step < 8 {
            return step;
        }
    }
    span / 7 + 1
}

fn draw_tick(picture: &mut Document, bins: &Bins, minute: u64)
    requires { 0 < bins.now.span }
{
    let x = across(bins, minute);
    picture.open(Tag::Path);
    picture.attribute(Attribute::Stroke, "rgb(90,90,90)");
    picture.attribute(Attribute::D, format_args!("M{x} 390v6"));
    picture.close();
    draw_time(picture, x, minute);
    picture.line();
}

// The time of day, such as `08:00`, and below it the date, such as `2026-11-25`.
fn draw_time(picture: &mut Document, x: u128, minute: u64) {
    let text = text_of_minute(minute);
    let text = text.as_str();
    picture.small_label("middle", x, 410, clock_in(text));
    picture.small_label("middle", x, 425, date_in(text));
}
