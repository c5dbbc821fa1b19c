//! The bins into which a log's time is divided.

ghost use Rattle.std.specs.Prelude.{◌≡◌, ◌<◌, IfSome};
ghost use Rattle.timeline.specs.Bins as specs;
ghost use Rattle.timeline.specs.Marks.{drawn_by};

use crate::marks::{Series, any_moment, moment_of};
use std::collections::BTreeMap;

/// The maximum number of bins.
const MOST_BINS: u64 = 200;

/// The widths of bins, in minutes and in hours.
const MINUTE_WIDTHS: [u64; 7] = [1, 2, 5, 10, 15, 30, 60];

const HOUR_WIDTHS: [u64; 9] = [1, 2, 3, 6, 12, 24, 48, 168, 672];

/// The least and the greatest number in the rows.
#[derive(Clone, Copy)]
pub(crate) struct Reach {
    pub least: u64,
    pub greatest: u64,
}

/// Bins with `width` numbers each; a number is a minute or an hour.
#[derive(Clone, Copy)]
pub(crate) struct Bins {
    /// The minutes of a number: 1 or 60.
    pub unit: u64,
    pub width: u64,
    /// The index of the first bin since 1970, in bins of this width.
    pub first: u64,
    pub count: u64,
    /// The minute at which the first bin begins, and the minutes of all bins.
    pub start: u64,
    pub span: u64,
}

/// The reach of the rows, if any has a number.
pub(crate) fn reach_of(rows: &BTreeMap<String, u64>) -> Option<Reach> {
    let mut reach = None;
    for (name, _count) in rows.iter() {
        if let Some(number) = any_moment(name.as_str()) {
            reach = Some(wider(reach, number));
        }
    }
    reach
}

fn wider(reach: Option<Reach>, number: u64) -> Reach {
    match reach {
        Some(reach) => Reach {
            least: reach.least.min(number),
            greatest: reach.greatest.max(number),
        },
        None => Reach {
            least: number,
            greatest: number,
        },
    }
}

/// The bins for this reach, by minutes or by hours. `None` if there would be over 200.
// open: which bins they are, and when it is `None`: rows compare pictures.
pub(crate) fn bins_over(reach: Reach, by_hour: bool) -> Option<Bins>
    ensures { IfSome result specs.AreBins }
{
    if by_hour {
        bins_of(reach, 60, width_among(reach, &HOUR_WIDTHS))
    } else {
        bins_of(reach, 1, width_among(reach, &MINUTE_WIDTHS))
    }
}

// The first of these widths that gives at most 200 bins, or else a width that does.
fn width_among(reach: Reach, widths: &[u64]) -> u64
    ensures { 0 < result }
{
    for width in widths {
        if *width > 0 && further_bins(reach, *width) < MOST_BINS {
            return *width;
        }
    }
    reach.greatest.saturating_sub(reach.least) / 199 + 1
}

// How many bins follow the first.
fn further_bins(reach: Reach, width: u64) -> u64
    requires { 0 < width }
{
    (reach.greatest / width).saturating_sub(reach.least / width)
}

fn bins_of(reach: Reach, unit: u64, width: u64) -> Option<Bins>
    requires { 0 < width }
    ensures { IfSome result specs.AreBins }
{
    let first = reach.least / width;
    let count = further_bins(reach, width).saturating_add(1);
    let start = first.saturating_mul(width).saturating_mul(unit);
    let span = count.saturating_mul(width).saturating_mul(unit);
    if count > MOST_BINS || span == 0 || span > u64::MAX - start {
        return None;
    }
    Some(Bins {
        unit,
        width,
        first,
        count,
        start,
        span,
    })
}

// ---- indices

/// The bin of a row's name, from 0, if the series includes it.
pub(crate) fn bin_of(bins: &Bins, drawn: Series<'_>, name: &str) -> Option<u64>
    requires { 0 < bins.now.width }
    ensures place { result ≡ specs.bin_of bins.now (drawn_by drawn.entry) name.now }
    ensures within { IfSome result (λ place. place < bins.now.count) }
{
    match moment_of(drawn, name) {
        Some(moment) => bin_at(bins, moment),
        None => None,
    }
}

fn bin_at(bins: &Bins, number: u64) -> Option<u64>
    requires { 0 < bins.now.width }
    ensures place { result ≡ specs.bin_at bins.now number }
    ensures within { IfSome result (λ place. place < bins.now.count) }
{
    let number = number / bins.width;
    if number < bins.first {
        return None;
    }
    let place = number - bins.first;
    if place < bins.count {
        Some(place)
    } else {
        None
    }
}
