//! Intervals: neighbouring segments of a line, as one range of numbers.

use diff_space::Dimension;
use std::alloc::{AllocError, Global};

/// The numbers from `low` to `high`, both included.
#[derive(Clone, Copy)]
pub(crate) struct NumberRange {
    pub low: u128,
    pub high: u128,
}

impl NumberRange {
    /// Whether it is one number.
    pub(crate) fn is_single(self) -> bool {
        self.low == self.high
    }
}

/// The numbers of a segment.
pub(crate) fn interval_of(dimension: &Dimension, segment: usize) -> NumberRange {
    let low = match dimension.starts.get(segment) {
        Some(start) => *start,
        None => 0,
    };
    let high = match dimension.starts.get(segment.saturating_add(1)) {
        Some(next) => next.saturating_sub(1),
        None => dimension.last,
    };
    NumberRange { low, high }
}

// Adds an interval, or joins it with the last one, after which it comes.
fn push_interval(intervals: &mut Vec<NumberRange>, next: NumberRange) -> Result<(), AllocError> {
    let joined = match intervals.pop() {
        None => next,
        Some(before) if before.high.saturating_add(1) == next.low => NumberRange {
            low: before.low,
            high: next.high,
        },
        Some(before) => {
            intervals.push(before)?;
            next
        }
    };
    Ok(intervals.push(joined)?)
}

/// The intervals of some segments, which rise.
pub(crate) fn intervals_of(
    alloc: Global,
    dimension: &Dimension,
    segments: &[u16],
) -> Result<Vec<NumberRange>, AllocError> {
    let mut intervals = Vec::new(alloc);
    for segment in segments {
        push_interval(&mut intervals, interval_of(dimension, *segment as usize))?;
    }
    Ok(intervals)
}
