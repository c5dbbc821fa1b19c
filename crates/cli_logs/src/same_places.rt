//! Whether the places in logs are the ones from before.

use report_state::LogPlace;
use std::alloc::{AllocError, Global};

/// The same places once more.
pub(crate) fn copies_of(alloc: Global, places: &[LogPlace]) -> Result<Vec<LogPlace>, AllocError> {
    let mut copies = Vec::new(alloc);
    for place in places {
        copies.push(LogPlace {
            beginning: Vec::from_slice(alloc, place.beginning.as_slice())?,
            counted: place.counted,
        })?;
    }
    Ok(copies)
}

/// Whether both are the same places in the same order.
pub(crate) fn are_same(places: &[LogPlace], others: &[LogPlace]) -> bool {
    if places.len() != others.len() {
        return false;
    }
    for (place, other) in places.iter().zip(others.iter()) {
        if !is_same(place, other) {
            return false;
        }
    }
    true
}

fn is_same(place: &LogPlace, other: &LogPlace) -> bool {
    place.counted == other.counted && place.beginning.as_slice() == other.beginning.as_slice()
}
