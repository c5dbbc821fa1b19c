//! Notes a place in a log, so that no two of a list begin alike, and none becomes less.

ghost use Rattle.std.specs.Prelude.{◌≡◌, Any, IfOk, filter, not};
ghost use Rattle.report_state.specs.Places as specs;

use crate::places::LogPlace;
use std::alloc::{AllocError, Global};

fn begins_with(bytes: &[u8], beginning: &[u8]) -> bool
    ensures { result ≡ specs.begins_with bytes.now beginning.now }
{
    let mut text = bytes;
    let mut left = beginning;
    while let [wanted, more @ ..] = left {
        let [found, rest @ ..] = text else {
            return false;
        };
        if found != wanted {
            return false;
        }
        text = rest;
        left = more;
    }
    true
}

impl LogPlace {
    /// Whether both may be places in one log: one begins as the other does.
    pub fn is_alike(&self, other: &LogPlace) -> bool
        ensures { result ≡ specs.are_alike self.now other.now }
    {
        begins_with(&self.beginning, &other.beginning)
            || begins_with(&other.beginning, &self.beginning)
    }

    // Of two that begin alike the longer text, and the greater number of bytes.
    fn join(self, alloc: Global, other: &LogPlace) -> Result<LogPlace, AllocError>
        ensures { IfOk result (λ joined. joined ≡ specs.join self other.now) }
    {
        let LogPlace { beginning, counted } = self;
        let counted = counted.max(other.counted);
        if begins_with(&beginning, &other.beginning) {
            return Ok(LogPlace { beginning, counted });
        }
        drop(beginning);
        let beginning = Vec::from_slice(alloc, other.beginning.as_slice())?;
        Ok(LogPlace { beginning, counted })
    }
}

fn joined_with(alloc: Global, place: LogPlace, others: &[LogPlace]) -> Result<LogPlace, AllocError>
    ensures { IfOk result (λ joined. joined ≡ specs.joined_with place others.now) }
{
    let mut joined = place;
    let mut left = others;
    while let [other, rest @ ..] = left {
        if joined.is_alike(other) {
            joined = joined.join(alloc, other)?;
        }
        left = rest;
    }
    Ok(joined)
}

// The places that begin otherwise.
fn unlike(
    alloc: Global,
    places: Vec<LogPlace>,
    place: &LogPlace,
) -> Result<Vec<LogPlace>, AllocError>
    ensures { IfOk result (λ others. others.items
        ≡ filter (λ other. not (specs.are_alike place.now other)) places.items) }
{
    let mut others = Vec::new(alloc);
    for other in places {
        if !place.is_alike(&other) {
            others.push(other)?;
        }
    }
    Ok(others)
}

/// Notes the place up to which a log is now counted. It is the first of the list then, and those
/// that begin alike are left out.
pub fn note_place(
    alloc: Global,
    places: Vec<LogPlace>,
    place: LogPlace,
) -> Result<Vec<LogPlace>, AllocError>
    ensures keeps { IfOk result (λ new. specs.KeepsApart places.items new.items) }
    ensures noted { IfOk result (λ new. Any (specs.GoesOn place) new.items) }
{
    let joined = joined_with(alloc, place, places.as_slice())?;
    let mut noted = unlike(alloc, places, &joined)?;
    noted.insert(0, joined)?;
    Ok(noted)
}
