//! The part of a log that was counted before, and its record in a state.

ghost use Rattle.std.specs.Prelude.{IfOk, IfSome};
ghost use Rattle.report_state.specs.Places.{AreApart};

use crate::noting::note_place;
use hex::FromHexError;
use json::Value;
use json_value::ObjectBuilder;
use report::{list_at, number_at, text_at};
use serde_json::Value as WrittenValue;
use std::alloc::{AllocError, Global};
use std::marker::Model;

/// The place in a log up to which its lines are counted.
#[derive(Drop)]
pub struct LogPlace {
    /// The first of the counted bytes, by which the log is found again.
    pub beginning: Vec<u8>,
    /// The number of counted bytes.
    pub counted: u64,
}

impl Model for LogPlace {
    ghost use Rattle.report_state.specs.Places as specs;

    ghost Value = { specs.LogPlace };

    ghost view = { λ p. record { beginning = p.beginning.items; counted = p.counted } };
}

// Adds the place that a value says, and returns whether it says one.
fn add_place(
    alloc: Global,
    places: &mut Vec<LogPlace>,
    value: &Value<'_>,
) -> Result<bool, AllocError> {
    let Some(counted) = number_at(value, "counted") else {
        return Ok(false);
    };
    let Some(text) = text_at(value, "beginning") else {
        return Ok(false);
    };
    match hex::decode(alloc, text.as_bytes()) {
        Ok(beginning) => {
            places.push(LogPlace { beginning, counted })?;
            Ok(true)
        }
        Err(FromHexError::OutOfMemory) => Err(AllocError),
        Err(_) => Ok(false),
    }
}

// The places that values say; none if one of them is malformed.
fn said_places(alloc: Global, state: &Value<'_>) -> Result<Option<Vec<LogPlace>>, AllocError> {
    let Some(values) = list_at(state, "logs") else {
        return Ok(None);
    };
    let mut places = Vec::new(alloc);
    for value in values {
        if !add_place(alloc, &mut places, value)? {
            return Ok(None);
        }
    }
    Ok(Some(places))
}

// The places in their order, those that begin alike joined into one.
fn apart(alloc: Global, said: Vec<LogPlace>) -> Result<Vec<LogPlace>, AllocError>
    ensures { IfOk result (λ places. AreApart places.items) }
{
    let mut places = Vec::new(alloc);
    let mut left = said;
    while let Some(place) = left.pop() {
        places = note_place(alloc, places, place)?;
    }
    Ok(places)
}

/// The places of a state's member `logs`; none if one of them is malformed. States of earlier
/// versions may have two places in one log.
pub(crate) fn places_in(
    alloc: Global,
    state: &Value<'_>,
) -> Result<Option<Vec<LogPlace>>, AllocError>
    ensures { IfOk result (λ o. IfSome o (λ places. AreApart places.items)) }
{
    match said_places(alloc, state)? {
        Some(said) => Ok(Some(apart(alloc, said)?)),
        None => Ok(None),
    }
}

fn place_value(alloc: Global, place: &LogPlace) -> Result<WrittenValue, AllocError> {
    let beginning = hex::encode(alloc, place.beginning.as_slice())?;
    let mut value = ObjectBuilder::new(alloc);
    value.put("beginning", Ok(WrittenValue::String(beginning)));
    value.put_number("counted", place.counted);
    value.finish()
}

/// The member `logs` of a state.
pub(crate) fn place_values(
    alloc: Global,
    places: &[LogPlace],
) -> Result<Vec<WrittenValue>, AllocError> {
    let mut values = Vec::with_capacity(alloc, places.len())?;
    for place in places {
        values.push(place_value(alloc, place)?)?;
    }
    Ok(values)
}
