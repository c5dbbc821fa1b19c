//! A simulation as a line of JSON.

ghost use Rattle.std.specs.Prelude.{◌≡◌, IfOk, string_bytes};
ghost use Rattle.serde_json.specs.View.{view};
ghost use Rattle.json_value.specs.Bytes.{json_line};
ghost use Rattle.simulate.specs.Objects as specs;

use crate::lost::is_lossy;
use crate::move_objects::moving_objects;
use crate::share_objects::app_objects;
use crate::simulated::Simulated;
use json_value::{ObjectBuilder, json_line};
use serde_json::Value;
use std::alloc::{AllocError, Global};

/// A simulation as a line of JSON, ended by a line feed: `{"apps":[{"appid":"x","shares":[..]}]}`
/// with an object in `shares` for each choice that some bucket makes, such as
/// `{"buckets":507,"offer":{"release":1,"version":"3.0.0"}}`. If no release is offered, `offer` is
/// null.
// open: whether an allocation fails.
pub fn shares_json(alloc: Global, simulated: &Simulated) -> Result<String, AllocError>
    ensures { IfOk result (λ text. string_bytes text
        ≡ json_line (specs.simulation_object simulated.now)) }
{
    let value = simulation_object(alloc, simulated)?;
    json_line(alloc, &value)
}

fn simulation_object(alloc: Global, simulated: &Simulated) -> Result<Value, AllocError>
    ensures { IfOk result (λ value. view value ≡ specs.simulation_object simulated.now) }
{
    let mut object = ObjectBuilder::new(alloc);
    object.put_list("apps", app_objects(alloc, simulated));
    object.finish()
}

/// The next simulation in the same form, followed by `lost` (whether some bucket loses its release)
/// and `moves`. That has an object for each app of either ruleset, and each of these one for each
/// move that some bucket makes, such as
/// `{"buckets":9493,"lost":false,"next":{"release":1,"version":"3.0.0"},"now":null}`.
// open: whether an allocation fails.
pub fn moves_json(alloc: Global, now: &Simulated, next: &Simulated) -> Result<String, AllocError>
    ensures { IfOk result (λ text. string_bytes text
        ≡ json_line (specs.comparison_object now.now next.now)) }
{
    let value = comparison_object(alloc, now, next)?;
    json_line(alloc, &value)
}

fn comparison_object(alloc: Global, now: &Simulated, next: &Simulated) -> Result<Value, AllocError>
    ensures { IfOk result (λ value. view value ≡ specs.comparison_object now.now next.now) }
{
    let lost = is_lossy(alloc, now, next)?;
    let mut object = ObjectBuilder::new(alloc);
    object.put_list("apps", app_objects(alloc, next));
    object.put_bool("lost", lost);
    object.put_list("moves", moving_objects(alloc, now, next));
    object.finish()
}
