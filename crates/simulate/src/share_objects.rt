//! How many buckets get which release, as JSON: an object for each app.

ghost use Rattle.std.specs.Prelude.{◌≡◌, ◌++◌, IfOk, OnOk, map, option_copied};
ghost use Rattle.serde_json.specs.View.{view};
ghost use Rattle.simulate.specs.Objects as specs;
ghost use Rattle.simulate.specs.Shown.{versions_of, versions_or_none};

use crate::choices::Choices;
use crate::counts::count_buckets;
use crate::labels::{release_count, version_at};
use crate::simulated::Simulated;
use json_value::{ObjectBuilder, push_value};
use ruleset::App;
use serde_json::Value;
use std::alloc::{AllocError, Global};

/// The release of an app that a choice names, with its number and version; null is none.
pub fn release_object(alloc: Global, app: Option<&App>, choice: usize) -> Result<Value, AllocError>
    ensures { IfOk result (λ value. view value
        ≡ specs.release_object (versions_or_none (option_copied app.entry)) choice) }
{
    if choice == 0 {
        return Ok(Value::Null);
    }
    let mut object = ObjectBuilder::new(alloc);
    object.put_number("release", choice as u64);
    object.put_text("version", version_at(app, choice));
    object.finish()
}

/// An object for each app, in the ruleset's order.
pub fn app_objects(alloc: Global, simulated: &Simulated) -> Result<Vec<Value>, AllocError>
    ensures { IfOk result (λ values. map view values.items
        ≡ specs.app_objects simulated.now.apps simulated.now.chosen) }
{
    let mut values = Vec::new(alloc);
    let mut apps = simulated.apps();
    let mut chosen = simulated.chosen();
    while let [app, more_apps @ ..] = apps {
        let [choices, more_chosen @ ..] = chosen else {
            return Ok(values);
        };
        let value = app_object(alloc, app, choices)?;
        push_value(&mut values, value)?;
        apps = more_apps;
        chosen = more_chosen;
    }
    Ok(values)
}

fn app_object(alloc: Global, app: &App, choices: &Choices) -> Result<Value, AllocError>
    ensures { IfOk result (λ value. view value ≡ specs.app_object app.now choices.now) }
{
    let mut object = ObjectBuilder::new(alloc);
    object.put_text("appid", app.appid());
    object.put_list("shares", share_objects(alloc, app, choices));
    object.finish()
}

fn share_objects(alloc: Global, app: &App, choices: &Choices) -> Result<Vec<Value>, AllocError>
    ensures { IfOk result (λ values. map view values.items
        ≡ specs.share_objects (versions_of app.now) choices.now) }
{
    let counts = count_buckets(choices);
    let count = release_count(Some(app));
    let mut values = Vec::new(alloc);
    let mut choice = 0;
    while choice <= count {
        push_share_if_any(&mut values, app, choice, counts[choice])?;
        choice += 1;
    }
    Ok(values)
}

#[tactic(auto, unfolding(crate::specs::Objects::share_if_any))]
fn push_share_if_any(
    values: &mut Vec<Value>,
    app: &App,
    choice: usize,
    count: u32,
) -> Result<(), AllocError>
    ensures { OnOk result (map view values.new.items ≡ map view values.old.items
        ++ specs.share_if_any (versions_of app.now) choice count) }
{
    if count == 0 {
        return Ok(());
    }
    let value = share_object(*values.allocator(), app, choice, count)?;
    push_value(values, value)
}

fn share_object(alloc: Global, app: &App, choice: usize, count: u32) -> Result<Value, AllocError>
    ensures { IfOk result (λ value. view value
        ≡ specs.share_object (versions_of app.now) choice count) }
{
    let mut object = ObjectBuilder::new(alloc);
    object.put_number("buckets", count as u64);
    object.put("offer", release_object(alloc, Some(app), choice));
    object.finish()
}
