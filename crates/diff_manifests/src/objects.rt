//! A comparison as a line of JSON.

ghost use Rattle.std.specs.Prelude.{◌≡◌, ◌∷◌, ◌++◌, [], IfOk, OnOk, map};
ghost use Rattle.serde_json.specs.View.{view};
ghost use Rattle.diff_manifests.specs.Objects as specs;
ghost use Rattle.diff_manifests.specs.Texts as texts;

use crate::app_diff::AppDiff;
use crate::arrays::ArrayChange;
use crate::lines::is_silent;
use crate::outcome::{AppChange, AppOutcome, WhyNot};
use declarations::ArrayDeclaration;
use diff_text::row_objects;
use json_value::{ObjectBuilder, push_value};
use serde_json::Value;
use std::alloc::{AllocError, Global};

// ---- an app

fn change_name(change: AppChange) -> &'static str
    ensures { result.now ≡ specs.change_name change }
{
    match change {
        AppChange::Kept => "kept",
        AppChange::New => "new",
        AppChange::Gone => "gone",
    }
}

fn why_name(why: WhyNot) -> &'static str
    ensures { result.now ≡ specs.why_name why }
{
    match why {
        WhyNot::Program => "program",
        WhyNot::Size => "size",
    }
}

fn rows_in(alloc: Global, outcome: &AppOutcome) -> Result<Vec<Value>, AllocError>
    ensures { IfOk result (λ values. map view values.items ≡ specs.rows_in outcome.now) }
{
    match outcome {
        AppOutcome::Rows(shown) => row_objects(alloc, shown),
        _ => Ok(Vec::new(alloc)),
    }
}

fn why_object(alloc: Global, outcome: &AppOutcome) -> Result<Value, AllocError>
    ensures { IfOk result (λ value. view value ≡ specs.why_object outcome.now) }
{
    match outcome {
        AppOutcome::NotCompared(why) => Value::try_from_str(alloc, why_name(*why)),
        _ => Ok(Value::Null),
    }
}

fn is_compared(outcome: &AppOutcome) -> bool
    ensures { result ≡ texts.is_compared outcome.now }
{
    match outcome {
        AppOutcome::NotCompared(_) => false,
        _ => true,
    }
}

fn app_object(alloc: Global, diff: &AppDiff) -> Result<Value, AllocError>
    ensures { IfOk result (λ value. view value ≡ specs.app_object diff.now) }
{
    let mut object = ObjectBuilder::new(alloc);
    object.put_text("appid", diff.appid.as_str());
    object.put_bool("compared", is_compared(&diff.outcome));
    object.put_text("is", change_name(diff.change));
    object.put_bool("lost", diff.loses());
    object.put_list("rows", rows_in(alloc, &diff.outcome));
    object.put("why", why_object(alloc, &diff.outcome));
    object.finish()
}

// The objects of the apps that differ.
fn app_objects(alloc: Global, diffs: &[AppDiff]) -> Result<Vec<Value>, AllocError>
    ensures { IfOk result (λ values. map view values.items ≡ specs.app_objects diffs.now) }
{
    let mut values = Vec::new(alloc);
    let mut left = diffs;
    while let [diff, others @ ..] = left {
        if !is_silent(diff) {
            let value = app_object(alloc, diff)?;
            push_value(&mut values, value)?;
        }
        left = others;
    }
    Ok(values)
}

// ---- arrays and servers

fn text_object(alloc: Global, array: &ArrayDeclaration) -> Result<Value, AllocError>
    ensures { IfOk result (λ value. view value ≡ specs.array_text_object array.now) }
{
    Ok(Value::String(array.to_string(alloc)?))
}

fn array_object(alloc: Global, change: &ArrayChange<'_>) -> Result<Value, AllocError>
    ensures { IfOk result (λ value. view value ≡ specs.array_object change.now) }
{
    let mut object = ObjectBuilder::new(alloc);
    object.put_text("name", change.old.name());
    object.put("next", text_object(alloc, change.new));
    object.put("now", text_object(alloc, change.old));
    object.finish()
}

fn array_objects(alloc: Global, changes: &[ArrayChange<'_>]) -> Result<Vec<Value>, AllocError>
    ensures { IfOk result (λ values. map view values.items ≡ map specs.array_object changes.now) }
{
    let mut values = Vec::new(alloc);
    for change in changes {
        let value = array_object(alloc, change)?;
        push_value(&mut values, value)?;
    }
    Ok(values)
}

fn server_object(alloc: Global, old: &str, new: &str) -> Result<Value, AllocError>
    ensures { IfOk result (λ value. view value ≡ specs.server_object old.now new.now) }
{
    if old == new {
        return Ok(Value::Null);
    }
    let mut object = ObjectBuilder::new(alloc);
    object.put_text("next", new);
    object.put_text("now", old);
    object.finish()
}

// ---- the whole

/// The object of a comparison. `old` and `new` are the servers' names.
pub(crate) fn diff_object(
    alloc: Global,
    servers: (&str, &str),
    changes: &[ArrayChange<'_>],
    diffs: &[AppDiff],
    lost: bool,
    same: bool,
) -> Result<Value, AllocError>
    ensures { IfOk result (λ value. view value ≡ specs.diff_object servers.entry.0.now
        servers.entry.1.now changes.now diffs.now lost same) }
{
    let mut object = ObjectBuilder::new(alloc);
    object.put_list("apps", app_objects(alloc, diffs));
    object.put_list("arrays", array_objects(alloc, changes));
    object.put_bool("lost", lost);
    object.put_bool("same", same);
    object.put("server", server_object(alloc, servers.0, servers.1));
    object.finish()
}
