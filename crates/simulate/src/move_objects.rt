//! How many buckets move from which release to which, as JSON: an object for each app.

ghost use Rattle.std.specs.Prelude.{◌≡◌, ◌≤◌, ◌∷◌, ◌++◌, [], None, IfOk, OnOk, length, map};
ghost use Rattle.std.specs.Prelude.{option_copied};
ghost use Rattle.serde_json.specs.View.{view};
ghost use Rattle.simulate.specs.Counts.{AreMoves, choices_or_none};
ghost use Rattle.simulate.specs.Objects as specs;
ghost use Rattle.simulate.specs.Shown.{apps_gone, offered, versions_or_none};

use crate::choices::Choices;
use crate::counts::count_moves;
use crate::labels::release_count;
use crate::lost::loses;
use crate::share_objects::release_object;
use crate::simulated::{Offered, Simulated};
use json_value::{ObjectBuilder, push_value};
use ruleset::App;
use serde_json::Value;
use std::alloc::{AllocError, Global};

/// An object for each app that one of two rulesets has.
pub fn moving_objects(
    alloc: Global,
    now: &Simulated,
    next: &Simulated,
) -> Result<Vec<Value>, AllocError>
    ensures { IfOk result (λ values. map view values.items
        ≡ specs.moving_objects now.now next.now) }
{
    let none = Choices::none(alloc)?;
    let mut values = Vec::new(alloc);
    push_tables_of_next(&mut values, now, next, &none)?;
    push_gone(&mut values, now, next, &none)?;
    Ok(values)
}

// The objects of the next ruleset's apps.
fn push_tables_of_next(
    values: &mut Vec<Value>,
    now: &Simulated,
    next: &Simulated,
    none: &Choices,
) -> Result<(), AllocError>
    requires { none.now ≡ choices_or_none None }
    ensures { OnOk result (map view values.new.items ≡ map view values.old.items
        ++ specs.moving_objects_of now.now next.now next.now.apps) }
{
    let mut left = next.apps();
    while let [app, rest @ ..] = left {
        push_moving(values, now, next, none, app.appid())?;
        left = rest;
    }
    Ok(())
}

// The objects of the apps that only the current ruleset has.
fn push_gone(
    values: &mut Vec<Value>,
    now: &Simulated,
    next: &Simulated,
    none: &Choices,
) -> Result<(), AllocError>
    requires { none.now ≡ choices_or_none None }
    ensures { OnOk result (map view values.new.items ≡ map view values.old.items
        ++ specs.moving_objects_of now.now next.now (apps_gone next.now.apps now.now.apps)) }
{
    let mut left = now.apps();
    while let [app, rest @ ..] = left {
        if next.lacks(app.appid()) {
            push_moving(values, now, next, none, app.appid())?;
        }
        left = rest;
    }
    Ok(())
}

fn push_moving(
    values: &mut Vec<Value>,
    now: &Simulated,
    next: &Simulated,
    none: &Choices,
    appid: &str,
) -> Result<(), AllocError>
    requires { none.now ≡ choices_or_none None }
    ensures { OnOk result (map view values.new.items ≡ map view values.old.items
        ++ specs.moving_object now.now next.now appid.now ∷ []) }
{
    let value = moving_object(*values.allocator(), now, next, none, appid)?;
    push_value(values, value)
}

fn moving_object(
    alloc: Global,
    now: &Simulated,
    next: &Simulated,
    none: &Choices,
    appid: &str,
) -> Result<Value, AllocError>
    requires { none.now ≡ choices_or_none None }
    ensures { IfOk result (λ value. view value
        ≡ specs.moving_object now.now next.now appid.now) }
{
    let now = now.offer(none, appid);
    let next = next.offer(none, appid);
    let table = count_moves(alloc, now.1, next.1)?;
    let mut object = ObjectBuilder::new(alloc);
    object.put_text("appid", appid);
    object.put_list("moves", move_objects(alloc, now, next, table.as_slice()));
    object.finish()
}

// ---- moves

fn move_objects(
    alloc: Global,
    now: Offered<'_>,
    next: Offered<'_>,
    table: &[u32],
) -> Result<Vec<Value>, AllocError>
    requires moves { AreMoves now.1.now next.1.now table.now }
    requires all { length table.now ≡ 4225 }
    ensures { IfOk result (λ values. map view values.items ≡ specs.move_objects
        (offered (option_copied now.entry.0) now.entry.1.now)
        (offered (option_copied next.entry.0) next.entry.1.now)) }
{
    let last = release_count(now.0);
    let mut values = Vec::new(alloc);
    let mut from = 0;
    while from <= last {
        push_moves_from(&mut values, now, next, table, from)?;
        from += 1;
    }
    Ok(values)
}

fn push_moves_from(
    values: &mut Vec<Value>,
    now: Offered<'_>,
    next: Offered<'_>,
    table: &[u32],
    from: usize,
) -> Result<(), AllocError>
    requires moves { AreMoves now.1.now next.1.now table.now }
    requires all { length table.now ≡ 4225 }
    requires from { from ≤ 64 }
    ensures { OnOk result (map view values.new.items ≡ map view values.old.items
        ++ specs.objects_from (offered (option_copied now.entry.0) now.entry.1.now)
        (offered (option_copied next.entry.0) next.entry.1.now) from) }
{
    let last = release_count(next.0);
    let mut to = 0;
    while to <= last {
        let buckets = table[65 * from + to];
        push_move_if_any(values, (now.0, next.0), (from, to), buckets)?;
        to += 1;
    }
    Ok(())
}

// The object of a move, if some bucket makes it.
#[tactic(auto, unfolding(crate::specs::Objects::move_object_if_any))]
fn push_move_if_any(
    values: &mut Vec<Value>,
    apps: (Option<&App>, Option<&App>),
    choices: (usize, usize),
    count: u32,
) -> Result<(), AllocError>
    ensures { OnOk result (map view values.new.items ≡ map view values.old.items
        ++ specs.move_object_if_any (versions_or_none (option_copied apps.entry.0))
        (versions_or_none (option_copied apps.entry.1)) choices.0 choices.1 count) }
{
    if count == 0 {
        return Ok(());
    }
    let value = move_object(*values.allocator(), apps, choices, count)?;
    push_value(values, value)
}

fn move_object(
    alloc: Global,
    apps: (Option<&App>, Option<&App>),
    choices: (usize, usize),
    count: u32,
) -> Result<Value, AllocError>
    ensures { IfOk result (λ value. view value ≡ specs.move_object
        (versions_or_none (option_copied apps.entry.0))
        (versions_or_none (option_copied apps.entry.1)) choices.0 choices.1 count) }
{
    let (now, next) = apps;
    let (from, to) = choices;
    let mut object = ObjectBuilder::new(alloc);
    object.put_number("buckets", count as u64);
    object.put_bool("lost", loses(now, next, from, to));
    object.put("next", release_object(alloc, next, to));
    object.put("now", release_object(alloc, now, from));
    object.finish()
}
