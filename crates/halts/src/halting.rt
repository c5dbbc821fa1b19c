//! The ruleset that is served while some apps are halted.

ghost use Rattle.std.specs.Prelude.{◌≡◌, [], IfOk, map, string_bytes};
ghost use Rattle.std.specs.Arc.{arc_value};
ghost use Rattle.halts.specs.Halts.{halted_app, served, served_app, served_apps};

use crate::halted_list::is_halted;
use crate::none::none_program;
use bpf_verify::Verified;
use ruleset::{App, Ruleset};
use std::alloc::{AllocError, Global};
use std::sync::Arc;

/// The ruleset in which each app of these appids has the program that chooses none. An appid that
/// no app has changes nothing. Releases, and the programs of the other apps, are shared; without a
/// halted appid the ruleset itself is.
// open: whether an allocation fails, or a count of owners is at its most: its only error.
pub fn served_rules(
    alloc: Global,
    rules: &Arc<Ruleset>,
    halted: &[String],
) -> Result<Arc<Ruleset>, AllocError>
    ensures { IfOk result (λ r.
        arc_value r ≡ served (map string_bytes halted.now) (arc_value rules.now)) }
{
    if halted.is_empty() {
        return shared(rules);
    }
    let Ok(served) = with_halts(alloc, rules, halted) else {
        return Err(AllocError);
    };
    match Arc::new(alloc, served) {
        Ok(served) => Ok(served),
        Err(_) => Err(AllocError),
    }
}

// Another owner of the ruleset, which is what is served if nothing is halted.
#[tactic(auto, using(crate::proofs::Served::all_are_served))]
fn shared(rules: &Arc<Ruleset>) -> Result<Arc<Ruleset>, AllocError>
    ensures { IfOk result (λ r. arc_value r ≡ served [] (arc_value rules.now)) }
{
    match Arc::try_clone(rules) {
        Ok(shared) => Ok(shared),
        Err(_) => Err(AllocError),
    }
}

// The ruleset as it is served.
fn with_halts(alloc: Global, rules: &Ruleset, halted: &[String]) -> Result<Ruleset, AllocError>
    ensures { IfOk result (λ r. r ≡ served (map string_bytes halted.now) rules.now) }
{
    rules.invariant_law();
    let Ok(server) = String::from_str(alloc, rules.server()) else {
        return Err(AllocError);
    };
    match served_list(alloc, rules.apps(), halted) {
        Ok(apps) => Ok(Ruleset::from_distinct(server, apps)),
        Err(_) => Err(AllocError),
    }
}

// The apps as they are served, in order.
fn served_list(alloc: Global, apps: &[App], halted: &[String]) -> Result<Vec<App>, AllocError>
    ensures { IfOk result
        (λ v. v.items ≡ served_apps (map string_bytes halted.now) apps.now) }
{
    let mut list = Vec::new(alloc);
    for app in apps {
        let Ok(one) = served_one(alloc, app, halted) else {
            return Err(AllocError);
        };
        let Ok(()) = list.push(one) else {
            return Err(AllocError);
        };
    }
    Ok(list)
}

// One app as it is served.
fn served_one(alloc: Global, app: &App, halted: &[String]) -> Result<App, AllocError>
    ensures { IfOk result (λ a. a ≡ served_app (map string_bytes halted.now) app.now) }
{
    if is_halted(halted, app.appid()) {
        return without_offers(alloc, app);
    }
    app.share(alloc)
}

// The app with the program that chooses none.
fn without_offers(alloc: Global, app: &App) -> Result<App, AllocError>
    ensures { IfOk result (λ a. a ≡ halted_app app.now) }
{
    app.invariant_law();
    let program: &Verified = app.program();
    let Ok(none) = none_program(alloc, program.shape()) else {
        return Err(AllocError);
    };
    match Arc::new(alloc, none) {
        Ok(none) => app.with_program(alloc, none),
        Err(_) => Err(AllocError),
    }
}
