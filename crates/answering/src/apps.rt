//! The apps of a request: each is looked up, and run if it requests an update, app after app.

ghost use Rattle.std.specs.Prelude.{◌≡◌, false, length, IfOk, MatchResult};
ghost use Rattle.std.specs.Arc.{arc_value};
ghost use Rattle.attrs.specs.Bucket.{hashed_bucket};
ghost use Rattle.attrs.specs.Facts.{attributes_of};
ghost use Rattle.bpf_semantics.specs.State.{opening};
ghost use Rattle.bpf_machine.specs.Represents.{RunRepresents};
ghost use Rattle.cells.specs.Grown.{Grows};
ghost use Rattle.answering.specs.Apps.{FindsApp, FindsApps, RunsFew};

use crate::chosen::listed_app;
use crate::turn::Turn;
use attrs::{Attrs, Bucket, Moment, RequestFacts, SharedFacts, hashed_bucket};
use bpf_machine::Run;
use bpf_verify::Verified;
use cells::{CellSteps, growth};
use omaha_json::{FoundApp, Request};
use ruleset::Ruleset;
use std::alloc::{AllocError, Global};
use std::sync::Arc;

// The run of a program on the attributes of an app.
fn start(
    alloc: Global,
    program: &Arc<Verified>,
    app: &SharedFacts,
    facts: &RequestFacts,
    hashed: Bucket,
    moment: &Moment,
) -> Result<Run, AllocError>
    requires { hashed ≡ hashed_bucket facts.now }
    ensures program { IfOk result (λ r. r.program ≡ arc_value program.now) }
    ensures represents { IfOk result (λ r. RunRepresents r
        (opening (attributes_of app.now facts.now moment.now))) }
    ensures going { IfOk result (λ r. r.is_done ≡ false) }
{
    let Ok(attrs) = Attrs::of_hashed(alloc, app, facts, hashed, *moment) else {
        return Err(AllocError);
    };
    let Ok(attrs) = Arc::new(alloc, attrs) else {
        return Err(AllocError);
    };
    match Arc::try_clone(program) {
        Ok(program) => Ok(Run::start(program, attrs)),
        Err(_) => Err(AllocError),
    }
}

// What the ruleset has for an app, with the choice of its finished run, if it has one. If an
// allocation fails, no run is made.
fn run_app<'r, C: CellSteps>(
    turn: &Turn<'_, C>,
    app: &SharedFacts,
    facts: &RequestFacts,
    hashed: Bucket,
    rules: &'r Ruleset,
    pass: &mut C::Pass,
) -> Result<Option<FoundApp<'r>>, AllocError>
    requires belongs { C.belongs turn.now.cells.now pass.old }
    requires hashed { hashed ≡ hashed_bucket facts.now }
    ensures belongs { C.belongs turn.now.cells.now pass.new }
    ensures finds { MatchResult result
        (λ found. Grows C.grew pass.old pass.new
        (FindsApp rules.now facts.now turn.now.moment.now app.now found))
        (λ _. pass.new ≡ pass.old) }
{
    let Some(known) = rules.find(app.appid()) else {
        return Ok(None);
    };
    if !app.facts().updatecheck {
        return Ok(Some(listed_app(known, app, hashed, None)));
    }
    known.invariant_law();
    let Ok(run) = start(turn.alloc, known.program(), app, facts, hashed, turn.moment) else {
        return Err(AllocError);
    };
    let (choice, _) = run.run(turn.cells, pass);
    Ok(Some(listed_app(known, app, hashed, Some(choice))))
}

/// What the ruleset has for all apps of a request, with the choice of each run that was made. If an
/// allocation fails, only the runs of the first few apps were made.
pub fn run_apps<'r, C: CellSteps>(
    turn: &Turn<'_, C>,
    request: &Request,
    rules: &'r Ruleset,
    pass: &mut C::Pass,
) -> Result<Vec<Option<FoundApp<'r>>>, AllocError>
    requires { C.belongs turn.now.cells.now pass.old }
    ensures belongs { C.belongs turn.now.cells.now pass.new }
    ensures each { IfOk result (λ found. length found.items ≡ length request.now.apps) }
    ensures finds { MatchResult result
        (λ found. Grows C.grew pass.old pass.new (FindsApps
        rules.now request.now.facts turn.now.moment.now request.now.apps found.items))
        (λ _. Grows C.grew pass.old pass.new
        (RunsFew rules.now request.now.facts turn.now.moment.now request.now.apps)) }
{
    growth::<C>();
    let facts = request.facts();
    // Computed only once, since its time grows with the length of the request's id.
    let hashed = hashed_bucket(facts);
    let apps = request.apps();
    let Ok(mut found) = Vec::with_capacity(turn.alloc, apps.len()) else {
        return Err(AllocError);
    };
    for app in apps {
        let Ok(one) = run_app(turn, app, facts, hashed, rules, pass) else {
            return Err(AllocError);
        };
        let Ok(()) = found.push(one) else {
            return Err(AllocError);
        };
    }
    Ok(found)
}
