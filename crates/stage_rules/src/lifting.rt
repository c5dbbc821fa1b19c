//! Which halts another manifest may lift, of apps and of releases.

ghost use Rattle.std.specs.Prelude.{◌≡◌, IfOk, OnOk, false, map, string_bytes};
ghost use Rattle.stage_rules.specs.Lifting as specs;
ghost use Rattle.stage_rules.specs.Lifting.{AreNamed, NamesMore};

use crate::halt::lifts;
use crate::halt_of_app::app_of_any_halt;
use crate::known_offers::known_among;
use crate::named_apps::push_once;
use load::AppSources;
use stage_records::{StagingStep, StepAction};
use std::alloc::{AllocError, Global};

// Whether the next manifest may offer a version again, which the current one may not offer.
fn offers_again(
    alloc: Global,
    appid: &str,
    version: &str,
    current: &[AppSources],
    next: &[AppSources],
) -> Result<bool, AllocError>
    ensures { IfOk result (λ lifts. lifts ≡ false
        → specs.OffersNoMore current.now next.now appid.now version.now) }
{
    if let Some(true) = known_among(alloc, current, appid, version)? {
        return Ok(false);
    }
    match known_among(alloc, next, appid, version)? {
        Some(false) => Ok(false),
        _ => Ok(true),
    }
}

// Whether the next manifest may lift a step's halt.
fn may_lift(
    alloc: Global,
    step: &StagingStep,
    current: &[AppSources],
    next: &[AppSources],
) -> Result<bool, AllocError>
    ensures { IfOk result (λ lifts. lifts ≡ false
        → specs.StaysHalted current.now next.now (specs.action_in_force step.now)) }
{
    if step.is_undone {
        return Ok(false);
    }
    match &step.action {
        StepAction::Halt { appid } => Ok(lifts(current, next, appid.as_str())),
        StepAction::HaltRelease { appid, version } => {
            offers_again(alloc, appid.as_str(), version.as_str(), current, next)
        }
        StepAction::Raise { .. } | StepAction::Resume { .. } | StepAction::Put { .. } => Ok(false),
    }
}

// Adds the app of a step's halt, if the next manifest may lift that.
#[tactic(auto, using(crate::proofs::Named::one_step))]
fn push_lifted(
    alloc: Global,
    step: &StagingStep,
    current: &[AppSources],
    next: &[AppSources],
    named: &mut Vec<String>,
) -> Result<(), AllocError>
    ensures { OnOk result (NamesMore step.now current.now next.now
        (map string_bytes named.old.items) (map string_bytes named.new.items)) }
{
    if !may_lift(alloc, step, current, next)? {
        return Ok(());
    }
    match app_of_any_halt(&step.action) {
        None => Ok(()),
        Some(appid) => match push_once(alloc, named, appid) {
            Ok(()) => Ok(()),
            Err(_) => Err(AllocError),
        },
    }
}

/// The apps of the halts that the next manifest may lift, each once, in the order of the first of
/// these. The halt of an app is lifted if the current manifest doesn't surely offer the app, and
/// the next one may; that of a release if the rules so offer the release. Returns an error if an
/// allocation fails.
// open: whether an allocation fails; that no other app is named, and the order: rows.
#[tactic(auto, using(crate::proofs::Named::each_step))]
pub fn lifted_apps(
    alloc: Global,
    steps: &[StagingStep],
    current: &[AppSources],
    next: &[AppSources],
) -> Result<Vec<String>, AllocError>
    ensures { IfOk result (λ named. AreNamed steps.now current.now next.now
        (map string_bytes named.items)) }
{
    let mut named = Vec::new(alloc);
    let mut left = steps;
    while let [step, others @ ..] = left {
        push_lifted(alloc, step, current, next, &mut named)?;
        left = others;
    }
    Ok(named)
}
