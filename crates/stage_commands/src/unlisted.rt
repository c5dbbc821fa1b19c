//! Halts of apps that a manifest doesn't list, as the files of some of its apps weren't read.

ghost use Rattle.std.specs.Prelude.{◌≡◌, All, IfOk, OnOk, is_some, map, string_bytes};
ghost use Rattle.stage_commands.specs.Unlisted as specs;
ghost use Rattle.stage_commands.specs.Unlisted.{AreUnlistedNamed, IsListedOrNamed, NamesUnlisted};
ghost use Rattle.stage_rules.specs.Lifting.{AreNamed, action_in_force};
ghost use Rattle.stage_servers.specs.Apps as apps;

use load::{AppSources, CollectedManifest};
use stage_records::{StagingStep, StepAction};
use stage_rules::{app_of_any_halt, lifted_apps, push_once, surely_offers};
use stage_servers::app_named;
use std::alloc::{AllocError, Global};

fn is_listed(listed: &[AppSources], appid: &str) -> bool
    ensures { result ≡ is_some (apps.app_named listed.now appid.now) }
{
    match app_named(listed, appid) {
        Some(_) => true,
        None => false,
    }
}

// Whether a step's halt may be in force, and the next manifest doesn't list its app.
fn is_unlisted_halt(step: &StagingStep, current: &[AppSources], next: &[AppSources]) -> bool
    ensures { result ≡ specs.is_unlisted_halt current.now next.now (action_in_force step.now) }
{
    if step.is_undone {
        return false;
    }
    match &step.action {
        StepAction::Halt { appid } => {
            !surely_offers(current, appid.as_str()) && !is_listed(next, appid.as_str())
        }
        StepAction::HaltRelease { appid, .. } => !is_listed(next, appid.as_str()),
        StepAction::Raise { .. } | StepAction::Resume { .. } | StepAction::Put { .. } => false,
    }
}

// Adds the app of a step's halt, if the next manifest doesn't list it.
#[tactic(auto, using(crate::proofs::UnlistedHalts::one_step))]
fn push_unlisted(
    alloc: Global,
    step: &StagingStep,
    current: &[AppSources],
    next: &[AppSources],
    named: &mut Vec<String>,
) -> Result<(), AllocError>
    ensures { OnOk result (NamesUnlisted step.now current.now next.now
        (map string_bytes named.old.items) (map string_bytes named.new.items)) }
{
    if !is_unlisted_halt(step, current, next) {
        return Ok(());
    }
    match app_of_any_halt(&step.action) {
        None => Ok(()),
        Some(appid) => match push_once(alloc, named, appid) {
            Ok(()) => Ok(()),
            Err(_) => Err(AllocError),
        },
    }
}

// Adds the apps of all such halts to those that are lifted.
#[tactic(auto, using(crate::proofs::UnlistedHalts::each_step))]
fn with_unlisted(
    alloc: Global,
    steps: &[StagingStep],
    current: &[AppSources],
    next: &[AppSources],
    lifted: Vec<String>,
) -> Result<Vec<String>, AllocError>
    requires { AreNamed steps.now current.now next.now (map string_bytes lifted.items) }
    ensures lifted { IfOk result (λ named. AreNamed steps.now current.now next.now
        (map string_bytes named.items)) }
    ensures unlisted { IfOk result (λ named. All (IsListedOrNamed current.now next.now
        (map string_bytes named.items)) steps.now) }
{
    let mut named = lifted;
    let mut left = steps;
    while let [step, others @ ..] = left {
        push_unlisted(alloc, step, current, next, &mut named)?;
        left = others;
    }
    Ok(named)
}

/// The apps of the halts in force that the next manifest may lift; and besides, if some of its apps
/// weren't read, of those that it doesn't list.
pub(crate) fn lifted_or_unlisted(
    alloc: Global,
    steps: &[StagingStep],
    current: &[AppSources],
    next: &CollectedManifest,
) -> Result<Vec<String>, AllocError>
    ensures lifted { IfOk result (λ named. AreNamed steps.now current.now
        next.now.sources.apps.items (map string_bytes named.items)) }
    ensures unlisted { IfOk result (λ named. AreUnlistedNamed steps.now current.now next.now
        (map string_bytes named.items)) }
{
    let apps = &next.sources.apps;
    match lifted_apps(alloc, steps, current, apps) {
        Ok(lifted) => {
            if next.sources.unread == 0 {
                return Ok(lifted);
            }
            with_unlisted(alloc, steps, current, apps, lifted)
        }
        Err(_) => Err(AllocError),
    }
}
