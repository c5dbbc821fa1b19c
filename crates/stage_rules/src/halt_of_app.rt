//! The halt of an app, or of one of its releases, that isn't undone.

ghost use Rattle.std.specs.Prelude.{◌≡◌, option_copied};
ghost use Rattle.stage_rules.specs.InForce as specs;

use crate::halt::is_in_force;
use load::AppSources;
use stage_records::{StagingStep, StepAction};

/// The app that an action halts, or of which it halts a release.
pub fn app_of_any_halt(action: &StepAction) -> Option<&str>
    ensures { option_copied result ≡ specs.app_of_any_halt action.now }
{
    match action {
        StepAction::Halt { appid } => Some(appid.as_str()),
        StepAction::HaltRelease { appid, .. } => Some(appid.as_str()),
        StepAction::Raise { .. } | StepAction::Resume { .. } | StepAction::Put { .. } => None,
    }
}

fn is_of_app(action: &StepAction, appid: &str) -> bool
    ensures { result ≡ specs.has_bytes (specs.app_of_any_halt action.now) appid.now }
{
    match app_of_any_halt(action) {
        Some(halted) => halted == appid,
        None => false,
    }
}

fn is_halt_of(step: &StagingStep, appid: &str) -> bool
    ensures { result ≡ specs.is_halt_of step.now appid.now }
{
    !step.is_undone && is_of_app(&step.action, appid)
}

/// The last of these steps that halts an app, or a release of it, and isn't undone.
pub fn last_halt<'a>(steps: &'a [StagingStep], appid: &str) -> Option<&'a StagingStep>
    ensures { option_copied result ≡ specs.last_halt steps.now appid.now }
{
    let [step, later @ ..] = steps else {
        return None;
    };
    if let Some(found) = last_halt(later, appid) {
        return Some(found);
    }
    if is_halt_of(step, appid) {
        return Some(step);
    }
    None
}

fn is_of_release(action: &StepAction) -> bool
    ensures { result ≡ specs.is_of_release action.now }
{
    match action {
        StepAction::HaltRelease { .. } => true,
        StepAction::Halt { .. } => false,
        StepAction::Raise { .. } | StepAction::Resume { .. } | StepAction::Put { .. } => false,
    }
}

/// Whether the last halt of an app that isn't undone is that of a release.
pub fn is_release_halted(steps: &[StagingStep], appid: &str) -> bool
    ensures { result ≡ specs.is_release_halted steps.now appid.now }
{
    match last_halt(steps, appid) {
        Some(step) => is_of_release(&step.action),
        None => false,
    }
}

/// Whether an app's halt is in force, or its last one is that of a release.
pub fn is_resumable(steps: &[StagingStep], apps: &[AppSources], appid: &str) -> bool
    ensures { result ≡ specs.is_resumable steps.now apps.now appid.now }
{
    is_in_force(steps, apps, appid) || is_release_halted(steps, appid)
}
