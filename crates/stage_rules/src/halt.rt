//! Which halts of apps are in force, and when another manifest may lift one.

ghost use Rattle.std.specs.Prelude.{◌≡◌, option_copied};
ghost use Rattle.stage_rules.specs.InForce as specs;

use crate::halting::is_halting_file;
use load::{AppSources, whole_file};
use stage_records::{StagingStep, StepAction};

/// The app that a step halts, unless the step is undone.
pub fn halted_app(step: &StagingStep) -> Option<&str>
    ensures { option_copied result ≡ specs.halted_app step.now }
{
    if step.is_undone {
        return None;
    }
    match &step.action {
        StepAction::Halt { appid } => Some(appid.as_str()),
        StepAction::HaltRelease { .. } => None,
        StepAction::Raise { .. } | StepAction::Resume { .. } | StepAction::Put { .. } => None,
    }
}

// Whether an app's file has the bytes that halt it.
fn is_halted(app: &AppSources) -> bool
    ensures { result ≡ specs.is_halted app.now }
{
    match whole_file(&app.kept) {
        Some(bytes) => is_halting_file(app.entry.source(), bytes),
        None => false,
    }
}

// Whether an app's file was read, and has other bytes than those that halt it.
fn is_offered(app: &AppSources) -> bool
    ensures { result ≡ specs.is_offered app.now }
{
    match whole_file(&app.kept) {
        Some(bytes) => !is_halting_file(app.entry.source(), bytes),
        None => false,
    }
}

/// Whether a manifest has the app of this appid, with a file that may be another one than that
/// which halts it: a file that couldn't be read may be any.
pub fn may_offer(apps: &[AppSources], appid: &str) -> bool
    ensures { result ≡ specs.may_offer apps.now appid.now }
{
    let mut left = apps;
    while let [app, others @ ..] = left {
        if app.entry.appid() == appid && !is_halted(app) {
            return true;
        }
        left = others;
    }
    false
}

/// Whether a manifest has the app of this appid, with a file that was read and doesn't halt it.
pub fn surely_offers(apps: &[AppSources], appid: &str) -> bool
    ensures { result ≡ specs.surely_offers apps.now appid.now }
{
    let mut left = apps;
    while let [app, others @ ..] = left {
        if app.entry.appid() == appid && is_offered(app) {
            return true;
        }
        left = others;
    }
    false
}

fn has_halt(steps: &[StagingStep], appid: &str) -> bool
    ensures { result ≡ specs.is_named (specs.halted_apps steps.now) appid.now }
{
    let mut left = steps;
    while let [step, others @ ..] = left {
        if let Some(halted) = halted_app(step)
            && halted == appid
        {
            return true;
        }
        left = others;
    }
    false
}

/// Whether a halt of this app is in force: a step halted it and isn't undone, and the manifest of
/// these apps doesn't surely offer it. A file of other bytes counts as an offer, even if it offers
/// nothing.
pub fn is_in_force(steps: &[StagingStep], apps: &[AppSources], appid: &str) -> bool
    ensures { result ≡ specs.is_in_force steps.now apps.now appid.now }
{
    has_halt(steps, appid) && !surely_offers(apps, appid)
}

/// Whether the next manifest may lift the halt of an app: the app isn't surely offered by the
/// current one, and may be by the next.
pub(crate) fn lifts(current: &[AppSources], next: &[AppSources], appid: &str) -> bool
    ensures { result ≡ specs.lifts current.now next.now appid.now }
{
    !surely_offers(current, appid) && may_offer(next, appid)
}
