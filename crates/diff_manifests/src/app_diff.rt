//! The comparison of two manifests, app by app.

ghost use Rattle.std.specs.Prelude.{◌≡◌, ◌∷◌, [], IfOk, OnOk, option_copied, string_bytes};
ghost use Rattle.std.specs.List.{list_any};
ghost use Rattle.diff_manifests.specs.Adding as adding;
ghost use Rattle.diff_manifests.specs.Opened.{AreKept, manifest_appids};
ghost use Rattle.diff_manifests.specs.Reports as specs;

use crate::comparing::compare_app;
use crate::opened::OpenedBoth;
use crate::outcome::{AppChange, AppOutcome};
use diff_space::{Bounds, CellBound, Work};
use load::{JudgedApp, JudgedManifest};
use std::alloc::{AllocError, Global};

/// The comparison of an app.
#[derive(Drop)]
pub struct AppDiff {
    pub appid: String,
    pub change: AppChange,
    pub outcome: AppOutcome,
}

/// What is compared: requests from a day on, in states in which these cells have at least these
/// values.
#[derive(Clone, Copy)]
pub(crate) struct Within<'a> {
    pub(crate) from_day: u32,
    pub(crate) used: &'a [CellBound],
}

fn is_reported(only: Option<&str>, appid: &str) -> bool
    ensures { result ≡ specs.is_reported (option_copied only.entry) appid.now }
{
    match only {
        None => true,
        Some(only) => only == appid,
    }
}

// Whether the manifest has an app with this appid.
fn has_appid(opened: &JudgedManifest, appid: &str) -> bool
    ensures { result ≡ specs.has_appid (manifest_appids opened.now) appid.now }
{
    match opened.app(appid) {
        Some(_) => true,
        None => false,
    }
}

/// Whether either manifest has an app with this appid.
pub(crate) fn have_app(both: &OpenedBoth, appid: &str) -> bool
    ensures { result ≡ specs.have_app both.now appid.now }
{
    has_appid(&both.new, appid) || has_appid(&both.old, appid)
}

// The comparison of the app with this appid.
fn diff_app(
    alloc: Global,
    both: &OpenedBoth,
    within: &Within<'_>,
    appid: &str,
    work: &mut Work,
) -> Result<AppDiff, AllocError>
    requires { AreKept both.now }
    ensures diff { IfOk result (specs.IsAppDiff both.now within.now.from_day
        within.now.used.now) }
    ensures appid { IfOk result (λ d. string_bytes d.appid ≡ appid.now) }
{
    let old = both.old.app(appid);
    let new = both.new.app(appid);
    let bounds = Bounds {
        appid,
        from_day: within.from_day,
        used: within.used,
    };
    let appid = String::from_str(alloc, appid)?;
    let change = AppChange::of(old, new);
    let outcome = compare_app(alloc, &bounds, old, new, work)?;
    Ok(AppDiff {
        appid,
        change,
        outcome,
    })
}

// Adds the comparison of an app, if it is to be reported.
fn add_app(
    alloc: Global,
    diffs: &mut Vec<AppDiff>,
    both: &OpenedBoth,
    within: &Within<'_>,
    only: Option<&str>,
    appid: &str,
    work: &mut Work,
) -> Result<(), AllocError>
    requires { AreKept both.now }
    ensures { OnOk result (adding.AddsDiffs both.now within.now.from_day within.now.used.now
        (option_copied only.entry) (appid.now ∷ []) diffs.old.items diffs.new.items) }
{
    if !is_reported(only, appid) {
        return Ok(());
    }
    let diff = diff_app(alloc, both, within, appid, work)?;
    diffs.push(diff)?;
    Ok(())
}

// Adds the comparisons of the apps of NEW.
fn add_new(
    alloc: Global,
    diffs: &mut Vec<AppDiff>,
    both: &OpenedBoth,
    within: &Within<'_>,
    only: Option<&str>,
    work: &mut Work,
) -> Result<(), AllocError>
    requires { AreKept both.now }
    ensures { OnOk result (adding.AddsDiffs both.now within.now.from_day within.now.used.now
        (option_copied only.entry) (manifest_appids both.now.new) diffs.old.items
        diffs.new.items) }
{
    let mut left: &[JudgedApp] = &both.new.apps;
    while let [app, others @ ..] = left {
        add_app(
            alloc,
            diffs,
            both,
            within,
            only,
            app.sources.entry.appid(),
            work,
        )?;
        left = others;
    }
    Ok(())
}

// Adds the comparisons of the apps that only OLD has.
fn add_gone(
    alloc: Global,
    diffs: &mut Vec<AppDiff>,
    both: &OpenedBoth,
    within: &Within<'_>,
    only: Option<&str>,
    work: &mut Work,
) -> Result<(), AllocError>
    requires { AreKept both.now }
    ensures { OnOk result (adding.AddsDiffs both.now within.now.from_day within.now.used.now
        (option_copied only.entry) (specs.gone_appids both.now) diffs.old.items
        diffs.new.items) }
{
    let mut left: &[JudgedApp] = &both.old.apps;
    while let [app, others @ ..] = left {
        if !has_appid(&both.new, app.sources.entry.appid()) {
            add_app(
                alloc,
                diffs,
                both,
                within,
                only,
                app.sources.entry.appid(),
                work,
            )?;
        }
        left = others;
    }
    Ok(())
}

/// The comparison of all apps, or of one: the apps of NEW, and then those that are gone. They share
/// the work that a call may take.
#[tactic(auto, using(crate::proofs::Reported::are_diffs))]
pub(crate) fn diff_apps(
    alloc: Global,
    both: &OpenedBoth,
    within: &Within<'_>,
    only: Option<&str>,
) -> Result<Vec<AppDiff>, AllocError>
    requires { AreKept both.now }
    ensures { IfOk result (λ v. specs.AreAppDiffs both.now within.now.from_day
        within.now.used.now (option_copied only.entry) v.items) }
{
    let mut diffs = Vec::new(alloc);
    let mut work = Work::of_call();
    add_new(alloc, &mut diffs, both, within, only, &mut work)?;
    add_gone(alloc, &mut diffs, both, within, only, &mut work)?;
    Ok(diffs)
}

// ---- what is lost

impl AppDiff {
    /// Whether a machine may lose a release.
    pub(crate) fn loses(&self) -> bool
        ensures { result ≡ specs.loses self.now }
    {
        match self.change {
            AppChange::New => false,
            AppChange::Gone => true,
            AppChange::Kept => match &self.outcome {
                AppOutcome::Same => false,
                AppOutcome::Rows(shown) => shown.is_lost(),
                AppOutcome::NotCompared(_) => true,
            },
        }
    }
}

/// Whether an app loses a release.
pub(crate) fn some_lose(diffs: &[AppDiff]) -> bool
    ensures { result ≡ list_any specs.loses diffs.now }
{
    let mut left = diffs;
    while let [diff, others @ ..] = left {
        if diff.loses() {
            return true;
        }
        left = others;
    }
    false
}
