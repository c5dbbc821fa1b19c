//! Which single releases of an app are halted, since when, by whom and why.

// No contract says what is printed: rows compare it.

use crate::app_status::Standing;
use load::AppSources;
use printing::TextBuffer;
use stage_records::{StagingStep, StepAction};
use stage_rules::known_offer;
use stage_text::push_since;
use std::alloc::Global;

// The version of this app that a step halts, unless it is undone.
fn version_of<'a>(step: &'a StagingStep, appid: &str) -> Option<&'a str> {
    match &step.action {
        StepAction::HaltRelease {
            appid: halted,
            version,
        } if !step.is_undone && halted.as_str() == appid => Some(version.as_str()),
        _ => None,
    }
}

fn halts(step: &StagingStep, appid: &str, version: &str) -> bool {
    match version_of(step, appid) {
        Some(halted) => halted == version,
        None => false,
    }
}

// Whether a step after this one halts the same version.
fn is_halted_later(steps: &[StagingStep], number: u32, appid: &str, version: &str) -> bool {
    for step in steps {
        if step.number > number && halts(step, appid, version) {
            return true;
        }
    }
    false
}

// Whether an app's file surely offers a version.
fn is_offered(alloc: Global, app: &AppSources, version: &str) -> bool {
    matches!(known_offer(alloc, app, version), Ok(Some(true)))
}

/// The last of these steps that halts a release of an app which its file doesn't surely offer, and
/// the version of that release.
// open: which one; rows show it.
pub fn halted_release<'a>(
    alloc: Global,
    steps: &'a [StagingStep],
    app: &AppSources,
) -> Option<(u32, &'a str)> {
    let mut last = None;
    for step in steps {
        if let Some(version) = version_of(step, app.entry.appid())
            && !is_offered(alloc, app, version)
        {
            last = Some((step.number, version));
        }
    }
    last
}

/// Adds a line of each halted release of an app, which its file doesn't surely offer.
pub(crate) fn push_releases(
    standing: &Standing<'_>,
    app: &AppSources,
    indent: &str,
    text: &mut TextBuffer,
) {
    let appid = app.entry.appid();
    for step in standing.steps {
        if let Some(version) = version_of(step, appid)
            && !is_halted_later(standing.steps, step.number, appid, version)
            && !is_offered(standing.alloc, app, version)
        {
            text.push(indent);
            text.push_printed("", version, " HALTED ");
            push_since(standing.alloc, text, step, standing.now);
            if let Some(because) = &step.because {
                text.push_printed(": ", because.as_str(), "");
            }
            text.push("\n");
        }
    }
}
