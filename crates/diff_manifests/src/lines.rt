//! A comparison as lines. No clause says how they look; rows compare them.

ghost use Rattle.std.specs.Prelude.{◌≡◌};
ghost use Rattle.std.specs.List.{list_all};
ghost use Rattle.diff_manifests.specs.Texts as specs;

use crate::app_diff::AppDiff;
use crate::arrays::ArrayChange;
use crate::outcome::{AppChange, AppOutcome, WhyNot};
use diff_text::push_rows;
use printing::Printed;
use std::alloc::AllocError;
use std::fmt::Write;

// ---- an app

// The title of an app: its appid, which manifests have it, whether it is compared, and `lost` if
// all of it is lost.
fn push_title(text: &mut String, diff: &AppDiff) -> Result<(), AllocError> {
    let appid = Printed(diff.appid.as_str());
    write!(text, "app {appid}")?;
    text.push_str(match diff.change {
        AppChange::Kept => "",
        AppChange::New => ": new",
        AppChange::Gone => ": gone",
    })?;
    if let AppOutcome::NotCompared(why) = &diff.outcome {
        text.push_str(match diff.change {
            AppChange::Kept => ": not compared, ",
            _ => ", not compared, ",
        })?;
        text.push_str(match *why {
            WhyNot::Program => "by a program",
            WhyNot::Size => "its rules are too large",
        })?;
    }
    text.push_str(match (diff.change, &diff.outcome) {
        (AppChange::Gone, _) | (AppChange::Kept, AppOutcome::NotCompared(_)) => "  lost",
        _ => "",
    })
}

/// Whether nothing is printed for an app: both manifests have it, and it is the same or has no row.
pub(crate) fn is_silent(diff: &AppDiff) -> bool
    ensures { result ≡ specs.is_silent diff.now }
{
    match (diff.change, &diff.outcome) {
        (AppChange::Kept, AppOutcome::Same) => true,
        (AppChange::Kept, AppOutcome::Rows(shown)) => shown.rows.is_empty(),
        _ => false,
    }
}

// Its rows below the title, or only the title.
fn push_app(text: &mut String, diff: &AppDiff) -> Result<(), AllocError> {
    if is_silent(diff) {
        return Ok(());
    }
    let mut title = String::new(*text.allocator());
    push_title(&mut title, diff)?;
    match &diff.outcome {
        AppOutcome::Rows(shown) if !shown.rows.is_empty() => push_rows(text, title.as_str(), shown),
        _ => writeln!(text, "{title}"),
    }
}

// ---- the whole

fn all_compared(diffs: &[AppDiff]) -> bool {
    for diff in diffs {
        if let AppOutcome::NotCompared(_) = &diff.outcome {
            return false;
        }
    }
    true
}

fn all_silent(diffs: &[AppDiff]) -> bool
    ensures { result ≡ list_all specs.is_silent diffs.now }
{
    let mut left = diffs;
    while let [diff, others @ ..] = left {
        if !is_silent(diff) {
            return false;
        }
        left = others;
    }
    true
}

/// Whether nothing is different: no app, no array, and not the servers' names.
pub(crate) fn is_same(old: &str, new: &str, changes: &[ArrayChange<'_>], diffs: &[AppDiff]) -> bool
    ensures { result ≡ specs.is_same old.now new.now changes.now diffs.now }
{
    old == new && changes.is_empty() && all_silent(diffs)
}

fn push_array(text: &mut String, change: &ArrayChange<'_>) -> Result<(), AllocError> {
    let name = change.old.name();
    let (old, new) = (change.old, change.new);
    write!(text, "array {name}: {old} to {new}")?;
    text.push_str(", which a server that has the one refuses (M7 N2)  lost\n")
}

// Nothing is printed of one app, if it isn't compared.
fn last_line(one: bool, all_compared: bool) -> &'static str {
    match (one, all_compared) {
        (false, true) => "a machine in no row gets the same from both\n",
        (false, false) => "a machine in no row of a compared app gets the same from both\n",
        (true, true) => "a machine with this app that is in no row gets the same from both\n",
        (true, false) => "",
    }
}

/// Adds the lines of a comparison. `old` and `new` are the servers' names; `one` says that only one
/// app is compared.
pub(crate) fn push_diff(
    text: &mut String,
    servers: (&str, &str),
    changes: &[ArrayChange<'_>],
    one: bool,
    diffs: &[AppDiff],
) -> Result<(), AllocError> {
    let (old, new) = servers;
    if is_same(old, new, changes, diffs) {
        return text.push_str(if one {
            "the same for every machine with this app\n"
        } else {
            "the same for every machine\n"
        });
    }
    if old != new {
        let (old, new) = (Printed(old), Printed(new));
        writeln!(text, "server {old} to {new}")?;
    }
    for change in changes {
        push_array(text, change)?;
    }
    for diff in diffs {
        push_app(text, diff)?;
    }
    text.push_str(last_line(one, all_compared(diffs)))
}
