//! Why the apps of a line's request get what they get, app by app.

ghost use Rattle.std.specs.Prelude.{All, IfOk, string_bytes};
ghost use Rattle.dry_run.specs.Meanings.{IsMeantApp};
ghost use Rattle.why_log.specs.Explained as specs;

use crate::app_notes::{AppNote, outcome_text, push_lacking};
use crate::line_app::LineApp;
use attrs::{AppFacts, Moment};
use cells::PlainPass;
use dry_run::{AppReasons, app_reasons, meant_app, no_request_app, unknown_app};
use load::{JudgedApp, JudgedManifest};
use printing::TextBuffer;
use std::alloc::{AllocError, Global};
use why_choice::push_quoted;

/// The lines of the apps, in order, on counters as the apps before leave them. The note at each
/// place is that of the app there.
pub(crate) fn explain_apps(
    alloc: Global,
    manifest: &JudgedManifest,
    moment: &Moment,
    apps: &[LineApp],
    notes: &[AppNote],
    counters: &mut PlainPass,
) -> Result<String, AllocError>
    requires { All IsMeantApp manifest.now.apps.items }
    ensures { IfOk result (λ text. specs.ExplainsApps manifest.now moment.now apps.now
        counters.old counters.new (string_bytes text)) }
{
    let mut text = String::new(alloc);
    let mut left = apps;
    let mut left_notes = notes;
    while let [app, others @ ..] = left {
        let [note, more @ ..] = left_notes else {
            return Err(AllocError);
        };
        let Ok(lines) = explain_app(alloc, manifest, moment, app, note, counters) else {
            return Err(AllocError);
        };
        let Ok(()) = text.push_str(lines.as_str()) else {
            return Err(AllocError);
        };
        left = others;
        left_notes = more;
    }
    Ok(text)
}

fn explain_app(
    alloc: Global,
    manifest: &JudgedManifest,
    moment: &Moment,
    app: &LineApp,
    note: &AppNote,
    counters: &mut PlainPass,
) -> Result<String, AllocError>
    requires { All IsMeantApp manifest.now.apps.items }
    ensures { IfOk result (λ text. specs.ExplainsApp manifest.now moment.now app.now
        counters.old counters.new (string_bytes text)) }
{
    if !app.facts.updatecheck {
        return unrequested_lines(alloc, manifest, moment, app, note);
    }
    let Some(known) = meant_app(manifest, app.facts.appid.as_str()) else {
        return unlisted_lines(alloc, &app.facts, note);
    };
    run_lines(alloc, known, moment, app, note, counters)
}

// The lines of an app that the manifest's program is run for.
#[tactic(auto, using(crate::proofs::Whole::run_is))]
fn run_lines(
    alloc: Global,
    known: &JudgedApp,
    moment: &Moment,
    app: &LineApp,
    note: &AppNote,
    counters: &mut PlainPass,
) -> Result<String, AllocError>
    requires { IsMeantApp known.now }
    ensures { IfOk result (λ text. specs.ExplainsRun known.now moment.now app.now
        counters.old counters.new (string_bytes text)) }
{
    let attrs = app.attrs(alloc, moment)?;
    let lines = note.lines.as_str();
    let AppReasons { choice, text } = app_reasons(
        alloc, known, &app.facts, attrs, lines, counters,
    )?;
    let mut all = text;
    let after = after_lines(alloc, known, choice, all.as_str(), note)?;
    all.push_str(after.as_str())?;
    Ok(all)
}

// The facts that the lines test and the log lacks; whether the app was halted; and the log's
// choice, if it is neither this one nor the halt's.
fn after_lines(
    alloc: Global,
    known: &JudgedApp,
    choice: u8,
    lines: &str,
    note: &AppNote,
) -> Result<String, AllocError> {
    let outcome = outcome_of(alloc, known, choice)?;
    let mut text = TextBuffer::new(alloc);
    push_lacking(&mut text, lines, note.lacking);
    if note.is_halted {
        text.push("  halted at the server then\n");
    }
    let is_same = note.choice == Some(choice as u64) && note.outcome.as_str() == outcome.as_str();
    let is_of_halt = note.is_halted && note.choice == Some(0);
    if !is_same && !is_of_halt {
        push_logged(&mut text, note);
    }
    text.finish()
}

// What an app gets by a choice.
fn outcome_of(alloc: Global, known: &JudgedApp, choice: u8) -> Result<String, AllocError> {
    if choice == 0 {
        return outcome_text(alloc, 0, None);
    }
    match known.sources.entry.releases().get(choice as usize - 1) {
        Some(release) => outcome_text(alloc, choice as u64, Some(release.version())),
        None => outcome_text(alloc, choice as u64, None),
    }
}

fn push_logged(text: &mut TextBuffer, note: &AppNote) {
    text.push_all(&["  differs from the log: ", note.outcome.as_str(), "\n"]);
}

// The lines of an app that requested an update, and that the manifest doesn't have.
fn unlisted_lines(alloc: Global, app: &AppFacts, note: &AppNote) -> Result<String, AllocError> {
    let mut text = TextBuffer::new(alloc);
    push_logged(&mut text, note);
    let logged = text.finish()?;
    unknown_app(alloc, app.appid.as_str(), logged.as_str())
}

// The lines of an app that requested no update, or that the server didn't have.
fn unrequested_lines(
    alloc: Global,
    manifest: &JudgedManifest,
    moment: &Moment,
    app: &LineApp,
    note: &AppNote,
) -> Result<String, AllocError> {
    let lines = note.lines.as_str();
    if !note.is_unknown {
        let attrs = app.attrs(alloc, moment)?;
        return no_request_app(alloc, &app.facts, attrs.context(), lines);
    }
    let appid = app.facts.appid.as_str();
    let mut text = String::from_str(alloc, "app ")?;
    push_quoted(&mut text, appid)?;
    text.push_str(": unknown to the server")?;
    if manifest.app(appid).is_some() {
        text.push_str(", but not to the manifest")?;
    }
    text.push_str("\n")?;
    text.push_str(lines)?;
    Ok(text)
}
