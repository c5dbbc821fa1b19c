//! What each app of a manifest offers, and since when; or since when it is halted, by whom and why.

// No contract says what is printed: rows compare it.

use crate::release_status::push_releases;
use crate::replaced_files::file_named;
use load::{AppSources, whole_file};
use manifest::ProgramSource;
use printing::{TextBuffer, width_of};
use stage_records::{FileState, ReplacedFile, StagingStep};
use stage_rules::{is_in_force, last_halt};
use stage_text::{RuleText, push_since, rule_lines, rule_text};
use std::alloc::{AllocError, Global};

/// What a status is made of: the recorded steps, the apps in place, and the second by the clock.
#[derive(Clone, Copy)]
pub(crate) struct Standing<'a> {
    pub(crate) alloc: Global,
    pub(crate) steps: &'a [StagingStep],
    pub(crate) apps: &'a [AppSources],
    pub(crate) now: u64,
}

// The width of the longest appid.
fn widest(apps: &[AppSources]) -> usize {
    let mut most = 0;
    for app in apps {
        most = most.max(width_of(app.entry.appid()));
    }
    most
}

// The blanks below the column of the appids.
fn indent_of(alloc: Global, apps: &[AppSources]) -> Result<String, AllocError> {
    let mut indent = String::from_str(alloc, "  ")?;
    for _ in 0..widest(apps) {
        indent.push_str(" ")?;
    }
    Ok(indent)
}

// Adds an appid in its column.
fn push_appid(text: &mut TextBuffer, appid: &str, width: usize) {
    text.push_printed("", appid, "");
    for _ in width_of(appid)..width {
        text.push(" ");
    }
    text.push("  ");
}

// ---- steps

// Whether a step replaced the file of this name, which then had these bytes or was edited since.
fn has_replaced(step: &StagingStep, name: &str, bytes: Option<&[u8]>) -> bool {
    match file_named(&step.files, name) {
        Some(file) => !matches!(file.state(bytes), FileState::Before),
        None => false,
    }
}

// The last step before this number that isn't undone, and replaced a file that isn't as it found
// it.
fn last_of_file<'x>(
    steps: &'x [StagingStep],
    name: &str,
    bytes: Option<&[u8]>,
    end: u64,
) -> Option<&'x StagingStep> {
    let mut last = None;
    for step in steps {
        let is_before = u64::from(step.number) < end && !step.is_undone;
        if is_before && has_replaced(step, name, bytes) {
            last = Some(step);
        }
    }
    last
}

// Since when a file is as a step left it, but for edits, before a step of this number, and by whom.
fn since_of(
    standing: &Standing<'_>,
    name: &str,
    bytes: Option<&[u8]>,
    end: u64,
) -> Result<String, AllocError> {
    let mut text = TextBuffer::new(standing.alloc);
    if let Some(step) = last_of_file(standing.steps, name, bytes, end) {
        text.push(", ");
        push_since(standing.alloc, &mut text, step, standing.now);
    }
    text.finish()
}

// ---- an app

// What each statement of an app's rule with these bytes offers; or one line that says why they
// aren't a rule.
fn offers_of(alloc: Global, app: &AppSources, bytes: &[u8]) -> Result<Vec<String>, AllocError> {
    match rule_text(alloc, &app.entry, &app.shape, bytes)? {
        RuleText::Rule(rule) => {
            let lines = rule_lines(alloc, &app.entry, &rule);
            drop(rule);
            lines
        }
        RuleText::Other(sentence) => {
            let mut lines = Vec::new(alloc);
            lines.push(sentence)?;
            Ok(lines)
        }
    }
}

// Adds these lines. The text `since` ends the first, and `indent` begins each further one.
fn push_offers(
    alloc: Global,
    text: &mut TextBuffer,
    app: &AppSources,
    bytes: &[u8],
    since: &str,
    indent: &str,
) {
    let Ok(lines) = offers_of(alloc, app, bytes) else {
        text.leave_out();
        return;
    };
    let mut before = "";
    let mut end = since;
    for line in &lines {
        text.push_all(&[before, line.as_str(), end, "\n"]);
        before = indent;
        end = "";
    }
}

// Adds what a file with these bytes offered before a step of this number.
fn push_file(
    standing: &Standing<'_>,
    app: &AppSources,
    bytes: Option<&[u8]>,
    end: u64,
    indent: &str,
    text: &mut TextBuffer,
) {
    let (alloc, name) = (standing.alloc, app.entry.source().file());
    let Ok(since) = since_of(standing, name, bytes, end) else {
        text.leave_out();
        return;
    };
    match (app.entry.source(), bytes) {
        (ProgramSource::Rule(_), Some(bytes)) => {
            push_offers(alloc, text, app, bytes, since.as_str(), indent)
        }
        (ProgramSource::Program(_), Some(_)) => {
            text.push_printed("by the program ", name, "");
            text.push_all(&[since.as_str(), "\n"]);
        }
        (_, None) => {
            text.push_printed("", name, " can't be read");
            text.push_all(&[since.as_str(), "\n"]);
        }
    }
}

// The bytes that a file had before a step, if the step replaced it.
fn before_of<'x>(files: &'x [ReplacedFile], name: &str) -> Option<&'x [u8]> {
    match file_named(files, name) {
        Some(file) => file.before.as_deref(),
        None => None,
    }
}

// Adds since when an app is halted, by whom and why, and what it offered before.
fn push_halt(
    standing: &Standing<'_>,
    app: &AppSources,
    halt: &StagingStep,
    indent: &str,
    text: &mut TextBuffer,
) {
    text.push("HALTED ");
    push_since(standing.alloc, text, halt, standing.now);
    if let Some(because) = &halt.because {
        text.push_printed(": ", because.as_str(), "");
    }
    text.push("\n");
    if let Some(bytes) = before_of(&halt.files, app.entry.source().file()) {
        text.push_all(&[indent, "before: "]);
        push_file(
            standing,
            app,
            Some(bytes),
            u64::from(halt.number),
            indent,
            text,
        );
    }
}

// The lines of an app.
fn push_app(standing: &Standing<'_>, app: &AppSources, indent: &str, text: &mut TextBuffer) {
    let appid = app.entry.appid();
    push_appid(text, appid, widest(standing.apps));
    if is_in_force(standing.steps, standing.apps, appid)
        && let Some(halt) = last_halt(standing.steps, appid)
    {
        push_halt(standing, app, halt, indent, text);
        return;
    }
    let bytes = whole_file(&app.kept);
    push_file(standing, app, bytes, u64::MAX, indent, text);
    push_releases(standing, app, indent, text);
}

/// Adds the lines of each app.
pub(crate) fn push_apps(standing: &Standing<'_>, text: &mut TextBuffer) {
    let Ok(indent) = indent_of(standing.alloc, standing.apps) else {
        text.leave_out();
        return;
    };
    for app in standing.apps {
        push_app(standing, app, indent.as_str(), text);
    }
}
