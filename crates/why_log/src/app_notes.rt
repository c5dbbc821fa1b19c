//! What a line says of an app besides the facts: the choice that the server made, and which facts
//! the line lacks. No clause says which words; rows compare them.

use crate::line_app::is_named;
use crate::served::LoggedGeneration;
use printing::TextBuffer;
use report::{flag_in, number_in, text_in};
use serde_json::Value;
use std::alloc::{AllocError, Global};

/// What a line says of an app.
#[derive(Drop)]
pub(crate) struct AppNote {
    /// Whether the server didn't have the app.
    pub(crate) is_unknown: bool,
    /// The choice, if the app requested an update and the server had it.
    pub(crate) choice: Option<u64>,
    /// The choice as it is printed.
    pub(crate) outcome: String,
    /// Whether the app was halted at the server.
    pub(crate) is_halted: bool,
    /// The facts that the line lacks.
    pub(crate) lacking: Lacking,
    /// Lines about what is in the line only in part, or counted as absent.
    pub(crate) lines: String,
}

/// The facts that a line lacks, if the app has them.
#[derive(Clone, Copy)]
pub(crate) struct Lacking {
    /// A cohort that names no bucket.
    cohort: bool,
    /// The app's further members, which didn't fit the line.
    further: bool,
}

/// What a line says of an app, written when this generation was served. With `is_short` the line
/// may lack its further members.
pub(crate) fn app_note(
    alloc: Global,
    app: &Value,
    is_short: bool,
    served: &LoggedGeneration,
) -> Result<AppNote, AllocError> {
    let is_unknown = flag_in(app, "unknown").unwrap_or(false);
    let choice = number_in(app, "choice");
    let is_halted = served.has_halted(text_in(app, "appid").unwrap_or(""));
    let lacking = Lacking {
        cohort: !is_named(app),
        further: is_short && !has_further(app),
    };
    let outcome = outcome_text(alloc, choice.unwrap_or(0), text_in(app, "release"))?;
    let lines = note_lines(alloc, app)?;
    Ok(AppNote {
        is_unknown,
        choice,
        outcome,
        is_halted,
        lacking,
        lines,
    })
}

/// A choice as it is printed, with the version that it offers.
pub(crate) fn outcome_text(
    alloc: Global,
    choice: u64,
    version: Option<&str>,
) -> Result<String, AllocError> {
    let mut text = TextBuffer::new(alloc);
    match version {
        Some(version) => text.push_printed("update to ", version, ""),
        None if choice == 0 => text.push("no update"),
        None => text.push_number("release ", choice, ""),
    }
    text.finish()
}

const FURTHER: [&str; 6] = ["ap", "lang", "brand", "platform", "installdate", "ignored"];

// Whether the line has a further member of the app.
fn has_further(app: &Value) -> bool {
    for name in &FURTHER {
        if app.get(*name).is_some() {
            return true;
        }
    }
    false
}

// A text, and the member that says how many of its bytes are left out.
const CUT: [(&str, &str); 6] = [
    ("appid", "appid_left_out"),
    ("version", "version_left_out"),
    ("ap", "ap_left_out"),
    ("lang", "lang_left_out"),
    ("brand", "brand_left_out"),
    ("platform", "platform_left_out"),
];

fn note_lines(alloc: Global, app: &Value) -> Result<String, AllocError> {
    let mut text = TextBuffer::new(alloc);
    for (name, cut) in CUT {
        if let Some(bytes) = number_in(app, cut) {
            text.push_all(&["  cut in the log: ", name, ", "]);
            text.push_number("", bytes, " bytes more\n");
        }
    }
    if let Some(ignored) = text_in(app, "ignored") {
        text.push_printed("  counted as absent by the server: ", ignored, "\n");
    }
    text.finish()
}

/// Appends a line of the facts that these lines test and the log lacks. They count as absent.
pub(crate) fn push_lacking(text: &mut TextBuffer, lines: &str, lacking: Lacking) {
    let mut before = "  not in the log, counted as absent: ";
    if tests(lines, "flag ping") {
        text.push_all(&[before, "ping"]);
        before = ", ";
    }
    if lacking.cohort && tests(lines, "attr cohort") {
        text.push_all(&[before, "cohort"]);
        before = ", ";
    }
    if lacking.further && tests_further(lines) {
        text.push_all(&[before, "ap, lang, brand, platform, installdate"]);
        before = ", ";
    }
    if before == ", " {
        text.push("\n");
    }
}

const FURTHER_TESTS: [&str; 6] = [
    "attr ap",
    "attr lang",
    "attr brand",
    "attr platform",
    "installed",
    "flag installdate_known",
];

fn tests_further(lines: &str) -> bool {
    for test in &FURTHER_TESTS {
        if tests(lines, *test) {
            return true;
        }
    }
    false
}

// Whether the lines have this test. Those of a program may rest on any fact.
fn tests(lines: &str, test: &str) -> bool {
    lines.contains(test) || lines.contains("  by a program of ")
}
