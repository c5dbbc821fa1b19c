//! The lines of an app around those of its rule: who it is, and what it gets. No clause says which
//! words; rows compare them.

ghost use Rattle.std.specs.Prelude.{◌≡◌, ◌-◌, ◌==◌, IfOk, None, if◌then◌else◌, slice_get};
ghost use Rattle.std.specs.Prelude.{option_copied, string_bytes};
ghost use Rattle.dry_run.specs.Courses as specs;

use crate::app_runs::ChoiceCourse;
use attrs::{AppFacts, Context, Text};
use printing::Printed;
use releases::Release;
use std::alloc::{AllocError, Global};
use std::fmt::Write;
use trace::Jump;
use why_choice::push_quoted;

/// The lines of an app that the ruleset doesn't know, followed by its notes.
// open: the lines, and whether an allocation fails: rows.
pub fn unknown_app(alloc: Global, appid: &str, note: &str) -> Result<String, AllocError> {
    let mut text = String::from_str(alloc, "app ")?;
    push_quoted(&mut text, appid)?;
    text.push_str(": unknown\n")?;
    text.push_str(note)?;
    Ok(text)
}

/// The lines of an app that requests no update, followed by its notes.
// open: the lines, and whether an allocation fails: rows.
pub fn no_request_app(
    alloc: Global,
    app: &AppFacts,
    context: Context,
    note: &str,
) -> Result<String, AllocError> {
    let mut text = head_line(alloc, app, context)?;
    text.push_str("  has no updatecheck\n")?;
    text.push_str(note)?;
    Ok(text)
}

/// The first line of an app with this context.
pub(crate) fn head_line(
    alloc: Global,
    app: &AppFacts,
    context: Context,
) -> Result<String, AllocError> {
    let mut text = String::new(alloc);
    let appid = Printed(app.appid.as_str());
    write!(text, "app {appid}: ")?;
    push_version(&mut text, &app.version, context.flags)?;
    let bucket = context.bucket;
    let day = context.today;
    let by = bucket_source(context.flags);
    writeln!(text, ", bucket {bucket} by its {by}, day {day}")?;
    Ok(text)
}

fn push_version(text: &mut String, version: &Option<Text>, flags: u8) -> Result<(), AllocError> {
    match version {
        Some(version) => push_written(text, version.as_str(), flags),
        None => text.push_str("no version"),
    }
}

fn push_written(text: &mut String, version: &str, flags: u8) -> Result<(), AllocError> {
    text.push_str("version ")?;
    if flags & Context::VERSION_KNOWN == 0 {
        push_quoted(text, version)?;
        return text.push_str(", which is none");
    }
    let version = Printed(version);
    write!(text, "{version}")
}

fn bucket_source(flags: u8) -> &'static str {
    if flags & Context::COHORT_KNOWN == 0 {
        "request"
    } else {
        "cohort"
    }
}

/// The lines of how a program of `slots` slots makes its choice; those of a rule as they are.
pub(crate) fn course_lines(
    alloc: Global,
    slots: usize,
    course: ChoiceCourse,
) -> Result<String, AllocError>
    ensures { IfOk result (λ lines. specs.IsPrinted course (string_bytes lines)) }
{
    match course {
        ChoiceCourse::ByRule(lines) => Ok(lines),
        ChoiceCourse::ByRun { count, last_jump } => {
            let line = run_line(alloc, slots, count, last_jump)?;
            Ok(line)
        }
    }
}

fn run_line(
    alloc: Global,
    slots: usize,
    count: u32,
    last_jump: Option<Jump>,
) -> Result<String, AllocError> {
    let mut text = String::new(alloc);
    write!(
        text,
        "  by a program of {slots} slots, in {count} instructions, "
    )?;
    match last_jump {
        Some(jump) => push_jump(&mut text, jump)?,
        None => text.push_str("without a jump\n")?,
    }
    Ok(text)
}

fn push_jump(text: &mut String, jump: Jump) -> Result<(), AllocError> {
    let from = jump.from;
    let to = jump.to;
    writeln!(text, "the last jump from slot {from} to slot {to}")
}

/// The line of the release that a choice offers, followed by the app's notes.
pub(crate) fn offer_line(
    alloc: Global,
    releases: &[Release],
    choice: u8,
    note: &str,
) -> Result<String, AllocError> {
    let mut text = String::new(alloc);
    match offered(releases, choice) {
        Some(release) => {
            let version = Printed(release.version());
            writeln!(text, "  update to {version}")?;
        }
        None if choice == 0 => text.push_str("  no update\n")?,
        None => writeln!(text, "  release {choice}")?,
    }
    text.push_str(note)?;
    Ok(text)
}

// The release that a choice offers: 0 is none, and k the k-th release.
fn offered(releases: &[Release], choice: u8) -> Option<&Release>
    ensures { option_copied result
        ≡ (if choice == 0 then None else slice_get releases.now (choice - 1)) }
{
    if choice == 0 {
        return None;
    }
    releases.get(choice as usize - 1)
}
