//! The lines of warnings.

ghost use Rattle.std.specs.Prelude.{◌≡◌, OnOk};
ghost use Rattle.printing.specs.Pushed.{Puts};
ghost use Rattle.warnings.specs.Warnings as specs;

use crate::warning::{Warning, WarningKind, WarningPlace};
use std::alloc::AllocError;
use std::fmt::Write;

impl WarningKind {
    /// Its name in lower case with hyphens, such as `never-holds`. It doesn't change between
    /// releases of the program.
    pub fn name(self) -> &'static str
        ensures { result.now ≡ specs.name_of self }
    {
        match self {
            WarningKind::UnprintedAppid => "unprinted-appid",
            WarningKind::UnusedArray => "unused-array",
            WarningKind::SharedArray { .. } => "shared-array",
            WarningKind::SameVersion => "same-version",
            WarningKind::CodebaseSlash => "codebase-slash",
            WarningKind::CodebaseScheme => "codebase-scheme",
            WarningKind::EmptyFile => "empty-file",
            WarningKind::PackageName => "package-name",
            WarningKind::FewBuckets { .. } => "few-buckets",
            WarningKind::AllBuckets { .. } => "all-buckets",
            WarningKind::TakeBeforeVersion => "take-before-version",
            WarningKind::NoCohort => "no-cohort",
            WarningKind::EarlyDay => "early-day",
            WarningKind::NeverReached => "never-reached",
            WarningKind::NeverHolds => "never-holds",
            WarningKind::NoBucket => "no-bucket",
            WarningKind::OfferedAgain => "offered-again",
            WarningKind::OfferedLower => "offered-lower",
            WarningKind::NotEvaluated => "not-evaluated",
        }
    }

    #[tactic(auto, unfolding(crate::specs::Warnings::kind_text_of))]
    fn kind_text(self) -> &'static str
        ensures { result.now ≡ specs.kind_text_of self }
    {
        match self {
            WarningKind::UnprintedAppid => ".appid: it has a character that isn't printed",
            WarningKind::UnusedArray => ": no program uses it, and no rule",
            WarningKind::SharedArray { .. } => {
                " use it, so a mistake in one changes the counts and quotas of both"
            }
            WarningKind::SameVersion => ".version: a later release has it, too",
            WarningKind::CodebaseSlash => {
                ".codebase: no / ends it, and a client joins it with a package's name"
            }
            WarningKind::CodebaseScheme => {
                ".codebase: it begins with neither https:// nor http://"
            }
            WarningKind::EmptyFile => ".package: one has the size 0",
            WarningKind::PackageName => {
                ".package: one has a name that is empty, begins with .. or has a blank"
            }
            WarningKind::FewBuckets { .. } | WarningKind::AllBuckets { .. } => {
                " of the bucket numbers: one percent is 100 of them"
            }
            WarningKind::TakeBeforeVersion => {
                ": this take comes before the version, so it is done whatever the version is"
            }
            WarningKind::NoCohort => ": a reply's cohort is b: and four digits",
            WarningKind::EarlyDay => {
                ": this day is before 2026, as days are counted from 2007-01-01"
            }
            WarningKind::NeverReached => ": this when is never reached",
            WarningKind::NeverHolds => ": this when never holds",
            WarningKind::NoBucket => ": no bucket gets it",
            WarningKind::OfferedAgain => ".version: in some bucket its machines may get it again",
            WarningKind::OfferedLower =>
                ".version: in some bucket its machines may get a lower one",
            WarningKind::NotEvaluated => {
                ".rule: evaluating which releases it gives would take too long"
            }
        }
    }
}

fn push_app(text: &mut String, app: usize) -> Result<(), AllocError>
    ensures { OnOk result (Puts text.old text.new (specs.app_path app)) }
{
    write!(text, "app[{app}]")
}

fn push_place(text: &mut String, place: WarningPlace) -> Result<(), AllocError>
    ensures { OnOk result (Puts text.old text.new (specs.place_text place)) }
{
    match place {
        WarningPlace::Array(array) => write!(text, "array[{array}]"),
        WarningPlace::App(app) => push_app(text, app),
        WarningPlace::Release { app, release } => {
            push_app(text, app)?;
            write!(text, ".release[{release}]")
        }
        WarningPlace::Line { app, line } => {
            push_app(text, app)?;
            write!(text, ".rule: line {line}")
        }
    }
}

fn sign_of(up_to: bool) -> &'static str
    ensures { result.now ≡ specs.sign_of up_to }
{
    if up_to { "<=" } else { "<" }
}

// A test of the bucket, and the part of the buckets for which it holds; or the apps that share an
// array.
fn push_part(text: &mut String, kind: WarningKind) -> Result<(), AllocError>
    ensures { OnOk result (Puts text.old text.new (specs.part_text kind)) }
{
    match kind {
        WarningKind::FewBuckets {
            up_to,
            number,
            buckets,
        } => {
            let sign = sign_of(up_to);
            let tenths = buckets / 10;
            let hundredths = buckets % 10;
            write!(
                text,
                ": bucket {sign} {number} is 0.{tenths}{hundredths} percent"
            )
        }
        WarningKind::AllBuckets { up_to, number } => {
            let sign = sign_of(up_to);
            write!(text, ": bucket {sign} {number} is all")
        }
        WarningKind::SharedArray { first, second } => {
            write!(text, ": app[{first}] and app[{second}]")
        }
        _ => Ok(()),
    }
}

/// The text of a warning, without a line end: its place, such as `app[1].rule: line 3`, and what it
/// says.
// open: whether an allocation fails.
pub fn push_warning_text(text: &mut String, warning: &Warning) -> Result<(), AllocError>
    ensures { OnOk result (Puts text.old text.new (specs.warning_text warning.now)) }
{
    push_place(text, warning.place)?;
    push_part(text, warning.kind)?;
    text.push_str(warning.kind.kind_text())
}

fn push_name(text: &mut String, kind: WarningKind) -> Result<(), AllocError>
    ensures { OnOk result (Puts text.old text.new (specs.line_start kind)) }
{
    let name = kind.name();
    write!(text, "warning {name}: ")
}

fn push_line(text: &mut String, warning: &Warning) -> Result<(), AllocError>
    ensures { OnOk result (Puts text.old text.new (specs.warning_line warning.now)) }
{
    push_name(text, warning.kind)?;
    push_warning_text(text, warning)?;
    text.push_str("\n")
}

/// A line for each warning, ended by a line feed, such as `warning never-holds: app[1].rule: line
/// 3: this when never holds`.
// open: whether an allocation fails.
pub fn push_warnings(text: &mut String, warnings: &[Warning]) -> Result<(), AllocError>
    ensures { OnOk result (Puts text.old text.new (specs.warnings_text warnings.now)) }
{
    for warning in warnings {
        push_line(text, warning)?;
    }
    Ok(())
}
