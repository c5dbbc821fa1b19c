//! The result of comparing an app.

ghost use Rattle.std.specs.Prelude.{◌≡◌, option_copied};
ghost use Rattle.diff_manifests.specs.Outcomes as specs;

use diff_text::AppRows;
use load::JudgedApp;

/// Which of the manifests have an app: both, only NEW, or only OLD.
#[derive(Clone, Copy)]
pub enum AppChange {
    Kept,
    New,
    Gone,
}

impl AppChange {
    /// From the app in OLD and in NEW, at least one of which exists.
    pub(crate) fn of(old: Option<&JudgedApp>, new: Option<&JudgedApp>) -> AppChange
        ensures { result ≡ specs.change_of (option_copied old.entry) (option_copied new.entry) }
    {
        match (old, new) {
            (None, _) => AppChange::New,
            (Some(_), None) => AppChange::Gone,
            (Some(_), Some(_)) => AppChange::Kept,
        }
    }
}

/// Why an app isn't compared.
#[derive(Clone, Copy)]
pub enum WhyNot {
    /// A program decides in at least one manifest, and programs, arrays or contents differ.
    Program,
    /// The search would take too many steps, or a condition is too long for a rule.
    Size,
}

fn is_program(app: Option<&JudgedApp>) -> bool
    ensures { result ≡ specs.is_program (option_copied app.entry) }
{
    match app {
        Some(app) => app.rule.is_none(),
        None => false,
    }
}

impl WhyNot {
    /// Why an app isn't compared, if it isn't.
    pub(crate) fn of(old: Option<&JudgedApp>, new: Option<&JudgedApp>) -> WhyNot
        ensures { result ≡ specs.why_not (option_copied old.entry) (option_copied new.entry) }
    {
        if is_program(old) || is_program(new) {
            WhyNot::Program
        } else {
            WhyNot::Size
        }
    }
}

/// The app is the same in both manifests, or it has rows, perhaps none, of the machines for which
/// it differs, or it isn't compared.
#[derive(Drop)]
pub enum AppOutcome {
    Same,
    Rows(AppRows),
    NotCompared(WhyNot),
}
