//! The sentences that say why a stage stops, and what to do.

// No contract says what they are: bench/outside tests them.

use diff_manifests::DiffFault;
use load::{AppSources, LoadFault};
use printing::TextBuffer;
use rule_lang::RuleFault;
use stage_rules::{RaiseFault, WithoutFault};
use stage_servers::{Stop, refusal, refusal_of};
use std::alloc::Global;

/// Somebody may lose a release.
pub(crate) const LOSES: &str = "a row is lost, or an app isn't compared: some machines may no \
    longer get their release (--anyway continues)";

/// No step is left to be undone.
pub(crate) const NOTHING_TO_UNDO: &str = "no step is left to be undone";

/// There are too many steps.
pub(crate) const NO_NUMBER: &str = "no number is left for a step: move the folder .stage away";

/// What follows the name of a file: an app with a program can't be raised.
pub(crate) const HAS_PROGRAM: &str = " is a program: make another one, and put it in place";

/// An app has no file with a text.
pub(crate) const NO_TEXT: &str = " isn't a text, or isn't there: put a rule in place";

/// What follows the name of a file: it was edited since the step that is to be undone.
pub(crate) const EDITED: &str =
    ": it was edited since the step: restore it by hand, or put a manifest";

/// What follows the name of a file: a manifest gives it two contents.
pub(crate) const TWO_CONTENTS: &str = " would get two contents: give each file of the manifest its \
    own name, and call it again";

/// A statement of a rule can't be found.
const TOO_LONG: &str = " isn't changed: one of its statements is too long: edit a copy, and put it";

/// The rule is the one of a halt of the whole app.
pub(crate) const HALTS_ALL: &str = " halts the whole app already: lift that halt first";

/// The rule is the one of a halt.
pub(crate) const IS_HALTED: &str = " isn't raised: it halts the app: lift that halt first";

/// What follows an appid: no recorded halt is in force.
pub(crate) const NOT_HALTED: &str = " isn't halted by a step: if a server halts it, call rollout \
    resume there";

/// What follows the name of a file: a later step replaced it, so the halt isn't its last state.
pub(crate) const REPLACED_SINCE: &str = " was replaced again since the halt (if a step stopped \
    there, call stage back): put the rule that you want in place";

// ---- manifests

/// The manifest with the new file is refused.
pub(crate) fn next_refused(alloc: Global, fault: LoadFault) -> Stop {
    let mut text = TextBuffer::new(alloc);
    text.push("the manifest would be refused (");
    text.push_value(&fault);
    text.push("): mend it first");
    drop(fault);
    refusal(text)
}

/// Two manifests can't be compared.
pub(crate) fn not_compared(alloc: Global, fault: DiffFault) -> Stop {
    let mut text = TextBuffer::new(alloc);
    text.push("what changes can't be compared (");
    text.push_value(&fault);
    text.push(")");
    drop(fault);
    refusal(text)
}

/// The next manifest would lift the halts of these apps.
pub(crate) fn lifts(alloc: Global, appids: &[String]) -> Stop {
    let mut text = TextBuffer::new(alloc);
    text.push("this lifts the halt of ");
    let mut mark = "";
    for appid in appids {
        text.push_printed(mark, appid.as_str(), "");
        mark = ", and of ";
    }
    text.push(" (--anyway continues)");
    refusal(text)
}

// ---- apps

/// The manifest in place hasn't the app.
pub(crate) fn no_app(alloc: Global, appid: &str, apps: &[AppSources]) -> Stop {
    let mut text = TextBuffer::new(alloc);
    text.push_printed("current.toml has no app ", appid, ", only ");
    let mut mark = "";
    for app in apps {
        text.push_printed(mark, app.entry.appid(), "");
        mark = ", ";
    }
    refusal(text)
}

/// No halt of the app is in force but that of a release, which an earlier step halted.
pub(crate) fn release_halted(alloc: Global, appid: &str, version: &str, number: u32) -> Stop {
    let mut text = TextBuffer::new(alloc);
    text.push_printed("the last halt of ", appid, " is lifted, but ");
    text.push_printed("", version, " is still halted ");
    text.push_number(
        "by step ",
        number as u64,
        ": put the rule that you want in place ",
    );
    text.push("(--anyway lifts that halt, too)");
    refusal(text)
}

/// Another app has the same file. One that names it otherwise isn't compared.
pub(crate) fn one_file(alloc: Global, file: &str, other: &str) -> Stop {
    let mut text = TextBuffer::new(alloc);
    text.push_printed("", file, " is the file of app ");
    text.push_printed("", other, ", too (--anyway changes each app of it; ");
    text.push("one that names it otherwise isn't compared)");
    refusal(text)
}

// The text of a rule is wrong.
fn no_rule(alloc: Global, file: &str, fault: RuleFault) -> Stop {
    let mut text = TextBuffer::new(alloc);
    text.push_printed("", file, " isn't a rule (");
    text.push_value(&fault);
    text.push("): put another one in place");
    refusal(text)
}

/// The number of a rule can't be changed.
pub(crate) fn not_raised(alloc: Global, file: &str, fault: RaiseFault) -> Stop {
    let rest = match fault {
        RaiseFault::OutOfRange => " isn't raised: a rule has 0 to 10000 buckets, not more",
        RaiseFault::NoThreshold => {
            " isn't raised: it has no test bucket < N: put a rule with one in place"
        }
        RaiseFault::SeveralThresholds => {
            " isn't raised: it has several tests bucket < N: edit a copy, and put it"
        }
        RaiseFault::NoDigits => {
            " isn't raised: a comment is in its test bucket < N: edit a copy, and put it"
        }
        RaiseFault::NoRule(fault) => return no_rule(alloc, file, fault),
        RaiseFault::Memory => return Stop::Memory,
    };
    refusal_of(alloc, file, rest)
}

// The app has no release of a version.
fn no_release(alloc: Global, app: &AppSources, version: &str) -> Stop {
    let mut text = TextBuffer::new(alloc);
    text.push_printed("", app.entry.appid(), " has no release ");
    text.push_printed("", version, ", only ");
    let mut mark = "";
    for release in app.entry.releases() {
        text.push_printed(mark, release.version(), "");
        mark = ", ";
    }
    refusal(text)
}

/// The statements that offer a version can't be taken out of a rule.
pub(crate) fn not_left_out(
    alloc: Global,
    app: &AppSources,
    version: &str,
    fault: WithoutFault,
) -> Stop {
    let file = app.entry.source().file();
    match fault {
        WithoutFault::NoRelease => no_release(alloc, app, version),
        WithoutFault::NoRule(fault) => no_rule(alloc, file, fault),
        WithoutFault::NotFound => refusal_of(alloc, file, TOO_LONG),
        WithoutFault::Memory => Stop::Memory,
    }
}
