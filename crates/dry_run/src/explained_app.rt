//! Why an app with given attributes gets what it gets.

ghost use Rattle.std.specs.Prelude.{IfOk, string_bytes};
ghost use Rattle.dry_run.specs.Meanings.{HasMeaning};
ghost use Rattle.dry_run.specs.Why as specs;

use crate::app_lines::{course_lines, head_line, offer_line};
use crate::app_runs::{ExplainedChoice, explain_course};
use attrs::{AppFacts, Attrs};
use bpf_verify::Verified;
use cells::PlainPass;
use load::JudgedApp;
use std::alloc::{AllocError, Global};

/// The choice of an app's rule or program, 0 or the number of a release, and the lines of why.
#[derive(Drop)]
pub struct AppReasons {
    pub choice: u8,
    pub text: String,
}

/// Why an app with these attributes gets what it gets: a first line with the facts, the tests of
/// its rule, the offer, and last these notes. An app without a rule is explained as a program.
// open: whether an allocation fails, its only error; the first line and the offer: rows.
pub fn app_reasons(
    alloc: Global,
    known: &JudgedApp,
    app: &AppFacts,
    attrs: Attrs,
    note: &str,
    counters: &mut PlainPass,
) -> Result<AppReasons, AllocError>
    requires { HasMeaning known.now.program known.now.rule }
    ensures { IfOk result (λ r. specs.RunIsExplained known.now attrs counters.old r.choice
        counters.new (string_bytes r.text)) }
{
    let mut text = head_line(alloc, app, attrs.context())?;
    let program: &Verified = &known.program;
    let ExplainedChoice { choice, course } = explain_course(
        alloc,
        program,
        &known.rule,
        attrs,
        counters,
    )?;
    let lines = course_lines(alloc, program.len(), course)?;
    let after = offer_line(alloc, known.sources.entry.releases(), choice, note)?;
    text.push_str(lines.as_str())?;
    text.push_str(after.as_str())?;
    Ok(AppReasons { choice, text })
}
