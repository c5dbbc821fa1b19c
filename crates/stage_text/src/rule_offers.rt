//! The rule of an app's file, and what it offers, a line for each `when`.

// The first line whose machines a machine is among counts, so each further one begins with `else`.

ghost use Rattle.std.specs.Prelude.{IfOk};
ghost use Rattle.stage_text.specs.RuleTexts.{IsRuleOf};

use crate::shares::push_machines;
use cells::Shape;
use manifest::AppEntry;
use printing::TextBuffer;
use rule_lang::{Rule, RuleCondition, RuleFault, Statement, parse};
use std::alloc::{AllocError, Global};
use std::str;

// The version of a release, by its number from 1.
fn version_of(app: &AppEntry, release: u8) -> &str {
    match app.releases().get(usize::from(release.saturating_sub(1))) {
        Some(release) => release.version(),
        None => "no release",
    }
}

// What a statement with this condition offers, after these words.
fn offer_line(
    alloc: Global,
    app: &AppEntry,
    before: &str,
    condition: &RuleCondition,
    release: u8,
) -> Result<String, AllocError> {
    let mut text = TextBuffer::new(alloc);
    text.push_printed(before, version_of(app, release), "");
    push_machines(alloc, &mut text, condition, app.source().file());
    text.finish()
}

/// What each statement of an app's rule offers, a line for each `when`, of which each but the first
/// begins with `else`. If there is none, a line says that nothing is offered.
// open: what the lines are: rows.
pub fn rule_lines(alloc: Global, app: &AppEntry, rule: &Rule) -> Result<Vec<String>, AllocError> {
    let mut lines = Vec::new(alloc);
    let mut before = "";
    for statement in rule.statements() {
        if let Statement::When { condition, release } = statement {
            lines.push(offer_line(alloc, app, before, condition, *release)?)?;
            before = "else ";
        }
    }
    if lines.is_empty() {
        lines.push(String::from_str(alloc, "nothing to anybody")?)?;
    }
    Ok(lines)
}

/// What the bytes of an app's file are: its rule, or else a sentence that says why they aren't one.
#[derive(Drop)]
pub enum RuleText {
    Rule(Rule),
    Other(String),
}

// Why a file isn't a rule, as a sentence.
fn why_other(
    alloc: Global,
    app: &AppEntry,
    fault: Option<&RuleFault>,
) -> Result<String, AllocError> {
    let mut text = TextBuffer::new(alloc);
    match fault {
        Some(fault) => {
            text.push_printed("", app.source().file(), " isn't a rule (");
            text.push_value(fault);
            text.push(")");
        }
        None => text.push_printed("", app.source().file(), " isn't a text"),
    }
    text.finish()
}

/// The rule of an app, whose shape and whose file's bytes are given.
// open: whether something else is a rule, and what the sentence is: rows.
pub fn rule_text(
    alloc: Global,
    app: &AppEntry,
    shape: &Shape,
    bytes: &[u8],
) -> Result<RuleText, AllocError>
    ensures { IfOk result (IsRuleOf shape.now bytes.now) }
{
    let Ok(words) = str::from_utf8(bytes) else {
        return Ok(RuleText::Other(why_other(alloc, app, None)?));
    };
    match parse(alloc, words, shape) {
        Ok(rule) => Ok(RuleText::Rule(rule)),
        Err(RuleFault::Memory) => Err(AllocError),
        Err(fault) => Ok(RuleText::Other(why_other(alloc, app, Some(&fault))?)),
    }
}
