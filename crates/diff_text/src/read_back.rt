//! Reading a condition back: the parser of rules reads the printed text.

ghost use Rattle.std.specs.Prelude.{◌≡◌, ◌∷◌, [], All, IfOk, IfSome, Ok, string_bytes};
ghost use Rattle.std.specs.Prelude.{true, false};
ghost use Rattle.rule_lang.specs.Verdicts.{IsVerdict};
ghost use Rattle.diff_space.specs.Lines.{IsLine};
ghost use Rattle.diff_space.specs.Scopes.{Scope};
ghost use Rattle.diff_text.specs.Conditions as specs;

use crate::matching::are_tables_of;
use crate::steps::tables_of;
use cells::Shape;
use diff_rules::SegmentSet;
use diff_space::Dimension;
use rule_lang::{Rule, RuleCondition, RuleFault, Statement, parse};
use std::alloc::{AllocError, Global};

// The condition, if there is one `when` that offers release 1.
fn condition_of(statements: &[Statement]) -> Option<&RuleCondition>
    ensures { IfSome result (λ condition. statements.now ≡ Statement.When condition.now 1 ∷ []) }
{
    let [statement] = statements else {
        return None;
    };
    match statement {
        Statement::When { condition, release } => {
            if *release != 1 {
                return None;
            }
            Some(condition)
        }
        Statement::Count { .. } => None,
    }
}

// Whether the statement offers release 1 exactly to the machines in states that are in these sets,
// apart from sets of cells that grant takes. If it isn't of the form that is printed, the result
// is no.
fn is_meant(
    alloc: Global,
    dimensions: &[Dimension],
    sets: &[SegmentSet],
    statements: &[Statement],
) -> Result<bool, AllocError>
    ensures { (x : Scope) → All (IsLine x) dimensions.now → IfOk result (λ ok. ok ≡ true
        → specs.IsMeant x dimensions.now (specs.tested_sets dimensions.now sets.now)
        statements.now) }
{
    let Some(condition) = condition_of(statements) else {
        return Ok(false);
    };
    match tables_of(alloc, dimensions, condition)? {
        Some(whole) => Ok(are_tables_of(dimensions, sets, &whole.tables)),
        None => Ok(false),
    }
}

fn starts_comment(quoted: bool, byte: u8) -> bool
    ensures { result ≡ specs.starts_comment quoted byte }
{
    byte < b' ' || (!quoted && byte == b'#')
}

fn quoted_after(quoted: bool, byte: u8) -> bool
    ensures { result ≡ specs.quoted_after quoted byte }
{
    if byte == b'"' { !quoted } else { quoted }
}

// Whether a control is there, or a comment begins outside of quotation marks.
fn has_comment(text: &[u8]) -> bool
    ensures { result ≡ specs.has_comment false text.now }
{
    let mut quoted = false;
    let mut left = text;
    while let [first, others @ ..] = left {
        if starts_comment(quoted, *first) {
            return true;
        }
        quoted = quoted_after(quoted, *first);
        left = others;
    }
    false
}

fn offer_if(alloc: Global, condition: &str) -> Result<String, AllocError>
    ensures { IfOk result (λ text. string_bytes text ≡ specs.offer_if condition.now) }
{
    let mut text = String::from_str(alloc, "when ")?;
    text.push_str(condition)?;
    text.push_str(" offer 1; otherwise none;")?;
    Ok(text)
}

// The rule that offers release 1 under a condition, read from its text.
fn rule_of(alloc: Global, condition: &str) -> Result<Option<Rule>, AllocError>
    ensures { IfOk result (λ o. IfSome o (λ rule.
        IsVerdict specs.one_release (specs.offer_if condition.now) (Ok rule))) }
{
    let text = offer_if(alloc, condition)?;
    let shape = Shape::plain(alloc, 1);
    match parse(alloc, text.as_str(), &shape) {
        Ok(rule) => Ok(Some(rule)),
        Err(RuleFault::Memory) => Err(AllocError),
        Err(_) => Ok(None),
    }
}

/// Whether the text of a condition, read by the parser of rules, holds exactly for the machines in
/// states that are in these sets, apart from sets of cells that grant takes.
pub(crate) fn reads_back(
    alloc: Global,
    dimensions: &[Dimension],
    sets: &[SegmentSet],
    condition: &str,
) -> Result<bool, AllocError>
    ensures { (x : Scope) → All (IsLine x) dimensions.now → IfOk result (λ ok. ok ≡ true
        → specs.ReadsBack x dimensions.now (specs.tested_sets dimensions.now sets.now)
        condition.now) }
{
    if has_comment(condition.as_bytes()) {
        return Ok(false);
    }
    let Some(rule) = rule_of(alloc, condition)? else {
        return Ok(false);
    };
    let ok = is_meant(alloc, dimensions, sets, rule.statements())?;
    Ok(ok)
}
