//! The report on a rule.

ghost use Rattle.std.specs.Prelude.{◌≡◌, IfOk, OnOk, string_bytes};
ghost use Rattle.printing.specs.Pushed.{Puts};
ghost use Rattle.why_choice.specs.Ending.{ending, ending_on};
ghost use Rattle.why_choice.specs.RuleLines as specs;
ghost use Rattle.rule_lang.specs.Meaning.{behaviour};

use crate::condition::read_condition;
use crate::counters::{add_one, cell_of};
use crate::laws::{endings_are_meant, whens_decide};
use crate::rule_lines::{push_otherwise, push_when};
use attrs::Attrs;
use cells::{ArrayName, PlainPass, Shape};
use rule_lang::{Rule, RuleCondition, Statement, array_named};
use std::alloc::{AllocError, Global};

/// Adds the lines of a rule to a text: its tests for an app, on counters with given values, up to
/// the `when` that chooses, or to `otherwise none`. Returns the rule's choice, 0 for none, and
/// leaves the counters as the rule leaves them.
// open: whether an allocation fails, which is its one error, and what the text and the counters are
// then; that no text of a rule or a client breaks a line: rows.
pub fn explain_rule(
    alloc: Global,
    text: &mut String,
    attrs: &Attrs,
    shape: &Shape,
    rule: &Rule,
    counters: &mut PlainPass,
) -> Result<u8, AllocError>
    ensures { IfOk result (λ choice. specs.ExplainsRule attrs.now shape.now rule.now counters.old
        (string_bytes text.old) (string_bytes text.new) choice counters.new) }
{
    endings_are_meant();
    counters.invariant_law();
    explain_statements(alloc, text, attrs, shape, rule.statements(), counters)
}

fn explain_statements(
    alloc: Global,
    text: &mut String,
    attrs: &Attrs,
    shape: &Shape,
    statements: &[Statement],
    counters: &mut PlainPass,
) -> Result<u8, AllocError>
    ensures text { OnOk result
        (Puts text.old text.new (specs.rule_text attrs.now shape.now counters.old statements.now)) }
    ensures ending { IfOk result (λ choice. ending_on counters.old
        (behaviour attrs.now shape.now statements.now) ≡ ending choice counters.new) }
{
    whens_decide();
    let mut left = statements;
    while let [statement, others @ ..] = left {
        match statement {
            Statement::Count { array, index } => count(shape, array, *index, counters),
            Statement::When { condition, release } => {
                if explain_when(alloc, text, attrs, shape, condition, counters)? {
                    return Ok(*release);
                }
            }
        }
        left = others;
    }
    push_otherwise(text)?;
    Ok(0)
}

fn count(shape: &Shape, array: &ArrayName, index: u16, counters: &mut PlainPass)
    ensures { counters.new ≡ specs.counted shape.now counters.old array.now index }
{
    let cell = cell_of(array_named(shape.arrays(), array.as_str()), index);
    let _value = add_one(counters, cell);
}

// Adds the line of a `when`, and returns whether it holds.
fn explain_when(
    alloc: Global,
    text: &mut String,
    attrs: &Attrs,
    shape: &Shape,
    condition: &RuleCondition,
    counters: &mut PlainPass,
) -> Result<bool, AllocError>
    ensures { IfOk result
        (λ holds. specs.ExplainsWhen attrs.now shape.now condition.now counters.old
        (string_bytes text.old) (string_bytes text.new) holds counters.new) }
{
    let part = read_condition(alloc, attrs, shape, counters, condition)?;
    push_when(text, condition.steps(), part.text.as_str())?;
    Ok(part.holds)
}
