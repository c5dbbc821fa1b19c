//! A part of a condition: its report, and its takes, which can be undone.

ghost use Rattle.std.specs.Prelude.{◌≡◌, ◌++◌, IfOk, OnOk, string_bytes};
ghost use Rattle.printing.specs.Pushed.{Puts};
ghost use Rattle.why_choice.specs.Ending.{left_at, value_at};
ghost use Rattle.why_choice.specs.Parts as specs;
ghost use Rattle.why_choice.specs.Texts as texts;
ghost use Rattle.rule_lang.specs.Meaning as meaning;

use crate::counters::{CellTake, cell_of, take_one};
use crate::found::push_tested;
use attrs::Attrs;
use cells::{PlainPass, Shape};
use rule_eval::test_holds;
use rule_lang::{Test, array_named};
use std::alloc::{AllocError, Global};
use std::fmt::Write;
use std::marker::Model;

/// The report on a part of a condition, whether it holds, and its takes in order.
#[derive(Drop)]
pub(crate) struct PartReport {
    pub text: String,
    pub holds: bool,
    taken: Vec<CellTake>,
}

impl Model for PartReport {
    ghost use Rattle.std.specs.Prelude.{string_bytes};
    ghost use Rattle.why_choice.specs.Parts as specs;

    ghost Value = { specs.PartReport };

    ghost view = { λ p. record {
      text = string_bytes p.text;
      holds = p.holds;
      taken = p.taken.items;
    } };
}

// The cell that a test takes from.
fn cell_used(shape: &Shape, test: &Test) -> Option<u32>
    ensures { result ≡ meaning.cell_used shape.now test.now }
{
    match test {
        Test::Take { array, index } => {
            Some(cell_of(array_named(shape.arrays(), array.as_str()), *index))
        }
        _ => None,
    }
}

// Takes from a cell, if there is one, and records the take.
fn read_cell(
    counters: &mut PlainPass,
    cell: Option<u32>,
    taken: &mut Vec<CellTake>,
) -> Result<u64, AllocError>
    ensures value { IfOk result (λ value. value ≡ value_at counters.old cell) }
    ensures left { OnOk result (counters.new ≡ left_at counters.old cell) }
    ensures taken { OnOk result
        (taken.new.items ≡ taken.old.items ++ specs.taken_at counters.old cell) }
{
    let Some(cell) = cell else {
        return Ok(0);
    };
    let one = take_one(counters, cell);
    taken.push(one)?;
    Ok(one.value())
}

/// Evaluates a test.
pub(crate) fn read_test(
    alloc: Global,
    attrs: &Attrs,
    shape: &Shape,
    counters: &mut PlainPass,
    test: &Test,
) -> Result<PartReport, AllocError>
    ensures part { IfOk result (λ p.
        p ≡ specs.tested attrs.now shape.now counters.old test.now) }
    ensures left { OnOk result
        (counters.new ≡ left_at counters.old (meaning.cell_used shape.now test.now)) }
{
    let mut taken = Vec::new(alloc);
    let value = read_cell(counters, cell_used(shape, test), &mut taken)?;
    let holds = test_holds(attrs, shape, value, test);
    let mut text = String::new(alloc);
    push_tested(&mut text, attrs, shape, value, holds, test)?;
    Ok(PartReport { text, holds, taken })
}

/// The first part, followed by the second.
pub(crate) fn followed(first: PartReport, second: PartReport) -> Result<PartReport, AllocError>
    ensures { IfOk result (λ p. p ≡ specs.followed first second) }
{
    let PartReport {
        mut text,
        holds: _first_holds,
        mut taken,
    } = first;
    text.push_str("; ")?;
    text.push_str(second.text.as_str())?;
    taken.extend_from_slice(second.taken.as_slice())?;
    Ok(PartReport {
        text,
        holds: second.holds,
        taken,
    })
}

// Restores the counters, the last take first.
fn give_back(taken: Vec<CellTake>, counters: &mut PlainPass)
    ensures { counters.new ≡ specs.given_back taken.items counters.old }
{
    let mut left = taken;
    while let Some(one) = left.pop() {
        one.give_back(counters);
    }
}

/// Drops the second part, which doesn't count.
pub(crate) fn without(first: PartReport, second: PartReport, counters: &mut PlainPass) -> PartReport
    ensures part { result ≡ first }
    ensures back { counters.new ≡ specs.given_back second.taken counters.old }
{
    let PartReport {
        text: _text,
        holds: _holds,
        taken,
    } = second;
    give_back(taken, counters);
    first
}

/// A part under `not`.
pub(crate) fn negated(alloc: Global, part: PartReport) -> Result<PartReport, AllocError>
    ensures { IfOk result (λ p. p ≡ specs.negated part) }
{
    let PartReport {
        text: report,
        holds,
        taken,
    } = part;
    let mut text = String::new(alloc);
    push_negated(&mut text, report.as_str())?;
    Ok(PartReport {
        text,
        holds: !holds,
        taken,
    })
}

fn push_negated(text: &mut String, report: &str) -> Result<(), AllocError>
    ensures { OnOk result (Puts text.old text.new (texts.negated_text report.now)) }
{
    write!(text, "not ({report})")
}
