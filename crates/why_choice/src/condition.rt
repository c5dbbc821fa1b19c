//! Evaluates a condition, with a report.

ghost use Rattle.std.specs.Prelude.{◌≡◌, IfOk, OnOk, if◌then◌else◌};
ghost use Rattle.why_choice.specs.Parts.{IsPartOf};
ghost use Rattle.why_choice.specs.Reading.{Reading, read_after, read_steps, read_tree};

use crate::part::{PartReport, followed, negated, read_test, without};
use attrs::Attrs;
use cells::{PlainPass, Shape};
use rule_eval::{ConditionFold, fold};
use rule_lang::{RuleCondition, Test};
use std::alloc::{AllocError, Global};

#[derive(Clone, Copy)]
struct Evaluation<'a> {
    alloc: Global,
    attrs: &'a Attrs,
    shape: &'a Shape,
}

impl ConditionFold for Evaluation<'_> {
    type State = PlainPass;

    type Part = PartReport;

    ghost evaluates = { λ by old c p new.
        IsPartOf (read_tree by.attrs.now by.shape.now old c) old p new };

    fn test(&self, counters: &mut PlainPass, test: &Test) -> Result<PartReport, AllocError> {
        read_test(self.alloc, self.attrs, self.shape, counters, test)
    }

    fn not(&self, part: PartReport) -> Result<PartReport, AllocError> {
        negated(self.alloc, part)
    }

    fn and(
        &self,
        counters: &mut PlainPass,
        first: PartReport,
        second: PartReport,
    ) -> Result<PartReport, AllocError> {
        joined(first.holds, first, second, counters)
    }

    fn or(
        &self,
        counters: &mut PlainPass,
        first: PartReport,
        second: PartReport,
    ) -> Result<PartReport, AllocError> {
        joined(!first.holds, first, second, counters)
    }
}

// Joins two parts, of which the second counts or doesn't.
fn joined(
    counts: bool,
    first: PartReport,
    second: PartReport,
    counters: &mut PlainPass,
) -> Result<PartReport, AllocError>
    ensures { (r q : Reading) (before between : _) → IsPartOf r before first between
        → IsPartOf q between second counters.old → IfOk result
        (λ p. IsPartOf (if counts then read_after r q else r) before p counters.new) }
{
    if counts {
        followed(first, second)
    } else {
        Ok(without(first, second, counters))
    }
}

/// Evaluates a condition on counters, including its takes.
pub(crate) fn read_condition(
    alloc: Global,
    attrs: &Attrs,
    shape: &Shape,
    counters: &mut PlainPass,
    condition: &RuleCondition,
) -> Result<PartReport, AllocError>
    ensures text { IfOk result (λ p.
        p.text ≡ (read_steps attrs.now shape.now counters.old condition.now).text) }
    ensures holds { IfOk result (λ p.
        p.holds ≡ (read_steps attrs.now shape.now counters.old condition.now).holds) }
    ensures left { OnOk result
        (counters.new ≡ (read_steps attrs.now shape.now counters.old condition.now).counters) }
{
    let by = Evaluation {
        alloc,
        attrs,
        shape,
    };
    let mut parts = Vec::new(alloc);
    fold(&by, counters, &mut parts, condition)
}
