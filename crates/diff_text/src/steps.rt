//! The tables of a condition.

ghost use Rattle.std.specs.Prelude.{All, IfOk, IfSome};
ghost use Rattle.diff_space.specs.Lines.{IsLine};
ghost use Rattle.diff_space.specs.Scopes.{Scope};
ghost use Rattle.diff_text.specs.Tables.{IsMade, IsWhole};

use crate::parts::{Conjunction, joined, negated, tested};
use diff_space::Dimension;
use rule_eval::{ConditionFold, fold};
use rule_lang::{RuleCondition, Test};
use std::alloc::{AllocError, Global};

#[derive(Clone, Copy)]
struct Tabulation<'a> {
    alloc: Global,
    dimensions: &'a [Dimension],
}

impl ConditionFold for Tabulation<'_> {
    type State = ();

    type Part = Option<Conjunction>;

    ghost evaluates = { λ by _ c made _. IsMade by.dimensions.now c made };

    fn test(&self, _state: &mut (), test: &Test) -> Result<Option<Conjunction>, AllocError> {
        tested(self.alloc, self.dimensions, test)
    }

    fn not(&self, part: Option<Conjunction>) -> Result<Option<Conjunction>, AllocError> {
        match part {
            Some(part) => negated(self.alloc, part),
            None => Ok(None),
        }
    }

    fn and(
        &self,
        _state: &mut (),
        first: Option<Conjunction>,
        second: Option<Conjunction>,
    ) -> Result<Option<Conjunction>, AllocError> {
        joined(self.alloc, true, first, second)
    }

    fn or(
        &self,
        _state: &mut (),
        first: Option<Conjunction>,
        second: Option<Conjunction>,
    ) -> Result<Option<Conjunction>, AllocError> {
        joined(self.alloc, false, first, second)
    }
}

/// The part that a condition makes; none if it doesn't make a list of tables that all hold.
pub(crate) fn tables_of(
    alloc: Global,
    dimensions: &[Dimension],
    condition: &RuleCondition,
) -> Result<Option<Conjunction>, AllocError>
    ensures { (x : Scope) → All (IsLine x) dimensions.now → IfOk result (λ o. IfSome o
        (IsWhole x dimensions.now condition.now)) }
{
    let by = Tabulation { alloc, dimensions };
    let mut parts = Vec::new(alloc);
    fold(&by, &mut (), &mut parts, condition)
}
