//! Three-valued evaluation of a condition.

ghost use Rattle.std.specs.Prelude.{◌≡◌, IfOk};
ghost use Rattle.warnings.specs.Possible.{steps_possible, test_possible, tree_possible};

use crate::holding::test_possible;
use crate::possible::{Clients, Possible};
use attrs::Attrs;
use cells::Shape;
use rule_eval::{ConditionFold, fold};
use rule_lang::{RuleCondition, Test};
use std::alloc::AllocError;

#[derive(Clone, Copy)]
struct Evaluation<'a> {
    clients: Clients,
    attrs: &'a Attrs,
    shape: &'a Shape,
}

impl ConditionFold for Evaluation<'_> {
    type State = ();

    type Part = Possible;

    ghost evaluates = { λ by _ c p _.
        p ≡ tree_possible (test_possible by.clients by.attrs.now by.shape.now) c };

    fn test(&self, _state: &mut (), test: &Test) -> Result<Possible, AllocError> {
        Ok(test_possible(self.clients, self.attrs, self.shape, test))
    }

    fn not(&self, part: Possible) -> Result<Possible, AllocError> {
        Ok(part.negated())
    }

    fn and(
        &self,
        _state: &mut (),
        first: Possible,
        second: Possible,
    ) -> Result<Possible, AllocError> {
        Ok(first.both(second))
    }

    fn or(
        &self,
        _state: &mut (),
        first: Possible,
        second: Possible,
    ) -> Result<Possible, AllocError> {
        Ok(first.either(second))
    }
}

/// The possible results of a condition. `parts` is a reused buffer, with any content afterwards.
pub(crate) fn condition_possible(
    parts: &mut Vec<Possible>,
    clients: Clients,
    attrs: &Attrs,
    shape: &Shape,
    condition: &RuleCondition,
) -> Result<Possible, AllocError>
    ensures { IfOk result (λ p.
        p ≡ steps_possible (test_possible clients attrs.now shape.now) condition.now) }
{
    let by = Evaluation {
        clients,
        attrs,
        shape,
    };
    fold(&by, &mut (), parts, condition)
}
