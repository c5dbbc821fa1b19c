//! Conditions, as lists of steps.

ghost use Rattle.std.specs.Prelude.{◌≡◌};
ghost use Rattle.rule_lang.specs.Trees.{IsCondition};

use crate::test::Test;
use std::marker::Model;

/// One step of a condition: a test, with its line in the rule's text from 1, or an operator on the
/// one or two conditions before it.
#[derive(Drop)]
pub enum Step {
    Test { line: usize, test: Test },
    Not,
    And,
    Or,
}

/// A condition in post-fix order: `a and not b` is the steps `a`, `b`, `Not`, `And`. So loops read,
/// keep and drop a chain of any length.
#[derive(Drop)]
pub struct RuleCondition {
    steps: Vec<Step>,
}

impl Model for RuleCondition {
    ghost use Rattle.std.specs.Prelude.{List};
    ghost use Rattle.rule_lang.specs.declared.condition.Step.{Step};

    ghost Value = { List Step };

    ghost use Rattle.rule_lang.specs.Trees.{IsCondition};

    ghost view = { λ c. c.steps.items };

    ghost invariant = { λ c. IsCondition c.steps.items };
}

impl RuleCondition {
    /// The condition of these steps.
    pub fn of(steps: Vec<Step>) -> RuleCondition
        requires { IsCondition steps.items }
        ensures { result ≡ steps.items }
    {
        RuleCondition { steps }
    }

    /// The steps, in post-fix order.
    pub fn steps(&self) -> &[Step]
        ensures steps { result.now ≡ self.now }
        ensures condition { IsCondition result.now }
    {
        &self.steps
    }
}
