//! The walk over a condition: its steps, in post-fix order, make one value out of others.

ghost use Rattle.std.specs.Prelude.{◌≡◌, ◌≤◌, ◌∷◌, [], List, IfOk, length, reverse};
ghost use Rattle.rule_lang.specs.declared.condition.Step.{Step as a_step};
ghost use Rattle.rule_eval.specs.Folds as specs;

use rule_lang::{RuleCondition, Step, Test};
use std::alloc::AllocError;

/// How a condition is evaluated: the value of a test, and those of `not`, `and` and `or` by the
/// values that they join.
pub trait ConditionFold {
    ghost use Rattle.rule_lang.specs.Trees.{Tree, Leaf, Negated, Both, Either};

    /// What a test changes, such as counters.
    type State;

    /// The value of a condition, or of a part of it.
    type Part: Drop;

    /// The state before a condition, its tree, its value, and the state after it.
    ghost evaluates: { Self → Self.State → Tree → Self.Part → Self.State → Type 0 };

    /// The value of a test.
    fn test(&self, state: &mut Self::State, test: &Test) -> Result<Self::Part, AllocError>
        ensures { (line : _) → IfOk result (λ p.
            evaluates self.now state.old (Leaf line test.now) p state.new) };

    /// The value of `not`.
    fn not(&self, part: Self::Part) -> Result<Self::Part, AllocError>
        ensures { (c : Tree) (before after : Self.State) → evaluates self.now before c part after
            → IfOk result (λ p. evaluates self.now before (Negated c) p after) };

    /// The value of `and`. The second condition is evaluated also if it doesn't count.
    fn and(
        &self,
        state: &mut Self::State,
        first: Self::Part,
        second: Self::Part,
    ) -> Result<Self::Part, AllocError>
        ensures { (b c : Tree) (before between : Self.State)
            → evaluates self.now before b first between
            → evaluates self.now between c second state.old
            → IfOk result (λ p. evaluates self.now before (Both b c) p state.new) };

    /// The value of `or`. The second condition is evaluated also if it doesn't count.
    fn or(
        &self,
        state: &mut Self::State,
        first: Self::Part,
        second: Self::Part,
    ) -> Result<Self::Part, AllocError>
        ensures { (b c : Tree) (before between : Self.State)
            → evaluates self.now before b first between
            → evaluates self.now between c second state.old
            → IfOk result (λ p. evaluates self.now before (Either b c) p state.new) };
}

// The newest part.
fn pop<P: Drop>(parts: &mut Vec<P>) -> P
    requires { 1 ≤ length parts.old.items }
    ensures { reverse parts.old.items ≡ result ∷ reverse parts.new.items }
{
    match parts.pop() {
        Some(part) => part,
        None => unreachable!(),
    }
}

// The value of one step, made of the newest ones.
fn take_step<F: ConditionFold>(
    by: &F,
    state: &mut F::State,
    parts: &mut Vec<F::Part>,
    step: &Step,
) -> Result<F::Part, AllocError>
    requires { specs.operands step.now ≤ length parts.old.items }
    ensures { (first : F.State) (all left : List a_step)
        → specs.HaveMade (F.evaluates by.now) first all (step.now ∷ left)
        (reverse parts.old.items) state.old → IfOk result
        (λ p. specs.HaveMade (F.evaluates by.now) first all left
        (p ∷ reverse parts.new.items) state.new) }
{
    match step {
        Step::Test { test, .. } => by.test(state, test),
        Step::Not => by.not(pop(parts)),
        Step::And => {
            let second = pop(parts);
            let first = pop(parts);
            by.and(state, first, second)
        }
        Step::Or => {
            let second = pop(parts);
            let first = pop(parts);
            by.or(state, first, second)
        }
    }
}

/// The value of a condition. `parts` is a reused buffer, with any content before and afterwards.
// open: whether an allocation fails, which is its one error, and what the state is then.
pub fn fold<F: ConditionFold>(
    by: &F,
    state: &mut F::State,
    parts: &mut Vec<F::Part>,
    condition: &RuleCondition,
) -> Result<F::Part, AllocError>
    ensures { IfOk result (λ p.
        specs.Evaluated (F.evaluates by.now) state.old condition.now p state.new) }
{
    parts.clear();
    let mut left = condition.steps();
    while let [step, others @ ..] = left {
        let part = take_step(by, state, parts, step)?;
        parts.push(part)?;
        left = others;
    }
    Ok(pop(parts))
}
