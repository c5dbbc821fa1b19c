//! Writes the code of a condition, from its last step to its first. An operator leaves goals for
//! its operands, the next one last, and a test is written for the next goal.

ghost use Rattle.std.specs.Prelude.{◌≡◌, ◌<◌, ◌≤◌, ◌∷◌, true, length, All, OnOk, IfErr};
ghost use Rattle.rule_compile.specs.Code as code;
ghost use Rattle.rule_compile.specs.Ranges.{IsStepInRange};

use crate::blocks::label_if;
use crate::code::Code;
use crate::compile_fault::CompileFault;
use crate::goals::{Goal, Goals};
use crate::test::put_test;
use cells::Shape;
use rule_lang::{RuleCondition, Step};

/// Adds the goals of two operands: the first one jumps out of the chain if it has the value
/// `leaves`, and otherwise the second one decides.
fn put_goals(goals: &mut Goals, goal: Goal, leaves: bool, out: usize) -> Result<(), CompileFault>
    ensures goals { OnOk result (goals.new
        ≡ code.goal goal.sense goal.label ∷ code.goal leaves out ∷ goals.old) }
    ensures memory { IfErr result (λ e. e ≡ CompileFault.Memory) }
{
    goals.push(leaves, out)?;
    goals.push(goal.sense, goal.label)
}

/// Writes one step for a goal.
fn put_at(
    rest: &mut Code,
    shape: &Shape,
    goals: &mut Goals,
    step: &Step,
    goal: Goal,
) -> Result<(), CompileFault>
    requires { goal.label ≤ length rest.old }
    ensures code { OnOk result
        (rest.new ≡ code.step_code shape.now step.now (goal ∷ goals.old) rest.old) }
    ensures goals { OnOk result
        (goals.new ≡ code.step_goals step.now (goal ∷ goals.old) rest.old) }
    ensures long { result ≡ Err CompileFault.TooLong
        → 4096 < length (code.step_code shape.now step.now (goal ∷ goals.old) rest.old) }
    ensures range { IsStepInRange step.now }
{
    match step {
        Step::Test { test, .. } => put_test(rest, shape, test, goal),
        Step::Not => goals.push(!goal.sense, goal.label),
        Step::And => {
            let out = label_if(goal.sense, rest.len(), goal.label);
            put_goals(goals, goal, false, out)
        }
        Step::Or => {
            let out = label_if(goal.sense, goal.label, rest.len());
            put_goals(goals, goal, true, out)
        }
    }
}

/// Writes one step for the next goal.
pub fn put_step(
    rest: &mut Code,
    shape: &Shape,
    goals: &mut Goals,
    step: &Step,
) -> Result<(), CompileFault>
    requires some { 0 < length goals.old }
    requires labels { All (λ g. g.label ≤ length rest.old) goals.old }
    ensures code { OnOk result
        (rest.new ≡ code.step_code shape.now step.now goals.old rest.old) }
    ensures goals { OnOk result
        (goals.new ≡ code.step_goals step.now goals.old rest.old) }
    ensures long { result ≡ Err CompileFault.TooLong
        → 4096 < length (code.step_code shape.now step.now goals.old rest.old) }
    ensures range { IsStepInRange step.now }
{
    match goals.pop() {
        Some(goal) => put_at(rest, shape, goals, step, goal),
        None => unreachable!(),
    }
}
