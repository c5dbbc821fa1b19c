//! Writes the code of a rule, from its last statement to its first.

ghost use Rattle.std.specs.Prelude.{◌≡◌, ◌<◌, ◌≤◌, ◌+◌, ◌*◌, [], ◌∷◌, true};
ghost use Rattle.std.specs.Prelude.{length, IfOk, OnOk, slice_get};
ghost use Rattle.rule_compile.specs.Code as code;
ghost use Rattle.rule_compile.specs.Ranges.{AreInRange, IsStatementInRange};
ghost use Rattle.rule_compile.specs.Ranges.{IsRuleInRange, IsMade, AreMade};
ghost use Rattle.rule_lang.specs.Cost.{tests_in, tests_of, cost};
ghost use Rattle.rule_lang.specs.Trees.{IsCondition};

use crate::blocks::put_count;
use crate::code::Code;
use crate::compile_fault::CompileFault;
use crate::conditions::put_step;
use crate::goals::Goals;
use crate::instructions as insn;
use crate::test::{array_number, place_named};
use bpf_insn::{AtomicSize, Insn};
use cells::{CellArray, CellWidth, Shape};
use rule_lang::{RuleCondition, Statement, Step};
use std::alloc::Global;

/// Writes the steps of a condition, from the last to the first. The code jumps to the label if the
/// condition holds.
pub fn put_steps(
    rest: &mut Code,
    shape: &Shape,
    goals: &mut Goals,
    steps: &[Step],
    label: usize,
) -> Result<(), CompileFault>
    requires label { label ≤ length rest.old }
    requires condition { IsCondition steps.now }
    requires goals { goals.old ≡ [] }
    ensures code { OnOk result
        (rest.new ≡ code.steps_code shape.now steps.now true label rest.old) }
    ensures long { result ≡ Err CompileFault.TooLong
        → 4096 < length (code.steps_code shape.now steps.now true label rest.old) }
    ensures costs { result ≡ Err CompileFault.TooLong
        → 4096 < length rest.old + 22 * tests_in steps.now }
    ensures goals { OnOk result (goals.new ≡ []) }
    ensures range { OnOk result (AreInRange steps.now) }
{
    goals.push(true, label)?;
    for k in (0..steps.len()).rev() {
        put_step(rest, shape, goals, &steps[k])?;
    }
    Ok(())
}

/// The size of an addition to a cell of the array with this number.
fn size_at(arrays: &[CellArray], place: usize) -> AtomicSize
    ensures { result ≡ code.array_size (slice_get arrays.now place) }
{
    match arrays.get(place) {
        Some(array) => match array.width {
            CellWidth::Bits32 => AtomicSize::Word,
            CellWidth::Bits64 => AtomicSize::Double,
        },
        None => AtomicSize::Double,
    }
}

/// A count in the first array with this name.
#[tactic(auto, using(crate::proofs::Arrays::named_place))]
fn put_named_count(
    rest: &mut Code,
    shape: &Shape,
    name: &str,
    index: u16,
) -> Result<(), CompileFault>
    ensures code { OnOk result
        (rest.new ≡ code.count_named shape.now name.now index rest.old) }
    ensures long { result ≡ Err CompileFault.TooLong → 4096 < length rest.old + 4 }
{
    let place = place_named(shape.arrays(), name);
    let size = size_at(shape.arrays(), place);
    put_count(rest, size, array_number(place)?, index)
}

/// Writes one statement.
#[tactic(auto, using(crate::proofs::Costs::steps_length))]
fn put_statement(
    rest: &mut Code,
    shape: &Shape,
    goals: &mut Goals,
    statement: &Statement,
) -> Result<(), CompileFault>
    requires end { 2 ≤ length rest.old }
    requires goals { goals.old ≡ [] }
    ensures code { OnOk result
        (rest.new ≡ code.statement_code shape.now statement.now rest.old) }
    ensures long { result ≡ Err CompileFault.TooLong
        → 4096 < length (code.statement_code shape.now statement.now rest.old) }
    ensures costs { result ≡ Err CompileFault.TooLong
        → 4096 < length rest.old + 8 + 22 * tests_of (statement.now ∷ []) }
    ensures goals { OnOk result (goals.new ≡ []) }
    ensures range { OnOk result (IsStatementInRange statement.now) }
    ensures made { OnOk result (IsMade statement.now) }
{
    match statement {
        Statement::Count { array, index } => put_named_count(rest, shape, array.as_str(), *index),
        Statement::When { condition, release } => {
            put_steps(rest, shape, goals, condition.steps(), 2)?;
            rest.put(insn::set_choice(*release))
        }
    }
}

/// The end of each rule: sets no release, and returns the choice.
fn put_end(rest: &mut Code) -> Result<(), CompileFault>
    requires { rest.old ≡ [] }
    ensures code { OnOk result (rest.new ≡ code.none_code) }
    ensures long { result ≡ Err CompileFault.TooLong → 4096 < length code.none_code }
{
    rest.put(Insn::Exit)?;
    rest.put(insn::give_choice())?;
    rest.put(insn::set_choice(0))
}

/// The code of a rule.
#[tactic(auto, using(crate::proofs::Costs::statements_length))]
pub fn emit(alloc: Global, shape: &Shape, statements: &[Statement]) -> Result<Code, CompileFault>
    ensures code { IfOk result (λ c. c ≡ code.rule_code shape.now statements.now) }
    ensures long { result ≡ Err CompileFault.TooLong
        → 4096 < length (code.rule_code shape.now statements.now) }
    ensures costs { result ≡ Err CompileFault.TooLong → 4096 < cost statements.now }
    ensures range { OnOk result (IsRuleInRange statements.now) }
    ensures made { OnOk result (AreMade statements.now) }
{
    let mut rest = Code::new(alloc);
    let mut goals = Goals::new(alloc);
    put_end(&mut rest)?;
    for k in (0..statements.len()).rev() {
        put_statement(&mut rest, shape, &mut goals, &statements[k])?;
    }
    rest.put(insn::set_choice(0))?;
    rest.put(insn::keep_context())?;
    Ok(rest)
}
