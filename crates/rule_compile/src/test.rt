//! Writes the code of each test of the language.

ghost use Rattle.std.specs.Prelude.{◌≡◌, ◌<◌, ◌≤◌, ◌+◌, ◌^◌, ℕ};
ghost use Rattle.std.specs.Prelude.{length, slice_get, slice_index, OnOk, IfOk, IfErr};
ghost use Rattle.rule_compile.specs.Code as code;
ghost use Rattle.rule_compile.specs.Ranges.{IsInRange};
ghost use Rattle.rule_lang.specs.Shapes as shapes;

use crate::blocks::{put_bucket, put_field, put_flag, put_take};
use crate::code::Code;
use crate::compile_fault::CompileFault;
use crate::goals::Goal;
use crate::instructions::turned;
use crate::texts::put_attribute;
use crate::versions::{put_equal, put_order};
use attrs::Context;
use bpf_insn::{Condition, LoadKind};
use cells::{CellArray, Shape};
use rule_lang::{Comparison, Test};

/// The offsets of the days in the context.
const TODAY: u8 = Context::TODAY_OFFSET;

const INSTALL_DAY: u8 = Context::INSTALL_DAY_OFFSET;

/// The condition of a jump for this comparison.
fn condition_of(comparison: Comparison) -> Condition
    ensures { result ≡ code.condition_of comparison }
{
    match comparison {
        Comparison::Lt => Condition::Lt,
        Comparison::Le => Condition::Le,
        Comparison::Eq => Condition::Eq,
        Comparison::Ne => Condition::Ne,
        Comparison::Ge => Condition::Ge,
        Comparison::Gt => Condition::Gt,
    }
}

/// The number of the first array with this name, or the number of arrays if there is none.
pub fn place_named(arrays: &[CellArray], name: &str) -> usize
    ensures { result ≡ code.place_named name.now arrays.now }
{
    let mut rest = arrays;
    let mut place = 0;
    while let [array, later @ ..] = rest {
        if array.name.as_str() == name {
            return place;
        }
        place += 1;
        rest = later;
    }
    place
}

/// The array's number as an instruction has it, in 31 bits.
pub fn array_number(place: usize) -> Result<u32, CompileFault>
    ensures number { IfOk result (λ n. (n ≡ place) × (n < 2 ^ 31)) }
    ensures memory { IfErr result (λ e. e ≡ CompileFault.Memory) }
{
    if place < 0x8000_0000 {
        Ok(place as u32)
    } else {
        Err(CompileFault::Memory)
    }
}

/// How many takes the array with this number grants.
fn quota_at(arrays: &[CellArray], place: usize) -> u64
    ensures { result ≡ shapes.quota_of (slice_get arrays.now place) }
{
    match arrays.get(place) {
        Some(array) => array.quota.unwrap_or(0),
        None => 0,
    }
}

/// Compares the version.
fn put_version(
    rest: &mut Code,
    comparison: Comparison,
    numbers: &[u32],
    sense: bool,
    label: usize,
) -> Result<(), CompileFault>
    requires label { label ≤ length rest.old }
    requires words { length numbers.now ≤ 4 }
    ensures code { OnOk result
        (rest.new ≡ code.version_code comparison numbers.now sense label rest.old) }
    ensures long { result ≡ Err CompileFault.TooLong
        → 4096 < length (code.version_code comparison numbers.now sense label rest.old) }
    ensures range { (k : ℕ) → slice_index numbers.now k < 2 ^ 32 }
{
    let (lt, gt) = (Condition::Lt, Condition::Gt);
    match comparison {
        Comparison::Lt => put_order(rest, lt, lt, 0, numbers, sense, label),
        Comparison::Le => put_order(rest, lt, Condition::Le, 0, numbers, sense, label),
        Comparison::Eq => put_equal(rest, 0, numbers, sense, label),
        Comparison::Ne => put_equal(rest, 0, numbers, !sense, label),
        Comparison::Ge => put_order(rest, gt, Condition::Ge, 0, numbers, sense, label),
        Comparison::Gt => put_order(rest, gt, gt, 0, numbers, sense, label),
    }
}

/// Takes from the cell at this index of the first array with this name.
#[tactic(auto, using(crate::proofs::Arrays::named_place))]
fn put_named_take(
    rest: &mut Code,
    shape: &Shape,
    name: &str,
    index: u16,
    goal: Goal,
) -> Result<(), CompileFault>
    requires { goal.label ≤ length rest.old }
    ensures code { OnOk result
        (rest.new ≡ code.take_named shape.now name.now index goal.sense goal.label rest.old) }
    ensures long { result ≡ Err CompileFault.TooLong → 4096 < length rest.old + 7 }
{
    let place = place_named(shape.arrays(), name);
    let quota = quota_at(shape.arrays(), place);
    put_take(
        rest,
        array_number(place)?,
        index,
        quota,
        goal.sense,
        goal.label,
    )
}

/// The code of a test.
#[tactic(auto, using(crate::proofs::Comparisons::four_is))]
pub fn put_test(rest: &mut Code, shape: &Shape, test: &Test, goal: Goal) -> Result<(), CompileFault>
    requires { goal.label ≤ length rest.old }
    ensures code { OnOk result
        (rest.new ≡ code.test_code shape.now test.now goal.sense goal.label rest.old) }
    ensures long { result ≡ Err CompileFault.TooLong
        → 4096 < length (code.test_code shape.now test.now goal.sense goal.label rest.old) }
    ensures range { IsInRange test.now }
{
    let (sense, label) = (goal.sense, goal.label);
    match test {
        Test::Version {
            comparison,
            version,
        } => put_version(rest, *comparison, version, sense, label),
        Test::Bucket {
            salt,
            modulus,
            comparison,
            number,
        } => {
            let condition = turned(sense, condition_of(*comparison));
            put_bucket(rest, *salt, *modulus, condition, *number, label)
        }
        Test::Today { comparison, number } => {
            let condition = turned(sense, condition_of(*comparison));
            put_field(rest, LoadKind::Word, TODAY, condition, *number, label)
        }
        Test::Installed { comparison, number } => {
            let condition = turned(sense, condition_of(*comparison));
            put_field(rest, LoadKind::Word, INSTALL_DAY, condition, *number, label)
        }
        Test::Flag(flag) => put_flag(rest, flag.bit(), sense, label),
        Test::Attr { attribute, text } => {
            let text = text.as_str().as_bytes();
            put_attribute(rest, attribute.number(), text, sense, label)
        }
        Test::Take { array, index } => put_named_take(rest, shape, array.as_str(), *index, goal),
    }
}
