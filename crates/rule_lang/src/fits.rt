//! Whether a rule can be compiled for a shape: a rule knows arrays only by their names.

ghost use Rattle.std.specs.Prelude.{◌≡◌, option_copied};
ghost use Rattle.std.specs.List.{list_all};
ghost use Rattle.rule_lang.specs.Fits as the_fits;
ghost use Rattle.rule_lang.specs.Shapes as shapes;

use crate::condition::{RuleCondition, Step};
use crate::rule::{Rule, Statement};
use crate::test::Test;
use cells::{CellArray, Shape};

/// The first array with this name.
pub fn array_named<'a>(arrays: &'a [CellArray], name: &str) -> Option<&'a CellArray>
    ensures { option_copied result ≡ shapes.array_named name.now arrays.now }
{
    for array in arrays {
        if array.name.as_str() == name {
            return Some(array);
        }
    }
    None
}

/// Whether a rule may take from the array at this index.
pub fn can_take(array: Option<&CellArray>, index: u16) -> bool
    ensures { result ≡ the_fits.can_take (option_copied array.entry) index }
{
    match array {
        Some(array) => array.quota.is_some() && index < array.length,
        None => false,
    }
}

/// Whether a rule may count in the array at this index.
pub fn can_count(array: Option<&CellArray>, index: u16) -> bool
    ensures { result ≡ the_fits.can_count (option_copied array.entry) index }
{
    match array {
        Some(array) => array.quota.is_none() && index < array.length,
        None => false,
    }
}

/// Whether the shape has this release.
pub fn is_release(shape: &Shape, release: u8) -> bool
    ensures { result ≡ the_fits.is_release shape.now release }
{
    1 <= release && release <= shape.releases()
}

fn test_fits(shape: &Shape, test: &Test) -> bool
    ensures { result ≡ the_fits.test_fits shape.now test.now }
{
    match test {
        Test::Take { array, index } => {
            can_take(array_named(shape.arrays(), array.as_str()), *index)
        }
        _ => true,
    }
}

fn step_fits(shape: &Shape, step: &Step) -> bool
    ensures { result ≡ the_fits.step_fits shape.now step.now }
{
    match step {
        Step::Test { test, .. } => test_fits(shape, test),
        _ => true,
    }
}

fn condition_fits(shape: &Shape, condition: &RuleCondition) -> bool
    ensures { result ≡ list_all (the_fits.step_fits shape.now) condition.now }
{
    condition.steps().iter().all(|step| step_fits(shape, step))
}

fn statement_fits(shape: &Shape, statement: &Statement) -> bool
    ensures { result ≡ the_fits.statement_fits shape.now statement.now }
{
    match statement {
        Statement::Count { array, index } => {
            can_count(array_named(shape.arrays(), array.as_str()), *index)
        }
        Statement::When { condition, release } => {
            condition_fits(shape, condition) && is_release(shape, *release)
        }
    }
}

fn statements_fit(shape: &Shape, statements: &[Statement]) -> bool
    ensures { result ≡ the_fits.fits shape.now statements.now }
{
    statements
        .iter()
        .all(|statement| statement_fits(shape, statement))
}

impl Rule {
    /// Whether the rule can be compiled for the shape: its arrays exist by their names, with a
    /// quota only for `take`, and its indexes and releases are within the shape.
    pub fn fits(&self, shape: &Shape) -> bool
        ensures { result ≡ the_fits.fits shape.now self.now }
    {
        statements_fit(shape, self.statements())
    }
}
