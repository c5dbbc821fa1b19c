//! A test of a plan. It is made only if the test's dimension has the cuts that the test needs.

ghost use Rattle.std.specs.Prelude.{◌≡◌, List, All, IfSome, true};
ghost use Rattle.cells.specs.Arrays.{AppShape};
ghost use Rattle.rule_lang.specs.Shapes as shapes;
ghost use Rattle.diff_space.specs.Coordinates.{Dimension as a_dimension};
ghost use Rattle.diff_space.specs.Lines.{IsLine};
ghost use Rattle.diff_space.specs.Machines.{declared};
ghost use Rattle.diff_space.specs.Plans.{DecidesAs, IsConstant};
ghost use Rattle.diff_space.specs.Scopes.{IsWithin, Scope, scope_of};
ghost use Rattle.diff_space.specs.Tests.{ComparesNumberAt, IsGrantAt, IsGrantOf};

use crate::bounds::Bounds;
use crate::coordinate::Coordinate;
use crate::dimension::Dimension;
use crate::naming::find_dimension;
use crate::number_line::decides;
use crate::test_line::{NumberComparison, number_comparison_of};
use attrs::{Attribute, Flag};
use cells::{ArrayName, CellArray, Shape};
use rule_lang::{Comparison, Test, array_named};

/// A test on a cell: a constant, a comparison of the number at which the cell begins, or whether
/// one more take is granted.
#[derive(Clone, Copy)]
pub enum PlanTest {
    Constant(bool),
    Compares {
        dimension: usize,
        comparison: Comparison,
        number: u128,
    },
    Takes {
        dimension: usize,
        cell: u32,
    },
}

/// The number of a cell of the first array with this name, if the array has the cell.
pub(crate) fn cell_named(shape: &Shape, name: &ArrayName, index: u16) -> Option<u32>
    ensures { IfSome result
        (λ cell. cell ≡ shapes.cell_of (shapes.array_named name.now shape.now.arrays) index) }
{
    match array_named(shape.arrays(), name.as_str()) {
        Some(array) => Some(array.base as u32 + index as u32),
        None => None,
    }
}

// ---- constants

/// An appid of more bytes is kept as the empty text.
const MOST_TEXT: usize = 1024;

// Whether the test holds, if it is the same for all machines of the app.
fn constant_of(bounds: &Bounds<'_>, test: &Test) -> Option<bool>
    ensures { (ds : List a_dimension) (s : AppShape)
        → IfSome result (IsConstant (IsWithin (scope_of bounds.now)) ds s test.now) }
{
    match test {
        Test::Flag(Flag::Updatecheck) => Some(true),
        Test::Attr {
            attribute: Attribute::Appid,
            text,
        } => {
            if bounds.appid.len() > MOST_TEXT {
                return None;
            }
            Some(bounds.appid == text.as_str())
        }
        _ => None,
    }
}

// ---- comparisons

/// The comparison that a test makes with the number of the dimension at a place, if it is about
/// that number, and the dimension's cells decide it; none for a take.
// open: for which tests of the dimension it returns none.
pub fn number_comparison_at(
    dimensions: &[Dimension],
    place: usize,
    test: &Test,
) -> Option<NumberComparison>
    ensures { IfSome result (ComparesNumberAt dimensions.now place test.now) }
{
    let Some(dimension) = dimensions.get(place) else {
        return None;
    };
    let Some(compared) = number_comparison_of(&dimension.of, &dimension.texts, test) else {
        return None;
    };
    if decides(
        &dimension.starts,
        dimension.last,
        compared.comparison,
        compared.number,
    ) {
        return Some(compared);
    }
    None
}

fn compares_at(dimensions: &[Dimension], place: usize, test: &Test) -> Option<PlanTest>
    ensures { (x : Scope) (s : AppShape) → All (IsLine x) dimensions.now
        → IfSome result (DecidesAs (IsWithin x) dimensions.now s test.now) }
{
    match number_comparison_at(dimensions, place, test) {
        Some(compared) => Some(PlanTest::Compares {
            dimension: place,
            comparison: compared.comparison,
            number: compared.number,
        }),
        None => None,
    }
}

// ---- takes

/// Whether two arrays have the same declaration.
pub(crate) fn is_declared_as(own: &CellArray, array: &CellArray) -> bool
    ensures { result ≡ true → declared own.now ≡ declared array.now }
{
    own.name.as_str() == array.name.as_str()
        && own.width == array.width
        && own.length == array.length
        && own.quota == array.quota
}

// Whether the coordinate is about this cell of the array.
fn is_grant_of(of: &Coordinate, array: &CellArray, index: u16) -> bool
    ensures { result ≡ true → IsGrantOf of.now array.now index }
{
    match of {
        Coordinate::Takes {
            array: own,
            index: place,
        } => { *place == index && is_declared_as(own, array) }
        _ => false,
    }
}

// The cell of the first array with this name, if the dimension is about it.
fn grant_at(
    dimensions: &[Dimension],
    place: usize,
    shape: &Shape,
    name: &ArrayName,
    index: u16,
) -> Option<u32>
    ensures { IfSome result (IsGrantAt dimensions.now place shape.now name.now index) }
{
    let Some(dimension) = dimensions.get(place) else {
        return None;
    };
    match array_named(shape.arrays(), name.as_str()) {
        Some(array) => {
            if index < array.length && is_grant_of(&dimension.of, array, index) {
                return Some(array.base as u32 + index as u32);
            }
            None
        }
        None => None,
    }
}

fn takes_at(
    dimensions: &[Dimension],
    place: usize,
    shape: &Shape,
    name: &ArrayName,
    index: u16,
) -> Option<PlanTest>
    ensures { (x : Scope) → All (IsLine x) dimensions.now → IfSome result
        (DecidesAs (IsWithin x) dimensions.now shape.now (Test.Take name.now index)) }
{
    shape.invariant_law();
    match grant_at(dimensions, place, shape, name, index) {
        Some(cell) => Some(PlanTest::Takes {
            dimension: place,
            cell,
        }),
        None => None,
    }
}

/// The test on the cells of its dimension, if these decide it.
pub(crate) fn plan_test(
    bounds: &Bounds<'_>,
    dimensions: &[Dimension],
    shape: &Shape,
    test: &Test,
) -> Option<PlanTest>
    requires { All (IsLine (scope_of bounds.now)) dimensions.now }
    ensures { IfSome result (DecidesAs (IsWithin (scope_of bounds.now)) dimensions.now
        shape.now test.now) }
{
    if let Some(holds) = constant_of(bounds, test) {
        return Some(PlanTest::Constant(holds));
    }
    let Some(place) = find_dimension(dimensions, shape, test) else {
        return None;
    };
    match test {
        Test::Take { array, index } => takes_at(dimensions, place, shape, array, *index),
        _ => compares_at(dimensions, place, test),
    }
}
