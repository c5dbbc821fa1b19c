//! The dimensions of two rules, in the order in which their tests name them. No contract says that
//! they suffice: a plan is made only if they do.

use crate::bounds::{Bounds, RuleSide};
use crate::coordinate::Coordinate;
use crate::dimension::{Dimension, dimension_of};
use crate::number_line::{add_cuts, add_start};
use crate::plan_test::is_declared_as;
use crate::test_line::{index_or_count, number_comparison_of};
use attrs::Flag;
use cells::{ArrayName, CellArray, Shape};
use rule_lang::{Comparison, Literal, Statement, Step, Test, array_named};
use std::alloc::{AllocError, Global};

fn is_cell_of(own: &CellArray, shape: &Shape, name: &ArrayName) -> bool {
    match array_named(shape.arrays(), name.as_str()) {
        Some(array) => is_declared_as(own, array),
        None => false,
    }
}

// Whether the test is about the number of the coordinate. The flag `installdate_known` is about the
// day of the installation.
fn is_about(of: &Coordinate, shape: &Shape, test: &Test) -> bool {
    match (of, test) {
        (Coordinate::Version, Test::Version { .. }) => true,
        (Coordinate::Today, Test::Today { .. }) => true,
        (Coordinate::Installed, Test::Installed { .. }) => true,
        (Coordinate::Installed, Test::Flag(Flag::InstalldateKnown)) => true,
        (Coordinate::Flag(own), Test::Flag(flag)) => *own == *flag,
        (Coordinate::Text(own), Test::Attr { attribute, .. }) => *own == *attribute,
        (
            Coordinate::Bucket { salt, modulus },
            Test::Bucket {
                salt: other,
                modulus: divisor,
                ..
            },
        ) => *salt == *other && *modulus == *divisor,
        (
            Coordinate::Takes { array, index },
            Test::Take {
                array: name,
                index: place,
            },
        ) => *index == *place && is_cell_of(array, shape, name),
        _ => false,
    }
}

/// The first dimension that the test is about.
pub(crate) fn find_dimension(
    dimensions: &[Dimension],
    shape: &Shape,
    test: &Test,
) -> Option<usize> {
    for place in 0..dimensions.len() {
        let dimension = &dimensions[place];
        if is_about(&dimension.of, shape, test) {
            return Some(place);
        }
    }
    None
}

// Adds a text, and a cell for it.
fn add_text(alloc: Global, dimension: &mut Dimension, text: &Literal) -> Result<(), AllocError> {
    if index_or_count(&dimension.texts, text.as_str()) < dimension.texts.len() {
        return Ok(());
    }
    let copy = Literal::of(alloc, text.as_str())?;
    dimension.texts.push(copy)?;
    dimension.last = dimension.texts.len() as u128;
    add_start(&mut dimension.starts, dimension.last, dimension.last)
}

// Adds the cells that a test needs. A take's are added at the end.
fn add_cells(alloc: Global, dimension: &mut Dimension, test: &Test) -> Result<(), AllocError> {
    if let Test::Attr { text, .. } = test {
        add_text(alloc, dimension, text)?;
    }
    let Some(compared) = number_comparison_of(&dimension.of, &dimension.texts, test) else {
        return Ok(());
    };
    let last = dimension.last;
    add_cuts(
        &mut dimension.starts,
        last,
        compared.comparison,
        compared.number,
    )
}

fn add_test(
    alloc: Global,
    bounds: &Bounds<'_>,
    dimensions: &mut Vec<Dimension>,
    rule: &RuleSide<'_>,
    test: &Test,
) -> Result<(), AllocError> {
    if let Some(place) = find_dimension(dimensions.as_slice(), rule.shape, test) {
        if place < dimensions.len() {
            return add_cells(alloc, &mut dimensions[place], test);
        }
    }
    let Some(mut dimension) = dimension_of(alloc, bounds, rule.shape, test)? else {
        return Ok(());
    };
    add_cells(alloc, &mut dimension, test)?;
    dimensions.push(dimension)?;
    Ok(())
}

fn add_steps(
    alloc: Global,
    bounds: &Bounds<'_>,
    dimensions: &mut Vec<Dimension>,
    rule: &RuleSide<'_>,
    steps: &[Step],
) -> Result<(), AllocError> {
    for step in steps {
        if let Step::Test { test, .. } = step {
            add_test(alloc, bounds, dimensions, rule, test)?;
        }
    }
    Ok(())
}

/// Adds the dimensions of a rule's tests, and the cells that they need.
pub(crate) fn add_rule(
    alloc: Global,
    bounds: &Bounds<'_>,
    dimensions: &mut Vec<Dimension>,
    rule: &RuleSide<'_>,
) -> Result<(), AllocError> {
    for statement in rule.statements {
        if let Statement::When { condition, .. } = statement {
            add_steps(alloc, bounds, dimensions, rule, condition.steps())?;
        }
    }
    Ok(())
}

fn takes_in_steps(dimension: &Dimension, rule: &RuleSide<'_>, steps: &[Step]) -> usize {
    let mut count: usize = 0;
    for step in steps {
        if let Step::Test { test, .. } = step {
            if matches!(test, Test::Take { .. }) && is_about(&dimension.of, rule.shape, test) {
                count = count.saturating_add(1);
            }
        }
    }
    count
}

// How many takes of this dimension's cell a rule has.
fn takes_in(dimension: &Dimension, rule: &RuleSide<'_>) -> usize {
    let mut count: usize = 0;
    for statement in rule.statements {
        if let Statement::When { condition, .. } = statement {
            count = count.saturating_add(takes_in_steps(dimension, rule, condition.steps()));
        }
    }
    count
}

/// Adds a cell for each take of one run, in the dimensions of cells with a quota.
pub(crate) fn add_takes(
    dimensions: &mut [Dimension],
    old: &RuleSide<'_>,
    new: &RuleSide<'_>,
) -> Result<(), AllocError> {
    for dimension in dimensions.iter_mut() {
        let most = takes_in(dimension, old).max(takes_in(dimension, new));
        let last = dimension.last;
        for take in 0..most {
            add_cuts(&mut dimension.starts, last, Comparison::Gt, take as u128)?;
        }
    }
    Ok(())
}
