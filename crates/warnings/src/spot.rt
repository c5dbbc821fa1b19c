//! Spots: the versions at which a rule is evaluated. They are the lowest version, those that the
//! rule names, and just above each.

ghost use Rattle.std.specs.Prelude.{◌≡◌, OnOk, IfOk};
ghost use Rattle.std.specs.Ordering.{bool_cmp, is_eq};
ghost use Rattle.warnings.specs.Spots as specs;

use rule_eval::compare_versions;
use rule_lang::{Statement, Step, Test};
use std::alloc::{AllocError, Global};
use std::cmp::Ordering;

/// A version; or all versions above it, up to the next higher one that a rule names.
#[derive(Clone, Copy)]
pub(crate) struct Spot {
    pub version: [u32; 4],
    pub above: bool,
}

impl Spot {
    /// The version itself.
    pub fn at(version: [u32; 4]) -> Spot
        ensures { result ≡ specs.spot_at version }
    {
        Spot {
            version,
            above: false,
        }
    }

    /// The versions just above this one.
    pub fn just_above(version: [u32; 4]) -> Spot
        ensures { result ≡ specs.just_above version }
    {
        Spot {
            version,
            above: true,
        }
    }

    /// Orders spots by version; just above a version comes after it.
    pub fn compare(self, other: Spot) -> Ordering
        ensures { result ≡ specs.spot_cmp self other }
    {
        let level = compare_levels(self.above, other.above);
        compare_versions(self.version, other.version).then(level)
    }
}

fn compare_levels(above: bool, other: bool) -> Ordering
    ensures { result ≡ bool_cmp above other }
{
    above.cmp(&other)
}

fn is_same(spot: Spot, other: Spot) -> bool
    ensures { result ≡ is_eq (specs.spot_cmp spot other) }
{
    spot.compare(other) == Ordering::Equal
}

fn has_spot(spots: &[Spot], spot: Spot) -> bool
    ensures { result ≡ specs.has_spot spots.now spot }
{
    let mut left = spots;
    while let [first, others @ ..] = left {
        if is_same(*first, spot) {
            return true;
        }
        left = others;
    }
    false
}

fn add_spot(spots: &mut Vec<Spot>, spot: Spot) -> Result<(), AllocError>
    ensures { OnOk result (spots.new.items ≡ specs.add_spot spots.old.items spot) }
{
    if has_spot(spots.as_slice(), spot) {
        return Ok(());
    }
    spots.push(spot)?;
    Ok(())
}

fn add_version(spots: &mut Vec<Spot>, version: [u32; 4]) -> Result<(), AllocError>
    ensures { OnOk result (spots.new.items ≡ specs.add_version spots.old.items version) }
{
    add_spot(spots, Spot::at(version))?;
    add_spot(spots, Spot::just_above(version))
}

fn add_step(spots: &mut Vec<Spot>, step: &Step) -> Result<(), AllocError>
    ensures { OnOk result (spots.new.items ≡ specs.add_step spots.old.items step.now) }
{
    match step {
        Step::Test {
            test: Test::Version { version, .. },
            ..
        } => add_version(spots, *version),
        _ => Ok(()),
    }
}

fn add_steps(spots: &mut Vec<Spot>, steps: &[Step]) -> Result<(), AllocError>
    ensures { OnOk result (spots.new.items ≡ specs.add_steps spots.old.items steps.now) }
{
    let mut left = steps;
    while let [step, others @ ..] = left {
        add_step(spots, step)?;
        left = others;
    }
    Ok(())
}

fn add_statements(spots: &mut Vec<Spot>, statements: &[Statement]) -> Result<(), AllocError>
    ensures { OnOk result (spots.new.items ≡ specs.add_statements spots.old.items statements.now) }
{
    let mut left = statements;
    while let [statement, others @ ..] = left {
        if let Statement::When { condition, .. } = statement {
            add_steps(spots, condition.steps())?;
        }
        left = others;
    }
    Ok(())
}

/// The lowest version, those that a rule names, and the spots just above each of these, without
/// duplicates.
pub(crate) fn spots_of(alloc: Global, statements: &[Statement]) -> Result<Vec<Spot>, AllocError>
    ensures { IfOk result (λ spots. spots.items ≡ specs.spots_of statements.now) }
{
    let mut spots = Vec::new(alloc);
    spots.push(Spot::at([0; 4]))?;
    add_statements(&mut spots, statements)?;
    Ok(spots)
}
