//! Combinations of the values that a family's dimensions depend on, and the cells of each.

ghost use Rattle.std.specs.Prelude.{◌≡◌, ◌<◌, ◌^◌, [], IfOk, None, Some, length, option_copied};
ghost use Rattle.std.specs.Prelude.{slice_get};
ghost use Rattle.attrs.specs.Attributes.{plain};
ghost use Rattle.rule_lang.specs.Meaning as meaning;
ghost use Rattle.diff_space.specs.Families as specs;

use crate::coordinate::Coordinate;
use crate::dimension::Dimension;
use crate::family::{Family, GroupKind, line_at, texts_at};
use crate::fits::{cohort_fits, version_fits};
use crate::number_line::cell_at;
use attrs::{Bucket, fnv1a, four_digits};
use rule_lang::Literal;
use std::alloc::{AllocError, Global};

/// The cell of the version, or the bucket; whether it is known; and the index of the text among the
/// family's texts, or their count for any other text.
#[derive(Clone, Copy)]
pub(crate) struct Combination {
    pub number: u16,
    pub is_known: bool,
    pub text: usize,
}

// The bucket under a salt.
fn salted(bucket: u16, salt: u64) -> u64
    ensures { result ≡ meaning.bucket_by (plain [] None bucket) (Some salt) }
{
    let mut bytes = [0; 12];
    bytes[..4].copy_from_slice(&four_digits(bucket));
    bytes[4..].copy_from_slice(&salt.to_le_bytes());
    fnv1a(&bytes) % Bucket::COUNT as u64
}

fn bucket_by(bucket: u16, salt: Option<u64>) -> u64
    ensures { result ≡ meaning.bucket_by (plain [] None bucket) salt }
{
    match salt {
        None => bucket as u64,
        Some(salt) => salted(bucket, salt),
    }
}

fn remainder(modulus: Option<u32>, number: u64) -> u64
    ensures { result ≡ meaning.remainder modulus number }
{
    match modulus {
        None => number,
        Some(0) => number,
        Some(modulus) => number % modulus as u64,
    }
}

fn cell_of(of: &Coordinate, starts: &[u128], combination: Combination) -> u16
    ensures { length starts.now < 2 ^ 16 → result ≡ specs.cell_by of.now starts.now combination }
{
    match of {
        Coordinate::Version => combination.number,
        Coordinate::Bucket { salt, modulus } => {
            let bucket = bucket_by(combination.number, *salt);
            cell_at(starts, remainder(*modulus, bucket) as u128)
        }
        Coordinate::Flag(_) => cell_at(starts, combination.is_known as u128),
        _ => cell_at(starts, combination.text as u128),
    }
}

// The cell in the dimension at this place; 0 if there is none.
#[tactic(auto, using(crate::proofs::Grown::few_at))]
fn cell_or(dimensions: &[Dimension], place: usize, combination: Combination) -> u16
    ensures { specs.AreFew dimensions.now
        → result ≡ specs.cell_or (slice_get dimensions.now place) combination }
{
    match dimensions.get(place) {
        Some(dimension) => cell_of(&dimension.of, &dimension.starts, combination),
        None => 0,
    }
}

/// The cells of a combination in these dimensions.
pub(crate) fn cells_of(
    alloc: Global,
    dimensions: &[Dimension],
    members: &[usize],
    combination: Combination,
) -> Result<Vec<u16>, AllocError>
    ensures { specs.AreFew dimensions.now
        → IfOk result (λ v. v.items ≡ specs.cells_by dimensions.now members.now combination) }
{
    let mut cells = Vec::with_capacity(alloc, members.len())?;
    for place in members {
        cells.push(cell_or(dimensions, *place, combination))?;
    }
    Ok(cells)
}

fn version_may(line: Option<&Dimension>, text: Option<&Literal>, combination: Combination) -> bool
    ensures { result ≡ specs.version_may (option_copied line.entry) (option_copied text.entry)
        combination }
{
    let is_known = combination.is_known;
    match line {
        Some(line) => version_fits(
            text,
            is_known,
            line.begin(combination.number),
            line.end(combination.number),
        ),
        None => version_fits(text, is_known, 0, None),
    }
}

/// Whether a machine can have this combination.
pub(crate) fn is_possible(
    dimensions: &[Dimension],
    family: Family,
    combination: Combination,
) -> bool
    ensures { result ≡ specs.is_possible family dimensions.now combination }
{
    let texts = texts_at(dimensions, family.text);
    let text = texts.get(combination.text);
    match family.kind {
        GroupKind::Version => version_may(line_at(dimensions, family.line), text, combination),
        GroupKind::Bucket => cohort_fits(texts, text, combination.is_known, combination.number),
    }
}
