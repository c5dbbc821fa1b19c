//! Families of dimensions that depend on each other: those of the version, and those of the bucket.

ghost use Rattle.std.specs.Prelude.{◌≡◌, All, IfOk, option_copied, slice_get, true};
ghost use Rattle.diff_space.specs.Families as specs;

use crate::coordinate::Coordinate;
use crate::dimension::Dimension;
use attrs::{Attribute, Flag};
use rule_lang::Literal;
use std::alloc::{AllocError, Global};

/// The version, whether it is known, and its text; or the bucket, with and without salts, whether
/// the cohort names it, and the cohort.
#[derive(Clone, Copy)]
pub(crate) enum GroupKind {
    Version,
    Bucket,
}

/// A family, with the places of the first line of the version and of the first dimension of texts.
#[derive(Clone, Copy)]
pub(crate) struct Family {
    pub kind: GroupKind,
    pub line: Option<usize>,
    pub text: Option<usize>,
}

fn has_flag(kind: GroupKind, flag: Flag) -> bool
    ensures { result ≡ specs.has_flag kind flag }
{
    match (kind, flag) {
        (GroupKind::Version, Flag::VersionKnown) => true,
        (GroupKind::Bucket, Flag::CohortKnown) => true,
        _ => false,
    }
}

fn has_text(kind: GroupKind, attribute: Attribute) -> bool
    ensures { result ≡ specs.has_text kind attribute }
{
    match (kind, attribute) {
        (GroupKind::Version, Attribute::Version) => true,
        (GroupKind::Bucket, Attribute::Cohort) => true,
        _ => false,
    }
}

fn is_version(kind: GroupKind) -> bool
    ensures { result ≡ specs.is_version kind }
{
    match kind {
        GroupKind::Version => true,
        GroupKind::Bucket => false,
    }
}

fn is_place(other: Option<usize>, place: usize) -> bool
    ensures { result ≡ specs.is_place other place }
{
    match other {
        Some(other) => other == place,
        None => false,
    }
}

/// Whether a dimension at a place belongs to the family.
pub(crate) fn is_member(family: Family, place: usize, of: &Coordinate) -> bool
    ensures { result ≡ specs.is_member family place of.now }
{
    match of {
        Coordinate::Version => is_version(family.kind) && is_place(family.line, place),
        Coordinate::Bucket { .. } => !is_version(family.kind),
        Coordinate::Flag(flag) => has_flag(family.kind, *flag),
        Coordinate::Text(attribute) => {
            has_text(family.kind, *attribute) && is_place(family.text, place)
        }
        _ => false,
    }
}

/// The places of the family's dimensions.
pub(crate) fn members_of(
    alloc: Global,
    dimensions: &[Dimension],
    family: Family,
) -> Result<Vec<usize>, AllocError>
    ensures { IfOk result (λ members. All (λ place. specs.is_member_at family place
        (slice_get dimensions.now place) ≡ true) members.items) }
{
    let mut members = Vec::new(alloc);
    for place in 0..dimensions.len() {
        let dimension = &dimensions[place];
        if is_member(family, place, &dimension.of) {
            members.push(place)?;
        }
    }
    Ok(members)
}

fn first_line(dimensions: &[Dimension]) -> Option<usize> {
    for place in 0..dimensions.len() {
        let dimension = &dimensions[place];
        if let Coordinate::Version = &dimension.of {
            return Some(place);
        }
    }
    None
}

fn first_text(dimensions: &[Dimension], kind: GroupKind) -> Option<usize> {
    for place in 0..dimensions.len() {
        let dimension = &dimensions[place];
        if let Coordinate::Text(attribute) = &dimension.of {
            if has_text(kind, *attribute) {
                return Some(place);
            }
        }
    }
    None
}

/// The family of a kind among these dimensions.
pub(crate) fn family_of(dimensions: &[Dimension], kind: GroupKind) -> Family
    ensures { result.kind ≡ kind }
{
    Family {
        kind,
        line: first_line(dimensions),
        text: first_text(dimensions, kind),
    }
}

/// The line of the version, if there is one at this place.
pub(crate) fn line_at(dimensions: &[Dimension], place: Option<usize>) -> Option<&Dimension>
    ensures { option_copied result ≡ specs.line_at dimensions.now place }
{
    let Some(place) = place else {
        return None;
    };
    match dimensions.get(place) {
        Some(dimension) => match &dimension.of {
            Coordinate::Version => Some(dimension),
            _ => None,
        },
        None => None,
    }
}

/// The texts of the dimension at this place.
pub(crate) fn texts_at(dimensions: &[Dimension], place: Option<usize>) -> &[Literal]
    ensures { result.now ≡ specs.texts_at dimensions.now place }
{
    let Some(place) = place else {
        return &[];
    };
    match dimensions.get(place) {
        Some(dimension) => &dimension.texts,
        None => &[],
    }
}
