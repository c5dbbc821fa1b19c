//! Arrays that two manifests declare under one name in different ways.

ghost use Rattle.std.specs.Prelude.{◌≡◌, ◌++◌, ◌∷◌, [], IfOk, option_copied, true};
ghost use Rattle.cells.specs.Directory.{same_width};
ghost use Rattle.diff_manifests.specs.Arrays as specs;

use cells::CellWidth;
use declarations::ArrayDeclaration;
use std::alloc::{AllocError, Global};
use std::marker::Model;

/// An array as OLD and as NEW declares it.
#[derive(Drop)]
pub(crate) struct ArrayChange<'a> {
    pub(crate) old: &'a ArrayDeclaration,
    pub(crate) new: &'a ArrayDeclaration,
}

impl<'a> Model for ArrayChange<'a> {
    ghost use Rattle.diff_manifests.specs.Arrays as specs;

    ghost Value = { specs.ArrayChange };

    ghost view = { λ c. record { old = c.old.now; new = c.new.now } };
}

/// Whether two widths are equal.
pub(crate) fn is_same_width(one: CellWidth, other: CellWidth) -> bool
    ensures is { result ≡ same_width one other }
    ensures equal { result ≡ true → one ≡ other }
{
    match (one, other) {
        (CellWidth::Bits32, CellWidth::Bits32) => true,
        (CellWidth::Bits64, CellWidth::Bits64) => true,
        _ => false,
    }
}

fn is_same_quota(one: Option<u64>, other: Option<u64>) -> bool
    ensures { result ≡ specs.same_quota one other }
{
    match (one, other) {
        (None, None) => true,
        (Some(quota), Some(more)) => quota == more,
        _ => false,
    }
}

/// Whether two arrays have the same width, length and quota.
pub(crate) fn is_declared_alike(one: &ArrayDeclaration, other: &ArrayDeclaration) -> bool
    ensures { result ≡ specs.is_declared_alike one.now other.now }
{
    is_same_width(one.width(), other.width())
        && one.length() == other.length()
        && is_same_quota(one.quota(), other.quota())
}

/// The array with this name.
pub(crate) fn array_named<'a>(
    arrays: &'a [ArrayDeclaration],
    name: &str,
) -> Option<&'a ArrayDeclaration>
    ensures { option_copied result ≡ specs.declared_as arrays.now name.now }
{
    let mut left = arrays;
    while let [array, others @ ..] = left {
        if array.name() == name {
            return Some(array);
        }
        left = others;
    }
    None
}

// A change of these two, which have one lifetime.
fn change_of<'a>(old: &'a ArrayDeclaration, new: &'a ArrayDeclaration) -> ArrayChange<'a>
    ensures { result ≡ record { old = old.now; new = new.now } }
{
    ArrayChange { old, new }
}

fn change_among<'a>(
    new: &'a [ArrayDeclaration],
    old: &'a ArrayDeclaration,
) -> Option<ArrayChange<'a>>
    ensures { result ≡ specs.change_among new.now old.now }
{
    match array_named(new, old.name()) {
        None => None,
        Some(other) => {
            if is_declared_alike(old, other) {
                None
            } else {
                Some(change_of(old, other))
            }
        }
    }
}

/// The arrays that are declared differently, in the order of OLD.
pub(crate) fn array_changes<'a>(
    alloc: Global,
    old: &'a [ArrayDeclaration],
    new: &'a [ArrayDeclaration],
) -> Result<Vec<ArrayChange<'a>>, AllocError>
    ensures { IfOk result (λ v. v.items ≡ specs.array_changes old.now new.now) }
{
    let mut changes = Vec::new(alloc);
    let mut left = old;
    while let [array, others @ ..] = left {
        if let Some(change) = change_among(new, array) {
            changes.push(change)?;
        }
        left = others;
    }
    Ok(changes)
}
