//! How two numbers, or two versions, compare.

ghost use Rattle.std.specs.Prelude.{◌≡◌, ◌<◌};
ghost use Rattle.std.specs.Ordering.{nat_cmp};
ghost use Rattle.rule_lang.specs.Meaning as meaning;

use rule_lang::Comparison;
use std::cmp::Ordering;

/// Whether a comparison allows an ordering: `<=` allows `Less` and `Equal`.
pub fn allows(comparison: Comparison, ordering: Ordering) -> bool
    ensures { result ≡ meaning.allows comparison ordering }
{
    match (comparison, ordering) {
        (Comparison::Lt, Ordering::Less) => true,
        (Comparison::Le, Ordering::Less) => true,
        (Comparison::Le, Ordering::Equal) => true,
        (Comparison::Eq, Ordering::Equal) => true,
        (Comparison::Ne, Ordering::Less) => true,
        (Comparison::Ne, Ordering::Greater) => true,
        (Comparison::Ge, Ordering::Equal) => true,
        (Comparison::Ge, Ordering::Greater) => true,
        (Comparison::Gt, Ordering::Greater) => true,
        _ => false,
    }
}

fn compare(left: u64, right: u64) -> Ordering
    ensures { result ≡ nat_cmp left right }
{
    left.cmp(&right)
}

/// Whether the comparison holds between two numbers.
pub fn compares_so(comparison: Comparison, left: u64, right: u64) -> bool
    ensures { result ≡ meaning.allows comparison (nat_cmp left right) }
{
    allows(comparison, compare(left, right))
}

fn compare_place(v: [u32; 4], w: [u32; 4], place: usize) -> Ordering
    requires { place < 4 }
    ensures { result ≡ meaning.place_cmp v w place }
{
    compare(v[place] as u64, w[place] as u64)
}

/// Compares two versions by their four numbers, in order.
pub fn compare_versions(v: [u32; 4], w: [u32; 4]) -> Ordering
    ensures { result ≡ meaning.version_cmp v w }
{
    let behind = compare_place(v, w, 2).then(compare_place(v, w, 3));
    compare_place(v, w, 0).then(compare_place(v, w, 1).then(behind))
}
