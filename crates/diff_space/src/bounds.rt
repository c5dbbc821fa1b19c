//! What is compared: two rules of an app, and which machines and states.

ghost use Rattle.std.specs.Prelude.{◌≡◌, IfSome};
ghost use Rattle.diff_space.specs.Machines.{content_of};
ghost use Rattle.diff_space.specs.Scopes as specs;

use cells::{ArrayName, CellArray, Shape};
use rule_lang::Statement;

/// One side of a comparison: the rule of an app in its manifest. `contents` numbers the contents of
/// its releases, in their order, from 1. Releases with the same content, in either manifest, have
/// the same number.
#[derive(Drop)]
pub struct RuleSide<'a> {
    pub shape: &'a Shape,
    pub statements: &'a [Statement],
    pub contents: &'a [u8],
}

/// A cell with at least this value. Values only grow, so it grants at most what is left of its
/// quota.
#[derive(Drop)]
pub struct CellBound {
    pub array: ArrayName,
    pub index: u16,
    pub value: u64,
}

/// Which machines and states are compared: those of the app from a day on, while these cells have
/// at least these values. If a cell is listed several times, its last value counts.
#[derive(Drop)]
pub struct Bounds<'a> {
    pub appid: &'a str,
    pub from_day: u32,
    pub used: &'a [CellBound],
}

fn value_or(value: u64, cell: &CellBound, name: &str, index: u16) -> u64
    ensures { result ≡ specs.value_or value cell.now name.now index }
{
    if cell.index == index && cell.array.as_str() == name {
        return cell.value;
    }
    value
}

// The last value that is given for a cell, or 0.
fn least_value(used: &[CellBound], name: &str, index: u16) -> u64
    ensures { result ≡ specs.least_value used.now name.now index }
{
    let mut value = 0;
    let mut left = used;
    while let [cell, others @ ..] = left {
        value = value_or(value, cell, name, index);
        left = others;
    }
    value
}

/// How many takes of one run a cell grants at most.
pub(crate) fn most_takes(bounds: &Bounds<'_>, array: &CellArray, index: u16) -> u64
    ensures { result ≡ specs.most_takes (specs.scope_of bounds.now) array.now index }
{
    let quota = array.quota.unwrap_or(0);
    quota.saturating_sub(least_value(bounds.used, array.name.as_str(), index))
}

/// The number of the content of a release, 0 for none.
pub(crate) fn content_of(contents: &[u8], release: u8) -> Option<u8>
    ensures { IfSome result (λ content. content ≡ content_of contents.now release) }
{
    if release == 0 {
        return Some(0);
    }
    match contents.get(release as usize - 1) {
        Some(content) => Some(*content),
        None => None,
    }
}
