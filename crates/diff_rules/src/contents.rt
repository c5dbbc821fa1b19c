//! Numbers for the contents of releases.

ghost use Rattle.std.specs.Prelude.{◌≡◌, ◌≤◌, ◌++◌, IfOk, length, map};
ghost use Rattle.std.specs.List.{position_or_len};
ghost use Rattle.diff_rules.specs.Contents as specs;

use releases::{Package, Release};
use std::alloc::{AllocError, Global};

/// The number, from 1, of the content of each release of two manifests. Releases with equal
/// versions, codebases and packages have the same number: the position of the first of them. The
/// old manifest's releases come first.
#[derive(Drop)]
pub struct ContentNumbers {
    pub old: Vec<u8>,
    pub new: Vec<u8>,
}

fn is_same_package(one: &Package, other: &Package) -> bool
    ensures { result ≡ specs.is_same_package one.now other.now }
{
    let is_required = if one.required() {
        other.required()
    } else {
        !other.required()
    };
    one.name() == other.name()
        && one.hash_sha256() == other.hash_sha256()
        && one.size() == other.size()
        && is_required
}

fn are_same(packages: &[Package], others: &[Package]) -> bool
    ensures { result ≡ specs.are_same packages.now others.now }
{
    let mut left = packages;
    let mut right = others;
    while let [package, more @ ..] = left {
        let [other, rest @ ..] = right else {
            return false;
        };
        if !is_same_package(package, other) {
            return false;
        }
        left = more;
        right = rest;
    }
    right.is_empty()
}

fn has_content_of(release: &Release, other: &Release) -> bool
    ensures { result ≡ specs.has_content_of release.now other.now }
{
    release.version() == other.version()
        && release.codebase() == other.codebase()
        && are_same(release.packages(), other.packages())
}

// The position of the first release with the same content, or else the number of the releases.
fn position_in(releases: &[Release], release: &Release) -> usize
    ensures { result ≡ position_or_len (specs.has_content_of release.now) releases.now }
{
    let mut place = 0;
    let mut left = releases;
    while let [first, others @ ..] = left {
        if has_content_of(release, first) {
            return place;
        }
        place += 1;
        left = others;
    }
    place
}

// The old releases come before the new ones.
fn content_number(old: &[Release], new: &[Release], release: &Release) -> usize
    requires old { length old.now ≤ 64 }
    requires new { length new.now ≤ 64 }
    ensures number { result ≡ specs.content_number (old.now ++ new.now) release.now }
    ensures few { result ≤ 129 }
{
    let place = position_in(old, release);
    if place < old.len() {
        return place + 1;
    }
    old.len() + position_in(new, release) + 1
}

fn numbers_of(
    alloc: Global,
    old: &[Release],
    new: &[Release],
    releases: &[Release],
) -> Result<Vec<u8>, AllocError>
    requires old { length old.now ≤ 64 }
    requires new { length new.now ≤ 64 }
    ensures { IfOk result (λ numbers.
        numbers.items ≡ map (specs.content_number (old.now ++ new.now)) releases.now) }
{
    let mut numbers = Vec::with_capacity(alloc, releases.len())?;
    let mut left = releases;
    while let [release, others @ ..] = left {
        numbers.push(content_number(old, new, release) as u8)?;
        left = others;
    }
    Ok(numbers)
}

/// The numbers of the contents of two manifests' releases. Each manifest has at most 64 of the app.
// open: whether an allocation fails, its one error.
pub fn contents_of(
    alloc: Global,
    old: &[Release],
    new: &[Release],
) -> Result<ContentNumbers, AllocError>
    requires old { length old.now ≤ 64 }
    requires new { length new.now ≤ 64 }
    ensures old { IfOk result (λ c.
        c.old.items ≡ map (specs.content_number (old.now ++ new.now)) old.now) }
    ensures new { IfOk result (λ c.
        c.new.items ≡ map (specs.content_number (old.now ++ new.now)) new.now) }
{
    Ok(ContentNumbers {
        old: numbers_of(alloc, old, new, old)?,
        new: numbers_of(alloc, old, new, new)?,
    })
}
