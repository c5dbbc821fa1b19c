//! Warnings on releases: on their versions, their codebases and their packages.

ghost use Rattle.std.specs.Prelude.{◌≡◌, ◌++◌, OnOk};
ghost use Rattle.std.specs.List.{list_any};
ghost use Rattle.warnings.specs.Releases as specs;

use crate::warning::{Warning, WarningKind, WarningPlace, warn_if};
use attrs::read_version;
use releases::{Package, Release};
use std::alloc::AllocError;

fn same_numbers(v: [u32; 4], w: [u32; 4]) -> bool
    ensures { result ≡ specs.same_numbers v w }
{
    v[0] == w[0] && v[1] == w[1] && v[2] == w[2] && v[3] == w[3]
}

fn has_version(version: &str, release: &Release) -> bool
    ensures { result ≡ specs.has_version version.now release.now }
{
    match (read_version(version), read_version(release.version())) {
        (Some(v), Some(w)) => same_numbers(v, w),
        _ => false,
    }
}

fn have_version(version: &str, later: &[Release]) -> bool
    ensures { result ≡ list_any (specs.has_version version.now) later.now }
{
    let mut left = later;
    while let [release, rest @ ..] = left {
        if has_version(version, release) {
            return true;
        }
        left = rest;
    }
    false
}

fn ends_in_slash(url: &[u8]) -> bool
    ensures { result ≡ specs.ends_in_slash url.now }
{
    url.ends_with(b"/")
}

fn has_scheme(url: &[u8]) -> bool
    ensures { result ≡ specs.has_scheme url.now }
{
    url.starts_with(b"https://") || url.starts_with(b"http://")
}

fn is_empty_file(file: &Package) -> bool
    ensures { result ≡ specs.is_empty_file file.now }
{
    file.size() == 0
}

fn have_empty_file(packages: &[Package]) -> bool
    ensures { result ≡ list_any specs.is_empty_file packages.now }
{
    let mut left = packages;
    while let [package, rest @ ..] = left {
        if is_empty_file(package) {
            return true;
        }
        left = rest;
    }
    false
}

fn is_odd_name(name: &str) -> bool
    ensures { result ≡ specs.is_odd_name name.now }
{
    let bytes = name.as_bytes();
    bytes.is_empty() || bytes.starts_with(b"..") || bytes.contains(&b' ')
}

fn have_odd_name(packages: &[Package]) -> bool
    ensures { result ≡ list_any specs.has_odd_name packages.now }
{
    let mut left = packages;
    while let [package, rest @ ..] = left {
        if is_odd_name(package.name()) {
            return true;
        }
        left = rest;
    }
    false
}

// Warnings on a release; `later` are the releases after it.
fn push_one_release(
    warnings: &mut Vec<Warning>,
    app: usize,
    number: usize,
    release: &Release,
    later: &[Release],
) -> Result<(), AllocError>
    ensures { OnOk result (warnings.new.items ≡ warnings.old.items
        ++ specs.release_warnings app number release.now later.now) }
{
    let place = WarningPlace::Release {
        app,
        release: number,
    };
    let again = have_version(release.version(), later);
    warn_if(warnings, again, place, WarningKind::SameVersion)?;
    let url = release.codebase().as_bytes();
    warn_if(
        warnings,
        !ends_in_slash(url),
        place,
        WarningKind::CodebaseSlash,
    )?;
    warn_if(
        warnings,
        !has_scheme(url),
        place,
        WarningKind::CodebaseScheme,
    )?;
    let empty = have_empty_file(release.packages());
    warn_if(warnings, empty, place, WarningKind::EmptyFile)?;
    let odd = have_odd_name(release.packages());
    warn_if(warnings, odd, place, WarningKind::PackageName)
}

/// Warnings on the releases of an app: on a version that a later release also has, on a codebase
/// that doesn't end in `/`, or begins with neither `https://` nor `http://`, and on packages of
/// size 0, or with a name that is empty, begins with `..` or has a blank. Apps and releases are
/// numbered from 1.
// open: whether an allocation fails.
pub fn push_release_warnings(
    warnings: &mut Vec<Warning>,
    app: usize,
    releases: &[Release],
) -> Result<(), AllocError>
    ensures { OnOk result (warnings.new.items
        ≡ warnings.old.items ++ specs.releases_from app 1 releases.now) }
{
    let mut number = 1;
    let mut left = releases;
    while let [release, later @ ..] = left {
        push_one_release(warnings, app, number, release, later)?;
        number += 1;
        left = later;
    }
    Ok(())
}
