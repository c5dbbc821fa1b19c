//! The rulesets under which requests are served. The apps of each are alike.

ghost use Rattle.std.specs.Prelude.{◌≡◌, ◌≤◌, IfOk, length};

use acceptance::{RuleProgram, rule_program};
use anyhow::{Context, Result, ensure};
use attrs::Text;
use bpf_verify::Verified;
use cells::{CellWidth, Directory, Shape};
use releases::{Package, Release, is_appid};
use ruleset::{App, Ruleset};
use std::alloc::{AllocError, Global};
use std::sync::Arc;

/// How many takes the quota allows: more than are made.
pub(crate) const QUOTA: u64 = 2_000_000_000;

/// The SHA-256 of `abc`.
const HASH: &str = "ba7816bf8f01cfea414140de5dae2223b00361a396177a9cb410ff61f20015ad";

/// The app `x`, with one release of one package, which the buckets below 2000 are offered.
pub(crate) fn worked(alloc: Global) -> Result<Arc<Ruleset>> {
    let rule = "when bucket < 2000 offer 1; otherwise none;";
    ruleset(alloc, "x", 1, &Shape::plain(alloc, 1), rule, 1)
}

/// `count` apps, each of 64 releases of 16 packages. All are offered the last release.
pub(crate) fn many(alloc: Global, count: u16) -> Result<Arc<Ruleset>> {
    let shape = Shape::plain(alloc, 64);
    ruleset(
        alloc,
        "app0",
        count,
        &shape,
        "when bucket >= 0 offer 64; otherwise none;",
        16,
    )
}

/// `count` apps, each of one release of one package. The runs of all apps take from one quota: each
/// adds 1 to cell 0.
pub(crate) fn takers(alloc: Global, count: u16) -> Result<Arc<Ruleset>> {
    let rule = "when take(q, 0) offer 1; otherwise none;";
    ruleset(alloc, "app0", count, &quota_shape(alloc)?, rule, 1)
}

/// The shape of an app with one release that takes from a quota.
fn quota_shape(alloc: Global) -> Result<Shape> {
    let mut directory = Directory::new(alloc);
    let array = directory.declare(alloc, "q", CellWidth::Bits64, 1, Some(QUOTA))?;
    ensure!(array.number < directory.arrays().len(), "no array");
    Ok(Shape::of(alloc, 1, &directory, &[array])?)
}

/// The ruleset of a server `prod` with `count` apps of a shape and a rule, each release of
/// `packages` packages.
fn ruleset(
    alloc: Global,
    first: &str,
    count: u16,
    shape: &Shape,
    rule: &str,
    packages: u8,
) -> Result<Arc<Ruleset>>
    requires some { 1 ≤ packages }
    requires few { packages ≤ 16 }
{
    let program = program(alloc, shape, rule)?;
    let apps = apps(alloc, first, count, &program, packages);
    drop(program);
    shared(alloc, apps?)
}

/// The ruleset of these apps.
fn shared(alloc: Global, apps: Vec<App>) -> Result<Arc<Ruleset>> {
    let server = String::from_str(alloc, "prod")?;
    let rules = Ruleset::new(server, apps).context("two apps have one appid")?;
    Ok(Arc::new(alloc, rules)?)
}

/// The program of a rule, for apps of a shape.
fn program(alloc: Global, shape: &Shape, rule: &str) -> Result<Arc<Verified>> {
    let RuleProgram {
        program,
        rule: _rule,
    } = rule_program(alloc, rule.as_bytes(), shape)?;
    Ok(Arc::new(alloc, program)?)
}

/// The app `first`, and `app1` and so on, `count` in all.
fn apps(
    alloc: Global,
    first: &str,
    count: u16,
    program: &Arc<Verified>,
    packages: u8,
) -> Result<Vec<App>>
    requires some { 1 ≤ packages }
    requires few { packages ≤ 16 }
{
    let mut apps = Vec::new(alloc);
    for number in 0..count {
        apps.push(app(alloc, first, number, program, packages)?)?;
    }
    Ok(apps)
}

fn appid_of(alloc: Global, first: &str, number: u16) -> Result<String, AllocError> {
    if number == 0 {
        return String::from_str(alloc, first);
    }
    format!(in alloc; "app{number}")
}

/// An app with as many releases as its program has, each of `packages` packages.
fn app(
    alloc: Global,
    first: &str,
    number: u16,
    program: &Arc<Verified>,
    packages: u8,
) -> Result<App>
    requires some { 1 ≤ packages }
    requires few { packages ≤ 16 }
{
    let appid = appid_of(alloc, first, number)?;
    ensure!(is_appid(appid.as_str()), "no appid");
    let accepted: &Verified = program;
    let program = Arc::try_clone(program)?;
    let count = accepted.shape().releases();
    let releases = Arc::new(alloc, releases(alloc, count, packages)?)?;
    Ok(App::new(appid, program, releases))
}

fn releases(alloc: Global, count: u8, packages: u8) -> Result<Vec<Release>, AllocError>
    requires some { 1 ≤ packages }
    requires few { packages ≤ 16 }
    ensures { IfOk result (λ releases. length releases.items ≡ count) }
{
    let mut releases = Vec::new(alloc);
    for _i in 0..count {
        releases.push(release(alloc, packages)?)?;
    }
    Ok(releases)
}

fn release(alloc: Global, count: u8) -> Result<Release, AllocError>
    requires some { 1 ≤ count }
    requires few { count ≤ 16 }
{
    let version = Text::new(String::from_str(alloc, "2.0.0.0")?);
    let codebase = Text::new(String::from_str(alloc, "http://dl.example/")?);
    Ok(Release::new(version, codebase, packages(alloc, count)?))
}

fn packages(alloc: Global, count: u8) -> Result<Vec<Package>, AllocError>
    ensures { IfOk result (λ packages. length packages.items ≡ count) }
{
    let mut packages = Vec::new(alloc);
    for _i in 0..count {
        packages.push(package(alloc)?)?;
    }
    Ok(packages)
}

fn package(alloc: Global) -> Result<Package, AllocError> {
    let name = Text::new(String::from_str(alloc, "x.bin")?);
    let hash = Text::new(String::from_str(alloc, HASH)?);
    Ok(Package::new(name, hash, 3, true))
}
