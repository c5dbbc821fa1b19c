//! `check` of one manifest, or of several: what is printed, and whether they pass.

ghost use Rattle.std.specs.Prelude.{◌≡◌, IfOk, IfErr};
ghost use Rattle.cli_manifests.specs.CheckObjects.{IsCheckOutput, RefusesChecks};
ghost use Rattle.cli_manifests.specs.Checks as specs;
ghost use Rattle.cli_manifests.specs.Manifests.{IsCheckRefusal};

use crate::check::check_file;
use crate::check_json::check_as_json;
use crate::check_lines::{push_digest, push_ok, push_refusal, push_titled};
use crate::manifest_tool_fault::ManifestToolFault;
use bounded_files::{Disk, ResourceFault};
use std::alloc::{AllocError, Global};
use std::rt::Files;
use warnings::{Warning, push_warnings, some_counts};
use why_refused_manifest::CheckedManifest;

/// The report on the checked manifests.
#[derive(Drop)]
pub struct CheckOutput {
    /// What they declare: lines, each ended by a line feed.
    pub text: String,
    /// What goes to standard error: the warnings, and why manifests are refused. These are lines,
    /// each ended by a line feed.
    pub stderr: String,
    /// No manifest is refused, and no warning counts.
    pub passes: bool,
}

/// Checks manifests, each separately. In a strict check, warnings count unless their name is
/// allowed.
///
/// For one manifest, the text has its lines, then `ok` if each warning is allowed, and then the
/// digest of it and of its files in 64 hexadecimal digits; a refusal is returned as a fault. For
/// several, each is reported under a line `manifest PATH`, in each text that has lines about it.
/// A refused manifest is reported in `stderr`, by the line of its refusal and its reason. With
/// `json` the text is one line of JSON, also for refused manifests, and `stderr` is empty.
// open: what `check_file` leaves open, and the system's reason why a manifest can't be read.
pub fn check_files<R, D>(
    rt: &R,
    disk: &D,
    paths: &[&str],
    strict: bool,
    allowed: &[&str],
    json: bool,
) -> Result<CheckOutput, ManifestToolFault>
where
    R: Files + AllocGlobal,
    D: Disk,
    ensures output { IfOk result
        (IsCheckOutput (D.known disk.now) json strict allowed.now paths.now) }
    ensures fault { IfErr result (RefusesChecks (D.known disk.now) json paths.now) }
{
    if !json {
        return check_as_lines(rt.alloc(), disk, paths, strict, allowed);
    }
    match check_as_json(rt, disk, paths, strict, allowed) {
        Ok(output) => Ok(output),
        Err(_) => Err(ManifestToolFault::Resource(ResourceFault::Memory)),
    }
}

fn check_as_lines<D: Disk>(
    alloc: Global,
    disk: &D,
    paths: &[&str],
    strict: bool,
    allowed: &[&str],
) -> Result<CheckOutput, ManifestToolFault>
    ensures output { IfOk result
        (specs.AreChecked (D.known disk.now) strict allowed.now paths.now) }
    ensures fault { IfErr result (specs.AreCheckRefusal (D.known disk.now) paths.now) }
{
    match paths {
        [path] => check_alone(alloc, disk, *path, strict, allowed),
        _ => match check_each(alloc, disk, paths, strict, allowed) {
            Ok(output) => Ok(output),
            Err(_) => Err(ManifestToolFault::Resource(ResourceFault::Memory)),
        },
    }
}

// The check of one manifest.
fn check_alone<D: Disk>(
    alloc: Global,
    disk: &D,
    path: &str,
    strict: bool,
    allowed: &[&str],
) -> Result<CheckOutput, ManifestToolFault>
    ensures output { IfOk result
        (specs.IsCheckedAlone (D.known disk.now) strict allowed.now path.now) }
    ensures fault { IfErr result (IsCheckRefusal (D.known disk.now) path.now) }
{
    let checked = check_file(alloc, disk, path)?;
    match format_checked(alloc, checked, strict, allowed) {
        Ok(output) => Ok(output),
        Err(_) => Err(ManifestToolFault::Resource(ResourceFault::Memory)),
    }
}

fn format_checked(
    alloc: Global,
    checked: CheckedManifest,
    strict: bool,
    allowed: &[&str],
) -> Result<CheckOutput, AllocError>
    ensures { IfOk result (specs.FormatsChecked strict allowed.now checked) }
{
    let CheckedManifest {
        arrays,
        apps,
        mut text,
        warnings,
        digest,
    } = checked;
    drop(arrays);
    drop(apps);
    let passes = passes(strict, allowed, warnings.as_slice());
    let mut stderr = String::new(alloc);
    push_warnings(&mut stderr, warnings.as_slice())?;
    push_ok(&mut text, allowed, warnings.as_slice())?;
    push_digest(&mut text, digest)?;
    Ok(CheckOutput {
        text,
        stderr,
        passes,
    })
}

pub(crate) fn passes(strict: bool, allowed: &[&str], warnings: &[Warning]) -> bool
    ensures { result ≡ specs.passes strict allowed.now warnings.now }
{
    !(strict && some_counts(warnings, allowed))
}

// ---- several manifests

// The checks of manifests, in order.
fn check_each<D: Disk>(
    alloc: Global,
    disk: &D,
    paths: &[&str],
    strict: bool,
    allowed: &[&str],
) -> Result<CheckOutput, AllocError>
    ensures { IfOk result (λ output. specs.AreCheckedEach (D.known disk.now) strict allowed.now
        paths.now output.passes) }
{
    let mut output = CheckOutput {
        text: String::new(alloc),
        stderr: String::new(alloc),
        passes: true,
    };
    for path in paths {
        output = add_checked(alloc, disk, *path, strict, allowed, output)?;
    }
    Ok(output)
}

// Adds the check of one more manifest.
#[tactic(auto, using(crate::proofs::Checked::accepted_more, crate::proofs::Checked::refused_more))]
fn add_checked<D: Disk>(
    alloc: Global,
    disk: &D,
    path: &str,
    strict: bool,
    allowed: &[&str],
    mut output: CheckOutput,
) -> Result<CheckOutput, AllocError>
    ensures { IfOk result
        (specs.AddsChecked (D.known disk.now) strict allowed.now path.now output) }
{
    match check_alone(alloc, disk, path, strict, allowed) {
        Ok(one) => {
            push_titled(&mut output.text, path, one.text.as_str())?;
            push_titled(&mut output.stderr, path, one.stderr.as_str())?;
            output.passes = output.passes && one.passes;
            Ok(output)
        }
        Err(fault) => {
            let pushed = push_refusal(&mut output.stderr, path, &fault);
            // Dropped by one call: left to the `?`, each of its many parts would be dropped by its
            // own call.
            drop(fault);
            pushed?;
            output.passes = false;
            Ok(output)
        }
    }
}
