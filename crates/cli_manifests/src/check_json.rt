//! `check --json`: the report on manifests, as a line of JSON.

ghost use Rattle.std.specs.Prelude.{◌≡◌, IfOk, List, map, ℕ};
ghost use Rattle.serde_json.specs.View.{view};
ghost use Rattle.cli_manifests.specs.CheckObjects as specs;
ghost use Rattle.cli_manifests.specs.CheckedObjects.{AddsCheckObject};

use crate::check::check_file;
use crate::check_objects::{accepted_object, checks_object, refused_object};
use crate::checks::{CheckOutput, passes};
use crate::manifest_tool_fault::ManifestToolFault;
use bounded_files::Disk;
use json_value::{json_line, push_value};
use refusal_details::print_read_fault;
use serde_json::Value;
use std::alloc::AllocError;
use std::rt::Files;
use std::str;

// An object for each manifest so far, and whether all of them pass.
#[derive(Drop)]
struct ManifestObjects {
    values: Vec<Value>,
    passes: bool,
}

/// The report on manifests, as a line of JSON.
pub(crate) fn check_as_json<R, D>(
    rt: &R,
    disk: &D,
    paths: &[&str],
    strict: bool,
    allowed: &[&str],
) -> Result<CheckOutput, AllocError>
where
    R: Files + AllocGlobal,
    D: Disk,
    ensures { IfOk result (specs.AreCheckedAsJson (D.known disk.now) strict allowed.now paths.now) }
{
    let alloc = rt.alloc();
    let objects = objects_of(rt, disk, paths, strict, allowed)?;
    let passes = objects.passes;
    let value = checks_object(alloc, objects.values, passes)?;
    let line = json_line(alloc, &value);
    drop(value);
    Ok(CheckOutput {
        text: line?,
        stderr: String::new(alloc),
        passes,
    })
}

// An object for each manifest, in order.
fn objects_of<R, D>(
    rt: &R,
    disk: &D,
    paths: &[&str],
    strict: bool,
    allowed: &[&str],
) -> Result<ManifestObjects, AllocError>
where
    R: Files + AllocGlobal,
    D: Disk,
    ensures { IfOk result (λ objects. specs.AreCheckObjects (D.known disk.now) strict allowed.now
        paths.now (map view objects.values.items) objects.passes) }
{
    let mut objects = ManifestObjects {
        values: Vec::new(rt.alloc()),
        passes: true,
    };
    for path in paths {
        objects = add_object(rt, disk, *path, strict, allowed, objects)?;
    }
    Ok(objects)
}

// Adds the object of one more manifest.
fn add_object<R, D>(
    rt: &R,
    disk: &D,
    path: &str,
    strict: bool,
    allowed: &[&str],
    mut objects: ManifestObjects,
) -> Result<ManifestObjects, AllocError>
where
    R: Files + AllocGlobal,
    D: Disk,
    ensures { IfOk result (AddsCheckObject (D.known disk.now) strict allowed.now path.now objects) }
{
    let (value, passes) = object_of(rt, disk, path, strict, allowed)?;
    push_value(&mut objects.values, value)?;
    objects.passes = objects.passes && passes;
    Ok(objects)
}

// The object of a manifest, and whether it passes.
fn object_of<R, D>(
    rt: &R,
    disk: &D,
    path: &str,
    strict: bool,
    allowed: &[&str],
) -> Result<(Value, bool), AllocError>
where
    R: Files + AllocGlobal,
    D: Disk,
    ensures { IfOk result (λ made. specs.IsCheckObject (D.known disk.now) strict allowed.now
        path.now (view made.0) made.1) }
{
    let alloc = rt.alloc();
    match check_file(alloc, disk, path) {
        Ok(checked) => {
            let one = passes(strict, allowed, checked.warnings.as_slice());
            let value = accepted_object(alloc, allowed, path, &checked);
            drop(checked);
            Ok((value?, one))
        }
        Err(fault) => {
            let value = refused_as(rt, path, &fault);
            // Dropped by one call: left to the `?`, each of its many parts would be dropped by its
            // own call.
            drop(fault);
            Ok((value?, false))
        }
    }
}

// The object of a refused manifest.
fn refused_as<R>(rt: &R, path: &str, fault: &ManifestToolFault) -> Result<Value, AllocError>
where
    R: Files + AllocGlobal,
    ensures { IfOk result (λ value. (reason : List ℕ)
        × (view value ≡ specs.refused_object path.now reason fault.now)) }
{
    let mut bytes = Vec::new(rt.alloc());
    let _printed = print_read_fault(rt, path, &mut bytes);
    let reason = str::from_utf8(&bytes).unwrap_or("");
    let value = refused_object(rt.alloc(), path, reason, fault)?;
    Ok(value)
}
