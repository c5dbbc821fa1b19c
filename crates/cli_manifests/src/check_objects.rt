//! The report on a checked manifest, as a JSON value.

ghost use Rattle.std.specs.Prelude.{◌≡◌, ◌∷◌, ◌++◌, [], IfOk, OnOk, map, string_bytes};
ghost use Rattle.std.specs.Io.BufRead.{strip_last};
ghost use Rattle.serde_json.specs.View.{view};
ghost use Rattle.cli_manifests.specs.CheckObjects as specs;
ghost use Rattle.cli_manifests.specs.Manifests.{fault_text};

use crate::manifest_tool_fault::ManifestToolFault;
use bpf_verify::Verified;
use cells::CellWidth;
use declarations::ArrayDeclaration;
use json_value::{ObjectBuilder, push_value};
use ruleset::App;
use serde_json::Value;
use std::alloc::{AllocError, Global};
use warnings::{Warning, push_warning_text, some_counts};
use why_refused_manifest::{CheckedManifest, FaultReport, Refused};

/// The object of an accepted manifest.
pub(crate) fn accepted_object(
    alloc: Global,
    allowed: &[&str],
    path: &str,
    checked: &CheckedManifest,
) -> Result<Value, AllocError>
    ensures { IfOk result (λ value. view value
        ≡ specs.accepted_object allowed.now path.now checked.now) }
{
    let digest = hex::encode(alloc, checked.digest)?;
    let mut object = ObjectBuilder::new(alloc);
    object.put_bool("accepted", true);
    object.put_list("apps", app_objects(alloc, checked.apps.as_slice()));
    object.put_list("arrays", array_objects(alloc, checked.arrays.as_slice()));
    object.put("digest", Ok(Value::String(digest)));
    object.put_text("manifest", path);
    object.put_list(
        "warnings",
        warning_objects(alloc, allowed, checked.warnings.as_slice()),
    );
    object.finish()
}

fn app_objects(alloc: Global, apps: &[App]) -> Result<Vec<Value>, AllocError>
    ensures { IfOk result (λ values. map view values.items
        ≡ map specs.checked_app_object apps.now) }
{
    let mut values = Vec::new(alloc);
    for app in apps {
        let value = app_object(alloc, app)?;
        push_value(&mut values, value)?;
    }
    Ok(values)
}

fn app_object(alloc: Global, app: &App) -> Result<Value, AllocError>
    ensures { IfOk result (λ value. view value ≡ specs.checked_app_object app.now) }
{
    let program: &Verified = app.program();
    let mut object = ObjectBuilder::new(alloc);
    object.put_text("appid", app.appid());
    object.put_number("releases", app.releases().len() as u64);
    object.put_number("slots", program.len() as u64);
    object.finish()
}

fn array_objects(alloc: Global, arrays: &[ArrayDeclaration]) -> Result<Vec<Value>, AllocError>
    ensures { IfOk result (λ values. map view values.items ≡ map specs.array_object arrays.now) }
{
    let mut values = Vec::new(alloc);
    for array in arrays {
        let value = array_object(alloc, array)?;
        push_value(&mut values, value)?;
    }
    Ok(values)
}

fn array_object(alloc: Global, array: &ArrayDeclaration) -> Result<Value, AllocError>
    ensures { IfOk result (λ value. view value ≡ specs.array_object array.now) }
{
    let mut object = ObjectBuilder::new(alloc);
    object.put_number("length", array.length() as u64);
    object.put_text("name", array.name());
    object.put("quota", Ok(quota_object(array.quota())));
    object.put_number("width", bits_of(array.width()));
    object.finish()
}

fn quota_object(quota: Option<u64>) -> Value
    ensures { view result ≡ specs.quota_object quota }
{
    match quota {
        Some(quota) => Value::from(quota),
        None => Value::Null,
    }
}

fn bits_of(width: CellWidth) -> u64
    ensures { result ≡ specs.bits_of width }
{
    match width {
        CellWidth::Bits32 => 32,
        CellWidth::Bits64 => 64,
    }
}

fn warning_objects(
    alloc: Global,
    allowed: &[&str],
    warnings: &[Warning],
) -> Result<Vec<Value>, AllocError>
    ensures { IfOk result (λ values. map view values.items
        ≡ map (specs.warning_object allowed.now) warnings.now) }
{
    let mut values = Vec::new(alloc);
    for warning in warnings {
        let value = warning_object(alloc, allowed, warning)?;
        push_value(&mut values, value)?;
    }
    Ok(values)
}

fn warning_object(alloc: Global, allowed: &[&str], warning: &Warning) -> Result<Value, AllocError>
    ensures { IfOk result (λ value. view value
        ≡ specs.warning_object allowed.now warning.now) }
{
    let mut text = String::new(alloc);
    push_warning_text(&mut text, warning)?;
    let counts = some_counts(&[*warning], allowed);
    let mut object = ObjectBuilder::new(alloc);
    object.put_bool("counts", counts);
    object.put_text("name", warning.kind.name());
    object.put("text", Ok(Value::String(text)));
    object.finish()
}

/// The objects of all manifests, and whether they pass.
pub(crate) fn checks_object(
    alloc: Global,
    manifests: Vec<Value>,
    passes: bool,
) -> Result<Value, AllocError>
    ensures { IfOk result (λ value. view value
        ≡ specs.checks_object (map view manifests.items) passes) }
{
    let mut object = ObjectBuilder::new(alloc);
    object.put_list("manifests", Ok(manifests));
    object.put_bool("passes", passes);
    object.finish()
}

// ---- refused

/// The object of a refused manifest. If its file can't be read, `reason` says why.
pub(crate) fn refused_object(
    alloc: Global,
    path: &str,
    reason: &str,
    fault: &ManifestToolFault,
) -> Result<Value, AllocError>
    ensures { IfOk result (λ value. view value
        ≡ specs.refused_object path.now reason.now fault.now) }
{
    let mut object = ObjectBuilder::new(alloc);
    object.put_bool("accepted", false);
    object.put_list("faults", fault_objects(alloc, reason, fault));
    object.put_number("left_out", left_out_of(fault) as u64);
    object.put_text("manifest", path);
    object.put_number("unread_apps", unread_of(fault) as u64);
    object.finish()
}

fn fault_objects(
    alloc: Global,
    reason: &str,
    fault: &ManifestToolFault,
) -> Result<Vec<Value>, AllocError>
    ensures { IfOk result (λ values. map view values.items
        ≡ specs.fault_objects reason.now fault.now) }
{
    match fault {
        ManifestToolFault::Diagnosed(refused) => diagnosed_objects(alloc, refused),
        _ => other_objects(alloc, reason, fault),
    }
}

// For a fault that has nothing but its text.
fn other_objects(
    alloc: Global,
    reason: &str,
    fault: &ManifestToolFault,
) -> Result<Vec<Value>, AllocError>
    ensures { IfOk result (λ values. map view values.items
        ≡ specs.fault_object (fault_text fault.now) reason.now ∷ []) }
{
    let refusal = fault.to_string(alloc)?;
    let value = fault_object(alloc, refusal, reason)?;
    let mut values = Vec::new(alloc);
    push_value(&mut values, value)?;
    Ok(values)
}

fn diagnosed_objects(alloc: Global, refused: &Refused) -> Result<Vec<Value>, AllocError>
    ensures { IfOk result (λ values. map view values.items ≡ specs.diagnosed_objects refused.now) }
{
    let refusal = refused.fault.to_string(alloc)?;
    let value = fault_object(alloc, refusal, refused.own.as_str())?;
    let mut values = Vec::new(alloc);
    push_value(&mut values, value)?;
    push_further(&mut values, refused.further.as_slice())?;
    Ok(values)
}

fn push_further(values: &mut Vec<Value>, further: &[FaultReport]) -> Result<(), AllocError>
    ensures { OnOk result (map view values.new.items
        ≡ map view values.old.items ++ map specs.further_object further.now) }
{
    for fault in further {
        let value = further_object(*values.allocator(), fault)?;
        push_value(values, value)?;
    }
    Ok(())
}

fn further_object(alloc: Global, further: &FaultReport) -> Result<Value, AllocError>
    ensures { IfOk result (λ value. view value ≡ specs.further_object further.now) }
{
    let refusal = further.fault.to_string(alloc)?;
    fault_object(alloc, refusal, further.reason.as_str())
}

fn fault_object(alloc: Global, refusal: String, reason: &str) -> Result<Value, AllocError>
    ensures { IfOk result (λ value. view value
        ≡ specs.fault_object (string_bytes refusal) reason.now) }
{
    let mut object = ObjectBuilder::new(alloc);
    object.put_text("reason", without_line_feed(reason));
    object.put("refusal", Ok(Value::String(refusal)));
    object.finish()
}

// Lines without the line feed that ends the last of them.
#[tactic(auto, using(crate::proofs::LineEnds::kept))]
fn without_line_feed(lines: &str) -> &str
    ensures { result.now ≡ strip_last 10 lines.now }
{
    match lines.strip_suffix('\n') {
        Some(front) => front,
        None => lines,
    }
}

fn left_out_of(fault: &ManifestToolFault) -> usize
    ensures { result ≡ specs.left_out_of fault.now }
{
    match fault {
        ManifestToolFault::Diagnosed(refused) => refused.left_out,
        _ => 0,
    }
}

fn unread_of(fault: &ManifestToolFault) -> usize
    ensures { result ≡ specs.unread_of fault.now }
{
    match fault {
        ManifestToolFault::Diagnosed(refused) => refused.unread,
        _ => 0,
    }
}
