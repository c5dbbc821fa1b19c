//! The cause of a refused load, which a log prints after the fault's own text.

ghost use Rattle.std.specs.Prelude.{◌≡◌, ◌++◌, IfOk, IfSome, OnOk, Some, string_bytes};
ghost use Rattle.declarations.specs.Texts as declarations;
ghost use Rattle.load.specs.Cause as specs;

use crate::load_fault::LoadFault;
use cells::{CellArray, CellWidth, CellsFault, Directory};
use declarations::ArrayDeclaration;
use manifest::ManifestFault;
use rule_lang::array_named;
use std::alloc::{AllocError, Global};
use std::fmt::Write;

/// The cause of this fault of a manifest with these arrays, loaded over this directory; None if the
/// fault has none or an allocation fails.
pub(crate) fn cause_of(
    alloc: Global,
    directory: &Directory,
    arrays: &[ArrayDeclaration],
    fault: &LoadFault,
) -> Option<String>
    ensures { IfSome result
        (λ text. specs.cause_of directory.now arrays.now fault.now ≡ Some (string_bytes text)) }
{
    match fault {
        LoadFault::Manifest(fault) => manifest_cause(alloc, fault),
        LoadFault::Cells { array, fault } => cause_in(alloc, directory, arrays, *array, *fault),
        _ => None,
    }
}

fn manifest_cause(alloc: Global, fault: &ManifestFault) -> Option<String>
    ensures { IfSome result (λ text. specs.manifest_cause fault.now ≡ Some (string_bytes text)) }
{
    match fault {
        ManifestFault::Field(schema_error) => schema_error.to_string(alloc).ok(),
        ManifestFault::Duplicate(duplicate) => duplicate.to_string(alloc).ok(),
        _ => None,
    }
}

fn cause_in(
    alloc: Global,
    directory: &Directory,
    arrays: &[ArrayDeclaration],
    number: usize,
    fault: CellsFault,
) -> Option<String>
    ensures { IfSome result (λ text.
        specs.cause_in directory.now arrays.now number fault ≡ Some (string_bytes text)) }
{
    match arrays.get(number.saturating_sub(1)) {
        Some(array) => array_cause(alloc, directory, array, fault),
        None => None,
    }
}

fn array_cause(
    alloc: Global,
    directory: &Directory,
    array: &ArrayDeclaration,
    fault: CellsFault,
) -> Option<String>
    ensures { IfSome result (λ text.
        specs.array_cause directory.now array.now fault ≡ Some (string_bytes text)) }
{
    match fault {
        CellsFault::Redefined => match array_named(directory.arrays(), array.name()) {
            Some(existing) => change_text(alloc, existing, array).ok(),
            None => None,
        },
        CellsFault::CellsFull => full_text(alloc, array).ok(),
        CellsFault::Memory => None,
    }
}

fn change_text(
    alloc: Global,
    existing: &CellArray,
    array: &ArrayDeclaration,
) -> Result<String, AllocError>
    ensures { IfOk result
        (λ text. string_bytes text ≡ specs.change_text existing.now array.now) }
{
    let mut text = String::new(alloc);
    push_array(&mut text, existing)?;
    write!(text, " to {array}")?;
    Ok(text)
}

fn full_text(alloc: Global, array: &ArrayDeclaration) -> Result<String, AllocError>
    ensures { IfOk result (λ text. string_bytes text ≡ specs.full_text array.now) }
{
    format!(in alloc; "{array} passes the 4096 cells that all arrays of a width have")
}

// An array, spelled like its declaration.
fn push_array(text: &mut String, array: &CellArray) -> Result<(), AllocError>
    ensures { OnOk result (string_bytes text.new
        ≡ string_bytes text.old ++ declarations.declaration_text (specs.as_declared array.now)) }
{
    let name = array.name.as_str();
    let width = width_text(array.width);
    let length = array.length;
    match array.quota {
        None => write!(text, "{name}:{width}:{length}"),
        Some(quota) => write!(text, "{name}:{width}:{length}:{quota}"),
    }
}

fn width_text(width: CellWidth) -> &'static str
    ensures { result.now ≡ declarations.width_text width }
{
    match width {
        CellWidth::Bits32 => "32",
        CellWidth::Bits64 => "64",
    }
}
