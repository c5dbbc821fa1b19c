//! The text of a list of declarations on a command line: `name:width:length` or
//! `name:64:length:quota`, joined by commas.

ghost use Rattle.std.specs.Prelude.{◌≡◌, Err, IfOk, Some, None, map, option_copied};
ghost use Rattle.declarations.specs.Spec as specs;

use crate::declaration::ArrayDeclaration;
use crate::parts::parts_of;
use cells::{ArrayName, CellArray, CellWidth};
use lexing::decimal_within;
use std::alloc::Global;

/// Why a text isn't a list of declarations.
#[derive(Clone, Copy, Debug)]
pub enum SpecFault {
    /// It isn't of that form, or a number is out of range.
    Malformed,
    /// An allocation failed.
    Memory,
}

/// The declarations of a text, in order. A name may be a duplicate, and the empty text is
/// malformed.
// open: whether an allocation fails.
pub fn read_spec(alloc: Global, text: &str) -> Result<Vec<ArrayDeclaration>, SpecFault>
    ensures read { IfOk result (λ v. specs.declarations_in text.now ≡ Some v.items) }
    ensures malformed { result ≡ Err SpecFault.Malformed → specs.declarations_in text.now ≡ None }
{
    match parts_of(alloc, text, ',') {
        Ok(parts) => read_parts(alloc, &parts),
        Err(_) => Err(SpecFault::Memory),
    }
}

fn read_parts(alloc: Global, parts: &[&str]) -> Result<Vec<ArrayDeclaration>, SpecFault>
    ensures read { IfOk result (λ v.
        specs.of_parts (map (λ part. part.now) parts.now) ≡ Some v.items) }
    ensures malformed { result ≡ Err SpecFault.Malformed
        → specs.of_parts (map (λ part. part.now) parts.now) ≡ None }
{
    let mut declarations = Vec::new(alloc);
    let mut rest = parts;
    while let [part, more @ ..] = rest {
        let declaration = read_part(alloc, part)?;
        match declarations.push(declaration) {
            Ok(()) => rest = more,
            Err(_) => return Err(SpecFault::Memory),
        }
    }
    Ok(declarations)
}

// The declaration with these fields between colons.
fn read_part(alloc: Global, part: &str) -> Result<ArrayDeclaration, SpecFault>
    ensures read { IfOk result (λ d. specs.of_part part.now ≡ Some d) }
    ensures malformed { result ≡ Err SpecFault.Malformed → specs.of_part part.now ≡ None }
{
    match parts_of(alloc, part, ':') {
        Ok(fields) => read_fields(alloc, &fields),
        Err(_) => Err(SpecFault::Memory),
    }
}

/// The declaration with these fields: a name, a width, a length, and a quota if there is one.
// open: whether an allocation fails.
pub fn read_fields(alloc: Global, fields: &[&str]) -> Result<ArrayDeclaration, SpecFault>
    ensures read { IfOk result (λ d.
        specs.of_fields (map (λ field. field.now) fields.now) ≡ Some d) }
    ensures malformed { result ≡ Err SpecFault.Malformed
        → specs.of_fields (map (λ field. field.now) fields.now) ≡ None }
{
    let quota = match fields.len() {
        3 => None,
        4 => Some(fields[3]),
        _ => return Err(SpecFault::Malformed),
    };
    read_values(alloc, fields[0], fields[1], fields[2], quota)
}

fn read_values(
    alloc: Global,
    name: &str,
    width: &str,
    length: &str,
    quota: Option<&str>,
) -> Result<ArrayDeclaration, SpecFault>
    ensures read { IfOk result (λ d.
        specs.declaration_of name.now width.now length.now (option_copied quota.entry) ≡ Some d) }
    ensures malformed { result ≡ Err SpecFault.Malformed
        → specs.declaration_of name.now width.now length.now (option_copied quota.entry) ≡ None }
{
    if !ArrayName::is_name(name) {
        return Err(SpecFault::Malformed);
    }
    let Some(width) = width_of(width) else {
        return Err(SpecFault::Malformed);
    };
    let Some(length) = decimal_within(length, 1, CellWidth::CELLS as u64) else {
        return Err(SpecFault::Malformed);
    };
    let Some(quota) = quota_of(width, quota) else {
        return Err(SpecFault::Malformed);
    };
    match ArrayName::of(alloc, name) {
        Ok(name) => Ok(ArrayDeclaration::new(name, width, length as u16, quota)),
        Err(_) => Err(SpecFault::Memory),
    }
}

fn width_of(text: &str) -> Option<CellWidth>
    ensures { result ≡ specs.width_of text.now }
{
    match text {
        "64" => Some(CellWidth::Bits64),
        "32" => Some(CellWidth::Bits32),
        _ => None,
    }
}

// A quota needs 64-bit cells.
fn quota_of(width: CellWidth, text: Option<&str>) -> Option<Option<u64>>
    ensures { result ≡ specs.quota_of width (option_copied text.entry) }
{
    let Some(text) = text else {
        return Some(None);
    };
    match width {
        CellWidth::Bits64 => Some(Some(decimal_within(text, 1, CellArray::MOST_QUOTA)?)),
        CellWidth::Bits32 => None,
    }
}
