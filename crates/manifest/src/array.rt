//! The table of an array of counters.

ghost use Rattle.std.specs.Prelude.{◌≡◌, codes, option_copied};
ghost use Rattle.declarations.specs.Spec.{is_name};
ghost use Rattle.toml.specs.Data.{get_member};
ghost use Rattle.toml.specs.View.{view, table_view};
ghost use Rattle.manifest.specs.Member.{required, text_that};
ghost use Rattle.manifest.specs.TableFault.{ReadsAs};
ghost use Rattle.manifest.specs.Array as specs;

use crate::kind::{Kind, unknown_member};
use crate::member::{member, number, number_of, text_member};
use crate::quote::Quote;
use crate::rows::TableRow;
use crate::schema_error::ArrayError;
use crate::table_fault::TableFault;
use cells::{ArrayName, CellArray, CellWidth};
use declarations::ArrayDeclaration;
use std::alloc::Global;
use toml::{Table, Value};

impl TableRow for ArrayDeclaration {
    type SchemaError = ArrayError;

    ghost row_of = { specs.array_of };

    fn read(alloc: Global, table: &Table) -> Result<ArrayDeclaration, TableFault<ArrayError>> {
        read_array(alloc, table)
    }
}

fn read_array(alloc: Global, table: &Table) -> Result<ArrayDeclaration, TableFault<ArrayError>>
    ensures { ReadsAs (specs.array_of (table_view table.now)) result }
{
    if let Some(key) = unknown_member(Kind::Array, table) {
        let Ok(key) = Quote::of(alloc, key) else {
            return Err(TableFault::Memory);
        };
        return Err(TableFault::SchemaError(ArrayError::Unknown(key)));
    }
    let Some(name) = name(table) else {
        return Err(TableFault::SchemaError(ArrayError::Name));
    };
    let Some(width) = width(table) else {
        return Err(TableFault::SchemaError(ArrayError::Width));
    };
    let Some(length) = number(table, "length", 1, CellWidth::CELLS as u64) else {
        return Err(TableFault::SchemaError(ArrayError::Length));
    };
    let Some(quota) = quota(table, width) else {
        return Err(TableFault::SchemaError(ArrayError::Quota));
    };
    let Ok(name) = ArrayName::of(alloc, name) else {
        return Err(TableFault::Memory);
    };
    Ok(ArrayDeclaration::new(name, width, length as u16, quota))
}

fn name(table: &Table) -> Option<&str>
    ensures { option_copied result
        ≡ required (text_that is_name) (codes "name") (table_view table.now) }
{
    match text_member(table, "name") {
        Some(text) if ArrayName::is_name(text) => Some(text),
        _ => None,
    }
}

fn width(table: &Table) -> Option<CellWidth>
    ensures { result ≡ required specs.width_of (codes "width") (table_view table.now) }
{
    match member(table, "width") {
        Some(value) => width_of(value),
        None => None,
    }
}

fn width_of(value: &Value) -> Option<CellWidth>
    ensures { result ≡ specs.width_of (view value.now) }
{
    match number_of(value, 32, 64) {
        Some(32) => Some(CellWidth::Bits32),
        Some(64) => Some(CellWidth::Bits64),
        _ => None,
    }
}

// The quota of an array of this width: `None` if it is wrong, and `Some(None)` if there is none.
fn quota(table: &Table, width: CellWidth) -> Option<Option<u64>>
    ensures { result ≡ specs.quota_of width (get_member (codes "quota") (table_view table.now)) }
{
    let Some(value) = member(table, "quota") else {
        return Some(None);
    };
    match width {
        CellWidth::Bits64 => match number_of(value, 1, CellArray::MOST_QUOTA) {
            Some(quota) => Some(Some(quota)),
            None => None,
        },
        CellWidth::Bits32 => None,
    }
}
