//! All schema errors of a manifest: the first one of each table in its two lists.

ghost use Rattle.std.specs.Prelude.{◌≡◌, ◌++◌, map, IfOk, OnOk};
ghost use Rattle.toml.specs.Data.{get_member};
ghost use Rattle.toml.specs.View.{view, table_view};
ghost use Rattle.why_refused_manifest.specs.SchemaErrors.{schema_error_in, schema_errors_from};
ghost use Rattle.why_refused_manifest.specs.SchemaErrors.{schema_errors_of, schema_errors_of_rows};
ghost use Rattle.why_refused_manifest.specs.SchemaErrors.{own_schema_errors};
ghost use Rattle.manifest.specs.Rows.{item_of};
ghost use Rattle.manifest.specs.declared.schema_error.InList.{InList};
ghost use Rattle.manifest.specs.declared.schema_error.SchemaError.{SchemaError};
ghost use Rattle.manifest.specs.declared.schema_error.SchemaError.TheVariants as schema_error;

use declarations::ArrayDeclaration;
use manifest::{
    AppEntry, AppError, ArrayError, InList, Kind, MOST_ARRAYS, Quote, SchemaError, TableFault,
    TableRow, items_between, read_item, text_member, unknown_member,
};
use releases::MOST_APPS;
use std::alloc::{AllocError, Global};
use toml::{Table, Value};

/// All schema errors of a manifest's document: the first unknown member, the server, and then the
/// first error of each array and each app. So the first is the one that `read_manifest` returns.
// open: whether an allocation fails.
pub(crate) fn all_schema_errors(
    alloc: Global,
    document: &Table,
) -> Result<Vec<SchemaError>, AllocError>
    ensures { IfOk result (λ v. v.items ≡ schema_errors_of (table_view document.now)) }
{
    let mut schema_errors = own(alloc, document)?;
    push_rows::<ArrayDeclaration>(alloc, &mut schema_errors, document, "array", 0, MOST_ARRAYS)?;
    push_rows::<AppEntry>(alloc, &mut schema_errors, document, "app", 1, MOST_APPS)?;
    Ok(schema_errors)
}

fn own(alloc: Global, table: &Table) -> Result<Vec<SchemaError>, AllocError>
    ensures { IfOk result (λ v. v.items ≡ own_schema_errors (table_view table.now)) }
{
    let mut schema_errors = Vec::new(alloc);
    if let Some(key) = unknown_member(Kind::Manifest, table) {
        let key = Quote::of(alloc, key)?;
        schema_errors.push(SchemaError::Unknown(key))?;
    }
    if text_member(table, "server").is_none() {
        schema_errors.push(SchemaError::Server)?;
    }
    Ok(schema_errors)
}

/// A table of one of the two lists of a manifest.
trait ManifestRow: TableRow {
    ghost reported_as: { InList Self.SchemaError → SchemaError };

    fn reported(in_list: InList<Self::SchemaError>) -> SchemaError
        ensures { result ≡ reported_as in_list };
}

impl ManifestRow for ArrayDeclaration {
    ghost reported_as = { λ in_list. schema_error.Arrays in_list };

    fn reported(in_list: InList<ArrayError>) -> SchemaError
        ensures { result ≡ schema_error.Arrays in_list }
    {
        SchemaError::Arrays(in_list)
    }
}

impl ManifestRow for AppEntry {
    ghost reported_as = { λ in_list. schema_error.Apps in_list };

    fn reported(in_list: InList<AppError>) -> SchemaError
        ensures { result ≡ schema_error.Apps in_list }
    {
        SchemaError::Apps(in_list)
    }
}

// Adds the schema errors of a member that is a list of `from` to `to` tables.
fn push_rows<R: ManifestRow>(
    alloc: Global,
    schema_errors: &mut Vec<SchemaError>,
    table: &Table,
    key: &str,
    from: usize,
    to: usize,
) -> Result<(), AllocError>
    ensures { OnOk result (schema_errors.new.items ≡ schema_errors.old.items ++ map R.reported_as
        (schema_errors_of_rows R.row_of from to (get_member key.now (table_view table.now)))) }
{
    match items_between(table, key, from, to) {
        Some(items) => push_items::<R>(alloc, schema_errors, items),
        None => {
            schema_errors.push(R::reported(InList::Count))?;
            Ok(())
        }
    }
}

fn push_items<R: ManifestRow>(
    alloc: Global,
    schema_errors: &mut Vec<SchemaError>,
    items: &[Value],
) -> Result<(), AllocError>
    ensures { OnOk result (schema_errors.new.items ≡ schema_errors.old.items
        ++ map R.reported_as (schema_errors_from R.row_of 1 (map view items.now))) }
{
    let mut number = 1;
    let mut rest = items;
    while let [item, after @ ..] = rest {
        push_item::<R>(alloc, schema_errors, number, item)?;
        number += 1;
        rest = after;
    }
    Ok(())
}

fn push_item<R: ManifestRow>(
    alloc: Global,
    schema_errors: &mut Vec<SchemaError>,
    number: usize,
    item: &Value,
) -> Result<(), AllocError>
    ensures { OnOk result (schema_errors.new.items ≡ schema_errors.old.items
        ++ map R.reported_as (schema_error_in (item_of R.row_of number (view item.now)))) }
{
    match read_item::<R>(alloc, number, item) {
        Ok(_) => Ok(()),
        Err(TableFault::Memory) => Err(AllocError),
        Err(TableFault::SchemaError(schema_error)) => {
            schema_errors.push(R::reported(schema_error))?;
            Ok(())
        }
    }
}
