//! Lists of tables, which are numbered from 1.

ghost use Rattle.std.specs.Prelude.{◌≡◌, ◌≤◌, map, length, option_map, Result};
ghost use Rattle.std.specs.Prelude.{IfOk, IfSome, IsTrue};
ghost use Rattle.toml.specs.Data.{Members, get_member};
ghost use Rattle.toml.specs.View.{view, table_view};
ghost use Rattle.manifest.specs.Rows.{rows_of, items_in, are_between, items_from, item_of};
ghost use Rattle.manifest.specs.Rows as specs;
ghost use Rattle.manifest.specs.TableFault.{ReadsAs, ReadsListAs};

use crate::member::member;
use crate::schema_error::InList;
use crate::table_fault::TableFault;
use std::alloc::Global;
use toml::{Table, Value};

/// A table of a list, and how it is read.
pub trait TableRow: Drop {
    type SchemaError: Drop;

    ghost row_of: { Members → Result Self Self.SchemaError };

    /// The row of a table, or its first schema error.
    fn read(alloc: Global, table: &Table) -> Result<Self, TableFault<Self::SchemaError>>
        ensures { ReadsAs (row_of (table_view table.now)) result };
}

/// The rows of a member that is a list of `from` to `to` tables; if `from` is 0 it may be absent.
pub(crate) fn read_rows<R: TableRow>(
    alloc: Global,
    table: &Table,
    key: &str,
    from: usize,
    to: usize,
) -> Result<Vec<R>, TableFault<InList<R::SchemaError>>>
    ensures rows { ReadsListAs
        (rows_of R.row_of from to (get_member key.now (table_view table.now))) result }
    ensures from { IfOk result (λ v. from ≤ length v.items) }
    ensures to { IfOk result (λ v. length v.items ≤ to) }
{
    match items_between(table, key, from, to) {
        Some(items) => read_items(alloc, items),
        None => Err(TableFault::SchemaError(InList::Count)),
    }
}

/// The items of a member that is a list of `from` to `to` items. If `from` is 0, it may be absent,
/// and then has no items. None for any other member.
pub fn items_between<'a>(table: &'a Table, key: &str, from: usize, to: usize) -> Option<&'a [Value]>
    ensures items { option_map (λ v. map view v.now) result
        ≡ specs.items_between from to (get_member key.now (table_view table.now)) }
    ensures count { IfSome result
        (λ items. (from ≤ length items.now) × (length items.now ≤ to)) }
{
    let Some(list) = member(table, key) else {
        return if from == 0 { Some(&[]) } else { None };
    };
    match items_of(list) {
        Some(items) if has_count(items, from, to) => Some(items),
        _ => None,
    }
}

fn items_of(list: &Value) -> Option<&[Value]>
    ensures { option_map (λ v. map view v.now) result ≡ items_in (view list.now) }
{
    match list.as_array() {
        Some(items) => Some(items.as_slice()),
        None => None,
    }
}

// Whether there are `from` to `to` items.
fn has_count(items: &[Value], from: usize, to: usize) -> bool
    ensures value { result ≡ are_between from to (map view items.now) }
    ensures count { IsTrue result → (from ≤ length items.now) × (length items.now ≤ to) }
{
    from <= items.len() && items.len() <= to
}

fn read_items<R: TableRow>(
    alloc: Global,
    items: &[Value],
) -> Result<Vec<R>, TableFault<InList<R::SchemaError>>>
    ensures rows { ReadsListAs (items_from R.row_of 1 (map view items.now)) result }
    ensures count { IfOk result (λ v. length v.items ≡ length items.now) }
{
    let Ok(mut rows) = Vec::with_capacity(alloc, items.len()) else {
        return Err(TableFault::Memory);
    };
    let mut rest = items;
    while let [item, after @ ..] = rest {
        let row = read_item(alloc, rows.len() + 1, item)?;
        let Ok(()) = rows.push(row) else {
            return Err(TableFault::Memory);
        };
        rest = after;
    }
    Ok(rows)
}

/// The row of the item with this number.
pub fn read_item<R: TableRow>(
    alloc: Global,
    number: usize,
    item: &Value,
) -> Result<R, TableFault<InList<R::SchemaError>>>
    ensures { ReadsAs (item_of R.row_of number (view item.now)) result }
{
    let Some(table) = item.as_table() else {
        return Err(TableFault::SchemaError(InList::NoTable(number)));
    };
    match R::read(alloc, table) {
        Ok(row) => Ok(row),
        Err(TableFault::SchemaError(schema_error)) => Err(TableFault::SchemaError(InList::At(
            number,
            schema_error,
        ))),
        Err(TableFault::Memory) => Err(TableFault::Memory),
    }
}
