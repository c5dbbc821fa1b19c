//! Rows as JSON.

ghost use Rattle.std.specs.Prelude.{◌≡◌, ◌++◌, false, IfOk, OnOk, map, string_bytes};
ghost use Rattle.serde_json.specs.View.{items_of, view};
ghost use Rattle.serde_json.specs.Written.{items_have_float};
ghost use Rattle.diff_text.specs.Objects as specs;

use crate::shown::{AppRows, ShownRelease, ShownRow};
use json_value::{ObjectBuilder, push_value};
use serde_json::Value;
use std::alloc::{AllocError, Global};

fn release_object(alloc: Global, release: &Option<ShownRelease>) -> Result<Value, AllocError>
    ensures { IfOk result (λ value. view value ≡ specs.release_object release.now) }
{
    let Some(release) = release else {
        return Ok(Value::Null);
    };
    let mut object = ObjectBuilder::new(alloc);
    object.put_number("release", release.number as u64);
    object.put_text("version", release.version.as_str());
    object.finish()
}

fn push_texts(values: &mut Vec<Value>, texts: &[String]) -> Result<(), AllocError>
    ensures { OnOk result (map view values.new.items
        ≡ map view values.old.items ++ specs.text_values (map string_bytes texts.now)) }
{
    let mut left = texts;
    while let [text, others @ ..] = left {
        let value = Value::try_from_str(*values.allocator(), text.as_str())?;
        push_value(values, value)?;
        left = others;
    }
    Ok(())
}

fn condition_values(alloc: Global, row: &ShownRow) -> Result<Vec<Value>, AllocError>
    ensures { IfOk result (λ values. map view values.items
        ≡ specs.text_values (row.now.tests ++ row.now.grants)) }
{
    let mut values = Vec::new(alloc);
    push_texts(&mut values, &row.tests)?;
    push_texts(&mut values, &row.grants)?;
    Ok(values)
}

fn row_object(alloc: Global, row: &ShownRow) -> Result<Value, AllocError>
    ensures { IfOk result (λ value. view value ≡ specs.row_object row.now) }
{
    let mut object = ObjectBuilder::new(alloc);
    object.put_text("kind", row.kind.name());
    object.put_bool("lost", row.kind.is_lost());
    object.put("next", release_object(alloc, &row.next));
    object.put("now", release_object(alloc, &row.current));
    object.put_list("when", condition_values(alloc, row));
    object.finish()
}

fn objects_of(alloc: Global, rows: &[ShownRow]) -> Result<Vec<Value>, AllocError>
    ensures { IfOk result (λ values. map view values.items ≡ map specs.row_object rows.now) }
{
    let mut values = Vec::with_capacity(alloc, rows.len())?;
    let mut left = rows;
    while let [row, others @ ..] = left {
        let value = row_object(alloc, row)?;
        push_value(&mut values, value)?;
        left = others;
    }
    Ok(values)
}

/// An object for each row, with its kind, the releases of both manifests, and the texts of its
/// condition.
// open: whether an allocation fails.
pub fn row_objects(alloc: Global, rows: &AppRows) -> Result<Vec<Value>, AllocError>
    ensures objects { IfOk result (λ values. map view values.items ≡ specs.row_objects rows.now) }
    ensures floats { IfOk result (λ values.
        items_have_float (items_of (map view values.items)) ≡ false) }
{
    let values = objects_of(alloc, &rows.rows)?;
    Ok(values)
}
