//! The members of a table, by the types of their values.

ghost use Rattle.std.specs.Prelude.{◌≡◌, option_map, option_copied};
ghost use Rattle.toml.specs.Data.{get_member, as_str, as_bool};
ghost use Rattle.toml.specs.View.{view, table_view};
ghost use Rattle.manifest.specs.Member.{required, number};

use toml::{Table, Value};

pub(crate) fn member<'a>(table: &'a Table, key: &str) -> Option<&'a Value>
    ensures { option_map (λ v. view v.now) result ≡ get_member key.now (table_view table.now) }
{
    table.get(key)
}

/// The text of a member; None for any other value.
pub fn text_member<'a>(table: &'a Table, key: &str) -> Option<&'a str>
    ensures { option_copied result ≡ required as_str key.now (table_view table.now) }
{
    match member(table, key) {
        Some(value) => value.as_str(),
        None => None,
    }
}

/// The integer of a member, if it is in this range.
pub(crate) fn number(table: &Table, key: &str, from: u64, to: u64) -> Option<u64>
    ensures { result ≡ required (number from to) key.now (table_view table.now) }
{
    match member(table, key) {
        Some(value) => number_of(value, from, to),
        None => None,
    }
}

pub(crate) fn truth(table: &Table, key: &str) -> Option<bool>
    ensures { result ≡ required as_bool key.now (table_view table.now) }
{
    match member(table, key) {
        Some(value) => value.as_bool(),
        None => None,
    }
}

/// The integer of a value, if it is in this range.
pub(crate) fn number_of(value: &Value, from: u64, to: u64) -> Option<u64>
    ensures { result ≡ number from to (view value.now) }
{
    match value.as_integer() {
        Some(integer) => within(integer, from, to),
        None => None,
    }
}

fn within(integer: i64, from: u64, to: u64) -> Option<u64>
    ensures { result ≡ Rattle.manifest.specs.Member.within from to integer }
{
    match u64::try_from(integer) {
        Ok(number) if from <= number && number <= to => Some(number),
        _ => None,
    }
}
