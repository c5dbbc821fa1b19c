//! The members of an object of JSON, and which lines are the server's.

ghost use Rattle.std.specs.Prelude.{◌≡◌, IfOk, codes, option_map};
ghost use Rattle.std.specs.Option.{option_copied};
ghost use Rattle.json.specs.Value.{value_view};
ghost use Rattle.serde_json.specs.View.{view, items_view};
ghost use Rattle.report.specs.Borrowed.{data_of};
ghost use Rattle.report.specs.LogEvents as specs;
ghost use Rattle.report.specs.Members.{line_members};
ghost use Rattle.report.specs.Windows as windows;

use crate::borrowed_json::read_borrowed;
use crate::line_members::text_at;
use crate::window::Window;
use json::{Scratch, Value as LineValue};
use serde_json::Value;
use std::alloc::{AllocError, Global};

/// The maximum number of bytes of a line; a server's lines have at most 4096.
pub(crate) const LINE_LIMIT: usize = 65536;

/// The member of this name, if it is a text.
pub fn text_in<'a>(value: &'a Value, name: &str) -> Option<&'a str>
    ensures { option_copied result ≡ specs.text_in name.now (view value.now) }
{
    match value.get(name) {
        Some(member) => member.as_str(),
        None => None,
    }
}

/// The member of this name, if it is a number of 64 bits that is written only in digits.
pub fn number_in(value: &Value, name: &str) -> Option<u64>
    ensures { result ≡ specs.number_in name.now (view value.now) }
{
    match value.get(name) {
        Some(member) => member.as_u64(),
        None => None,
    }
}

/// The member of this name, if it is `true` or `false`.
pub fn flag_in(value: &Value, name: &str) -> Option<bool>
    ensures { result ≡ specs.flag_in name.now (view value.now) }
{
    match value.get(name) {
        Some(member) => member.as_bool(),
        None => None,
    }
}

/// The member of this name, if it is a list.
pub fn list_in<'a>(value: &'a Value, name: &str) -> Option<&'a [Value]>
    ensures { option_map (λ list. items_view list.now) result
        ≡ specs.list_in name.now (view value.now) }
{
    match value.get(name) {
        Some(member) => match member {
            Value::Array(list) => Some(list.as_slice()),
            _ => None,
        },
        None => None,
    }
}

/// Whether the number is there, and is n.
pub(crate) fn is_number(n: u64, found: Option<u64>) -> bool
    ensures { result ≡ specs.is_number n found }
{
    match found {
        Some(m) => m == n,
        None => false,
    }
}

/// Whether the text is there, and is this one.
pub(crate) fn is_text(text: &str, found: Option<&str>) -> bool
    ensures { result ≡ specs.is_text text.now (option_copied found.entry) }
{
    match found {
        Some(found) => found == text,
        None => false,
    }
}

/// The JSON value of a line, unless the line is too long for a server's.
pub(crate) fn value_in<'a>(
    alloc: Global,
    scratch: &'a mut Scratch,
    line: &'a [u8],
) -> Result<Option<LineValue<'a>>, AllocError>
    ensures { IfOk result (λ v.
        option_map (λ v. data_of (value_view v)) v ≡ windows.value_in line.now) }
{
    if line.len() > LINE_LIMIT {
        return Ok(None);
    }
    read_borrowed(alloc, scratch, line)
}

/// Whether a line has a time and a kind.
pub(crate) fn is_event(line: &LineValue<'_>) -> bool
    ensures { result ≡ windows.is_event (line_members (data_of (value_view line.now))) }
{
    text_at(line, "time").is_some() && text_at(line, "kind").is_some()
}

/// Whether a line is in the window.
pub(crate) fn is_within(window: &Window<'_>, line: &LineValue<'_>) -> bool
    ensures { result ≡ windows.is_within window.now
        (specs.text_in (codes "time") (data_of (value_view line.now))) }
{
    match text_at(line, "time") {
        Some(time) => window.has(time),
        None => false,
    }
}
