//! The members of a value that borrows its texts. A member of another kind counts as missing.

ghost use Rattle.std.specs.Prelude.{◌≡◌, option_and_then, option_map};
ghost use Rattle.std.specs.Option.{option_copied};
ghost use Rattle.json.specs.Find.{as_array, as_number};
ghost use Rattle.json.specs.Value.{value_view, items_view};
ghost use Rattle.report.specs.Borrowed.{data_of, items_data};
ghost use Rattle.report.specs.LogEvents as specs;
ghost use Rattle.serde_json.specs.Find.{as_u64, get};
ghost use Rattle.serde_json.specs.Read.{number_of};

use crate::json_range::whole_number;
use json::Value;

/// The member of this name.
#[tactic(auto, using(crate::proofs::Borrowed::found, crate::proofs::Borrowed::not_found))]
pub fn member_at<'v, 'a>(value: &'v Value<'a>, name: &str) -> Option<&'v Value<'a>>
    ensures { option_map (λ v. data_of (value_view v.now)) result
        ≡ get name.now (data_of (value_view value.now)) }
{
    match value.get(name) {
        Some(member) => Some(member),
        None => None,
    }
}

/// The member of this name, if it is a text.
#[tactic(auto, using(crate::proofs::Borrowed::text_found, crate::proofs::Borrowed::missing))]
pub fn text_at<'a>(value: &Value<'a>, name: &str) -> Option<&'a str>
    ensures { option_copied result ≡ specs.text_in name.now (data_of (value_view value.now)) }
{
    match value.get(name) {
        Some(member) => member.as_str(),
        None => None,
    }
}

/// The member of this name, if it is a number of 64 bits that is written only in digits.
#[tactic(auto, using(crate::proofs::Borrowed::number_found, crate::proofs::Borrowed::no_number))]
pub fn number_at(value: &Value<'_>, name: &str) -> Option<u64>
    ensures { result ≡ specs.number_in name.now (data_of (value_view value.now)) }
{
    match value.get(name) {
        Some(member) => whole_number_of(member),
        None => None,
    }
}

fn whole_number_of(member: &Value<'_>) -> Option<u64>
    ensures { result ≡ option_and_then (λ s. option_and_then as_u64 (number_of s))
        (as_number (value_view member.now)) }
{
    match member.as_number() {
        Some(text) => whole_number(text),
        None => None,
    }
}

/// The member of this name, if it is `true` or `false`.
#[tactic(auto, using(crate::proofs::Borrowed::flag_found, crate::proofs::Borrowed::missing))]
pub fn flag_at(value: &Value<'_>, name: &str) -> Option<bool>
    ensures { result ≡ specs.flag_in name.now (data_of (value_view value.now)) }
{
    match value.get(name) {
        Some(member) => member.as_bool(),
        None => None,
    }
}

/// The member of this name, if it is a list.
#[tactic(auto, using(crate::proofs::Borrowed::list_found, crate::proofs::Borrowed::missing))]
pub fn list_at<'v, 'a>(value: &'v Value<'a>, name: &str) -> Option<&'v [Value<'a>]>
    ensures { option_map (λ list. items_data (items_view list.now)) result
        ≡ specs.list_in name.now (data_of (value_view value.now)) }
{
    match value.get(name) {
        Some(member) => items_of(member),
        None => None,
    }
}

fn items_of<'v, 'a>(member: &'v Value<'a>) -> Option<&'v [Value<'a>]>
    ensures { option_map (λ list. items_data (items_view list.now)) result
        ≡ option_map items_data (as_array (value_view member.now)) }
{
    match member {
        Value::Array(list) => Some(list.as_slice()),
        _ => None,
    }
}
