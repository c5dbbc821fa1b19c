//! The contents of a JSON value, moved out of it: so a text of a request isn't copied. A value of
//! another kind counts as absent.

ghost use Rattle.std.specs.Prelude.{◌≡◌, Some, option_map};
ghost use Rattle.serde_json.specs.Data.{object};
ghost use Rattle.serde_json.specs.Find.{get, as_object, as_str};
ghost use Rattle.serde_json.specs.View.{view, members_view};
ghost use Rattle.omaha_json.specs.Request as specs;

use attrs::Text;
use serde_json::{Map, Value};

/// The text, if the value is one.
pub(crate) fn text_of(value: Value) -> Option<Text>
    ensures { result ≡ as_str (view value) }
{
    match value {
        Value::String(text) => Some(Text::new(text)),
        _ => None,
    }
}

/// The members, if it is an object.
pub(crate) fn members_of(value: Value) -> Option<Map<String, Value>>
    ensures { option_map (λ m. members_view m.entries) result ≡ as_object (view value) }
{
    match value {
        Value::Object(members) => Some(members),
        _ => None,
    }
}

/// The member of this name, if it is an object with one.
#[tactic(auto, using(crate::proofs::Named::member_found, crate::proofs::Named::member_missing))]
pub(crate) fn member_of(value: Value, name: &str) -> Option<Value>
    ensures { option_map view result ≡ get name.now (view value) }
{
    match members_of(value) {
        Some(mut members) => members.remove(name),
        None => None,
    }
}

/// The members of the member of this name, if both are objects.
#[tactic(auto, using(crate::proofs::Named::objects))]
pub(crate) fn object_in(value: Value, name: &str) -> Option<Map<String, Value>>
    ensures { option_map (λ m. object (members_view m.entries)) result
        ≡ specs.object_in name.now (view value) }
{
    match member_of(value, name) {
        Some(member) => members_of(member),
        None => None,
    }
}

/// The text of the member of this name, if it is an object with one.
pub(crate) fn text_in(value: Value, name: &str) -> Option<Text>
    ensures { result ≡ specs.text_in name.now (view value) }
{
    match member_of(value, name) {
        Some(member) => text_of(member),
        None => None,
    }
}

/// Whether it isn't null.
pub(crate) fn is_value(value: &Value) -> bool
    ensures { result ≡ specs.is_value (Some (view value.now)) }
{
    !value.is_null()
}
