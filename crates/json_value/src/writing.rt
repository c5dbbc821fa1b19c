//! Values in a list, and a value as a line.

ghost use Rattle.std.specs.Prelude.{◌≡◌, ◌∷◌, ◌++◌, [], false, IfOk, OnOk, map, string_bytes};
ghost use Rattle.serde_json.specs.View.{view};
ghost use Rattle.serde_json.specs.Written.{has_float};
ghost use Rattle.json_value.specs.Bytes.{json_line};

use serde_json::Value;
use std::alloc::{AllocError, Global};

/// Appends a value to a list.
// open: whether an allocation fails.
pub fn push_value(values: &mut Vec<Value>, value: Value) -> Result<(), AllocError>
    ensures { OnOk result
        (map view values.new.items ≡ map view values.old.items ++ view value ∷ []) }
{
    Ok(values.push(value)?)
}

/// A value without blanks, ended by a line feed; it has no float, whose text no contract specifies.
// open: whether an allocation fails.
#[tactic(auto, unfolding(crate::specs::Bytes::json_line))]
pub fn json_line(alloc: Global, value: &Value) -> Result<String, AllocError>
    requires { has_float (view value.now) ≡ false }
    ensures { IfOk result (λ text. string_bytes text ≡ json_line (view value.now)) }
{
    let mut text = value.to_string(alloc)?;
    text.push_str("\n")?;
    Ok(text)
}
