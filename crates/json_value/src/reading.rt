//! The JSON value of some bytes.

ghost use Rattle.std.specs.Prelude.{◌≡◌, IfOk, option_map};
ghost use Rattle.serde_json.specs.View.{view};
ghost use Rattle.json_value.specs.Bytes.{json_of};

use serde_json::Value;
use std::alloc::{AllocError, Global};

/// The JSON value of these bytes. There is none if they aren't UTF-8 or not JSON, nest deeper than
/// 127 levels, or have a number too large for a float.
// open: whether an allocation fails, its one error.
#[tactic(auto, using(crate::proofs::Bytes::value_found, crate::proofs::Bytes::value_missing))]
pub fn read_json(alloc: Global, bytes: &[u8]) -> Result<Option<Value>, AllocError>
    ensures { IfOk result (λ value. option_map view value ≡ json_of bytes.now) }
{
    match Value::from_slice(alloc, bytes) {
        Ok(value) => Ok(Some(value)),
        Err(e) if e.is_memory() => Err(AllocError),
        Err(_) => Ok(None),
    }
}
