//! The JSON value of some bytes. Its texts are borrowed from them; those with escapes are copied
//! into a scratch.

ghost use Rattle.std.specs.Prelude.{◌≡◌, IfOk, option_map};
ghost use Rattle.json.specs.Value.{value_view};
ghost use Rattle.json_value.specs.Bytes.{json_of};
ghost use Rattle.report.specs.Borrowed.{data_of};
ghost use Rattle.serde_json.specs.Read.{read};

use crate::json_range::is_in_range;
use json::{Error, Reader, Scratch, Value};
use std::alloc::{AllocError, Global};

/// How deep arrays and objects may nest.
const MAX_DEPTH: usize = 127;

/// The JSON value of these bytes, by the rules of `json_value`. The scratch has the texts with
/// escapes.
// open: whether an allocation fails, its one error.
#[tactic(auto, using(crate::proofs::Bytes::utf8_value, crate::proofs::Bytes::no_utf8))]
pub fn read_borrowed<'a>(
    alloc: Global,
    scratch: &'a mut Scratch,
    bytes: &'a [u8],
) -> Result<Option<Value<'a>>, AllocError>
    ensures { IfOk result (λ value.
        option_map (λ v. data_of (value_view v)) value ≡ json_of bytes.now) }
{
    match std::str::from_utf8(bytes) {
        Ok(text) => read_text(alloc, scratch, text),
        Err(_) => Ok(None),
    }
}

fn read_text<'a>(
    alloc: Global,
    scratch: &'a mut Scratch,
    text: &'a str,
) -> Result<Option<Value<'a>>, AllocError>
    ensures { IfOk result (λ value.
        option_map (λ v. data_of (value_view v)) value ≡ read text.now) }
{
    let mut reader = Reader::new(text, scratch)?;
    match Value::read(alloc, &mut reader, MAX_DEPTH) {
        Ok(value) => {
            if reader.next().is_some() {
                return Ok(None);
            }
            if !is_in_range(&value) {
                return Ok(None);
            }
            Ok(Some(value))
        }
        Err(Error::OutOfMemory) => Err(AllocError),
        Err(_) => Ok(None),
    }
}

/// Memory for the texts with escapes of a line, and of one event in it at a time. The next line
/// uses it again.
#[derive(Drop)]
pub(crate) struct LineMemory {
    pub(crate) line: Scratch,
    pub(crate) event: Scratch,
}

impl LineMemory {
    /// Memory that no line has used.
    pub(crate) fn new(alloc: Global) -> LineMemory {
        LineMemory {
            line: Scratch::new(alloc),
            event: Scratch::new(alloc),
        }
    }
}
