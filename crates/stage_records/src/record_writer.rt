//! Writes a step's record: its text is made without a contract, and then it is read back.

ghost use Rattle.std.specs.Prelude.{◌≡◌, IfOk, IfSome, Some, string_bytes, true};
ghost use Rattle.stage_records.specs.Records.{step_in};

use crate::record_reader::read_step;
use crate::same_step::is_same_step;
use crate::step::{ReplacedFile, StagingStep, StepAction};
use attrs::Text;
use json_value::ObjectBuilder;
use serde_json::Value;
use std::alloc::{AllocError, Global};

/// The version of the records that are written.
const VERSION: u64 = 2;

fn bytes_value(alloc: Global, bytes: Option<&[u8]>) -> Result<Value, AllocError> {
    match bytes {
        Some(bytes) => Ok(Value::String(hex::encode(alloc, bytes)?)),
        None => Ok(Value::Null),
    }
}

fn file_value(alloc: Global, file: &ReplacedFile) -> Result<Value, AllocError> {
    let mut object = ObjectBuilder::new(alloc);
    object.put("after", bytes_value(alloc, Some(file.after.as_slice())));
    object.put("before", bytes_value(alloc, file.before.as_deref()));
    object.put_text("name", file.name.as_str());
    object.finish()
}

fn file_values(alloc: Global, files: &[ReplacedFile]) -> Result<Vec<Value>, AllocError> {
    let mut values = Vec::with_capacity(alloc, files.len())?;
    for file in files {
        values.push(file_value(alloc, file)?)?;
    }
    Ok(values)
}

fn share_value(alloc: Global, appid: &str, buckets: Option<u32>) -> Result<Value, AllocError> {
    let mut object = ObjectBuilder::new(alloc);
    object.put_text("appid", appid);
    if let Some(buckets) = buckets {
        object.put_number("buckets", buckets as u64);
    }
    object.finish()
}

fn release_value(alloc: Global, appid: &str, version: &str) -> Result<Value, AllocError> {
    let mut object = ObjectBuilder::new(alloc);
    object.put_text("appid", appid);
    object.put_text("version", version);
    object.finish()
}

fn action_value(alloc: Global, action: &StepAction) -> Result<Value, AllocError> {
    let mut object = ObjectBuilder::new(alloc);
    match action {
        StepAction::Halt { appid } => object.put_text("halt", appid.as_str()),
        StepAction::HaltRelease { appid, version } => object.put(
            "halt_release",
            release_value(alloc, appid.as_str(), version.as_str()),
        ),
        StepAction::Raise { appid, buckets } => {
            object.put("raise", share_value(alloc, appid.as_str(), Some(*buckets)))
        }
        StepAction::Resume { appid, buckets } => {
            object.put("resume", share_value(alloc, appid.as_str(), *buckets))
        }
        StepAction::Put { manifest } => object.put_text("put", manifest.as_str()),
    }
    object.finish()
}

fn put_some(object: &mut ObjectBuilder, name: &str, text: &Option<Text>) {
    if let Some(text) = text {
        object.put_text(name, text.as_str());
    }
}

fn step_value(alloc: Global, step: &StagingStep) -> Result<Value, AllocError> {
    let mut object = ObjectBuilder::new(alloc);
    object.put("action", action_value(alloc, &step.action));
    put_some(&mut object, "because", &step.because);
    object.put_list("files", file_values(alloc, &step.files));
    object.put_number("number", step.number as u64);
    object.put_number("time", step.time);
    object.put_bool("undone", step.is_undone);
    put_some(&mut object, "user", &step.user);
    object.put_number("version", VERSION);
    object.finish()
}

fn text_of(alloc: Global, step: &StagingStep) -> Result<String, AllocError> {
    let value = step_value(alloc, step)?;
    let printed = value.to_string(alloc);
    drop(value);
    let mut text = printed?;
    text.push_str("\n")?;
    Ok(text)
}

// Whether a text is the record of this step.
fn reads_back(alloc: Global, text: &str, step: &StagingStep) -> Result<bool, AllocError>
    ensures { IfOk result (λ ok. ok ≡ true → step_in text.now ≡ Some step.now) }
{
    match read_step(alloc, text.as_bytes())? {
        Some(other) => Ok(is_same_step(step, &other)),
        None => Ok(false),
    }
}

/// The record of a step: a line of JSON, which `read_step` reads as this step. There is none if it
/// can't be read back.
// open: whether an allocation fails, its one error, and whether there is none.
pub fn step_record(alloc: Global, step: &StagingStep) -> Result<Option<String>, AllocError>
    ensures { IfOk result (λ o. IfSome o (λ text. step_in (string_bytes text) ≡ Some step.now)) }
{
    let text = text_of(alloc, step)?;
    if reads_back(alloc, text.as_str(), step)? {
        return Ok(Some(text));
    }
    Ok(None)
}
