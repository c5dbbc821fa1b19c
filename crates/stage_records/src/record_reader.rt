//! Reads a step's record.

ghost use Rattle.std.specs.Prelude.{◌≡◌, IfOk, codes, option_copied, option_map};
ghost use Rattle.serde_json.specs.Find.{get};
ghost use Rattle.serde_json.specs.View.{items_view, view};
ghost use Rattle.stage_records.specs.Records as specs;

use crate::step::{ReplacedFile, StagingStep, StepAction};
use attrs::Text;
use hex::FromHexError;
use json_value::read_json;
use serde_json::Value;
use std::alloc::{AllocError, Global};

// ---- members

fn text_in<'a>(value: &'a Value, name: &str) -> Option<&'a str>
    ensures { option_copied result ≡ specs.text_in name.now (view value.now) }
{
    match value.get(name) {
        Some(member) => member.as_str(),
        None => None,
    }
}

fn owned_in(alloc: Global, value: &Value, name: &str) -> Result<Option<Text>, AllocError>
    ensures { IfOk result (λ text. text ≡ specs.text_in name.now (view value.now)) }
{
    match text_in(value, name) {
        Some(text) => Ok(Some(Text::new(String::from_str(alloc, text)?))),
        None => Ok(None),
    }
}

fn number_in(value: &Value, name: &str) -> Option<u64>
    ensures { result ≡ specs.number_in name.now (view value.now) }
{
    match value.get(name) {
        Some(member) => member.as_u64(),
        None => None,
    }
}

fn short_in(value: &Value, name: &str) -> Option<u32>
    ensures { result ≡ specs.short_in name.now (view value.now) }
{
    match number_in(value, name) {
        Some(number) if number < 1 << 32 => Some(number as u32),
        _ => None,
    }
}

fn flag_in(value: &Value, name: &str) -> Option<bool>
    ensures { result ≡ specs.flag_in name.now (view value.now) }
{
    match value.get(name) {
        Some(member) => member.as_bool(),
        None => None,
    }
}

// ---- files

fn bytes_of(alloc: Global, value: &Value) -> Result<Option<Vec<u8>>, AllocError>
    ensures { IfOk result (λ bytes.
        option_map (λ b. b.items) bytes ≡ specs.bytes_of (view value.now)) }
{
    let Some(text) = value.as_str() else {
        return Ok(None);
    };
    match hex::decode(alloc, text.as_bytes()) {
        Ok(bytes) => Ok(Some(bytes)),
        Err(FromHexError::OutOfMemory) => Err(AllocError),
        Err(_) => Ok(None),
    }
}

// What a file had before: nothing known is `None`, no file is `Some(None)`.
fn before_of(alloc: Global, value: &Value) -> Result<Option<Option<Vec<u8>>>, AllocError>
    ensures { IfOk result (λ before. option_map (option_map (λ b. b.items)) before
        ≡ specs.before_of (view value.now)) }
{
    if value.is_null() {
        return Ok(Some(None));
    }
    match bytes_of(alloc, value)? {
        Some(bytes) => Ok(Some(Some(bytes))),
        None => Ok(None),
    }
}

fn file_of(alloc: Global, value: &Value) -> Result<Option<ReplacedFile>, AllocError>
    ensures { IfOk result (λ file. file ≡ specs.file_of (view value.now)) }
{
    let Some(name) = owned_in(alloc, value, "name")? else {
        return Ok(None);
    };
    let Some(before) = value.get("before") else {
        return Ok(None);
    };
    let Some(before) = before_of(alloc, before)? else {
        return Ok(None);
    };
    let Some(after) = value.get("after") else {
        return Ok(None);
    };
    let Some(after) = bytes_of(alloc, after)? else {
        return Ok(None);
    };
    Ok(Some(ReplacedFile {
        name,
        before,
        after,
    }))
}

fn files_of(alloc: Global, values: &[Value]) -> Result<Option<Vec<ReplacedFile>>, AllocError>
    ensures { IfOk result (λ files. option_map (λ v. v.items) files
        ≡ specs.files_of (items_view values.now)) }
{
    let mut files = Vec::with_capacity(alloc, values.len())?;
    let mut left = values;
    while let [value, others @ ..] = left {
        let Some(file) = file_of(alloc, value)? else {
            return Ok(None);
        };
        files.push(file)?;
        left = others;
    }
    Ok(Some(files))
}

// ---- a step

fn release_of(alloc: Global, value: &Value) -> Result<Option<StepAction>, AllocError>
    ensures { IfOk result (λ action. action ≡ specs.release_of (view value.now)) }
{
    let Some(appid) = owned_in(alloc, value, "appid")? else {
        return Ok(None);
    };
    match owned_in(alloc, value, "version")? {
        Some(version) => Ok(Some(StepAction::HaltRelease { appid, version })),
        None => Ok(None),
    }
}

fn raise_of(alloc: Global, value: &Value) -> Result<Option<StepAction>, AllocError>
    ensures { IfOk result (λ action. action ≡ specs.raise_of (view value.now)) }
{
    let Some(appid) = owned_in(alloc, value, "appid")? else {
        return Ok(None);
    };
    match short_in(value, "buckets") {
        Some(buckets) => Ok(Some(StepAction::Raise { appid, buckets })),
        None => Ok(None),
    }
}

// A share: `Some(None)` without the member, and `None` if that isn't such a number.
fn share_in(value: &Value, name: &str) -> Option<Option<u32>>
    ensures { result ≡ specs.share_in name.now (view value.now) }
{
    let share = short_in(value, name);
    if value.get(name).is_none() {
        return Some(None);
    }
    match share {
        Some(number) => Some(Some(number)),
        None => None,
    }
}

fn resume_of(alloc: Global, value: &Value) -> Result<Option<StepAction>, AllocError>
    ensures { IfOk result (λ action. action ≡ specs.resume_of (view value.now)) }
{
    let Some(appid) = owned_in(alloc, value, "appid")? else {
        return Ok(None);
    };
    match share_in(value, "buckets") {
        Some(buckets) => Ok(Some(StepAction::Resume { appid, buckets })),
        None => Ok(None),
    }
}

fn action_of(alloc: Global, value: &Value) -> Result<Option<StepAction>, AllocError>
    ensures { IfOk result (λ action. action ≡ specs.action_of (view value.now)) }
{
    if let Some(appid) = owned_in(alloc, value, "halt")? {
        return Ok(Some(StepAction::Halt { appid }));
    }
    if let Some(release) = value.get("halt_release")
        && let Some(action) = release_of(alloc, release)?
    {
        return Ok(Some(action));
    }
    if let Some(raise) = value.get("raise")
        && let Some(action) = raise_of(alloc, raise)?
    {
        return Ok(Some(action));
    }
    if let Some(resume) = value.get("resume")
        && let Some(action) = resume_of(alloc, resume)?
    {
        return Ok(Some(action));
    }
    match owned_in(alloc, value, "put")? {
        Some(manifest) => Ok(Some(StepAction::Put { manifest })),
        None => Ok(None),
    }
}

// Whether a record is of a version that is read here. One of a later version may mean something
// else, and isn't read.
fn is_known_version(value: &Value) -> bool
    ensures { result ≡ specs.is_known_version (get (codes "version") (view value.now)) }
{
    match value.get("version") {
        Some(version) => version.as_u64() == Some(2),
        None => true,
    }
}

// The members besides the texts, the action and the files.
#[derive(Clone, Copy)]
struct Facts {
    number: u32,
    time: u64,
    is_undone: bool,
}

fn facts_of(value: &Value) -> Option<Facts>
    ensures { result ≡ specs.facts_of (view value.now) }
{
    let number = short_in(value, "number")?;
    let time = number_in(value, "time")?;
    let is_undone = flag_in(value, "undone")?;
    Some(Facts {
        number,
        time,
        is_undone,
    })
}

fn action_in(alloc: Global, value: &Value) -> Result<Option<StepAction>, AllocError>
    ensures { IfOk result (λ action. action ≡ specs.action_in (view value.now)) }
{
    match value.get("action") {
        Some(action) => action_of(alloc, action),
        None => Ok(None),
    }
}

fn files_in(alloc: Global, value: &Value) -> Result<Option<Vec<ReplacedFile>>, AllocError>
    ensures { IfOk result (λ files.
        option_map (λ v. v.items) files ≡ specs.files_in (view value.now)) }
{
    match value.get("files") {
        Some(files) => match files {
            Value::Array(values) => files_of(alloc, values.as_slice()),
            _ => Ok(None),
        },
        None => Ok(None),
    }
}

fn step_of(alloc: Global, value: &Value) -> Result<Option<StagingStep>, AllocError>
    ensures { IfOk result (λ step. step ≡ specs.step_of (view value.now)) }
{
    if !is_known_version(value) {
        return Ok(None);
    }
    let Some(facts) = facts_of(value) else {
        return Ok(None);
    };
    let user = owned_in(alloc, value, "user")?;
    let because = owned_in(alloc, value, "because")?;
    let Some(action) = action_in(alloc, value)? else {
        return Ok(None);
    };
    let Some(files) = files_in(alloc, value)? else {
        return Ok(None);
    };
    Ok(Some(StagingStep {
        number: facts.number,
        time: facts.time,
        user,
        because,
        action,
        files,
        is_undone: facts.is_undone,
    }))
}

/// The step that the bytes of a record spell; none if they spell no step.
// open: whether an allocation fails, its one error.
pub fn read_step(alloc: Global, bytes: &[u8]) -> Result<Option<StagingStep>, AllocError>
    ensures { IfOk result (λ step. step ≡ specs.step_in bytes.now) }
{
    match read_json(alloc, bytes)? {
        Some(value) => step_of(alloc, &value),
        None => Ok(None),
    }
}
