//! One line of a script, and its event.

ghost use Rattle.std.specs.Prelude.{◌≡◌, ◌==◌, Err, IfOk, Some, None, map};
ghost use Rattle.std.specs.List.{slice_split, before_first, after_first};
ghost use Rattle.event_script.specs.Script as specs;

use crate::number::{bucket_number, step_count, worker_number};
use attrs::{Bucket, Text};
use std::alloc::{AllocError, Global};

/// The content of a line. Workers are numbered from 0.
#[derive(Drop)]
pub enum EventLine {
    /// The worker starts a run for an app.
    Start {
        worker: u32,
        appid: Text,
        bucket: Bucket,
        version: Option<Text>,
    },
    /// The worker's run executes one instruction, or `count` of them, 1 to 4097. The reply to a
    /// line with a count has the number of those that were executed, also if one was refused.
    Step {
        worker: u32,
        count: Option<u32>,
    },
    /// The worker gives the choice of its run.
    Finish {
        worker: u32,
    },
    /// The ruleset of this manifest becomes the newest.
    Swap {
        manifest: Text,
    },
}

/// Why a line has no event.
#[derive(Clone, Copy, PartialEq, Eq)]
pub enum LineFault {
    Malformed,
    Memory,
}

/// The event of a line.
pub fn read_event(alloc: Global, line: &str) -> Result<EventLine, LineFault>
    ensures event_is { IfOk result (λ e. specs.event_of line.now ≡ Some e) }
    ensures malformed { result ≡ Err LineFault.Malformed → specs.event_of line.now ≡ None }
{
    let (word, rest) = halves(line);
    if word == "swap" {
        return swap(alloc, rest);
    }
    match fields(alloc, line) {
        Ok(fields) => read_fields(alloc, &fields),
        Err(_) => Err(LineFault::Memory),
    }
}

// The text before the first blank, and the text after it.
fn halves<'a>(line: &'a str) -> (&'a str, &'a str)
    ensures word { result.0.now ≡ before_first (λ b. b == 32) line.now }
    ensures rest { result.1.now ≡ after_first (λ b. b == 32) line.now }
{
    line.split_once(' ').unwrap_or((line, ""))
}

fn fields<'a>(alloc: Global, line: &'a str) -> Result<Vec<&'a str>, AllocError>
    ensures { IfOk result (λ v. map (λ field. field.now) v.items
        ≡ slice_split (λ b. b == 32) line.now) }
{
    line.split(' ').collect(alloc)
}

fn read_fields(alloc: Global, fields: &[&str]) -> Result<EventLine, LineFault>
    ensures event_is { IfOk result (λ e.
        specs.of_fields (map (λ field. field.now) fields.now) ≡ Some e) }
    ensures malformed { result ≡ Err LineFault.Malformed
        → specs.of_fields (map (λ field. field.now) fields.now) ≡ None }
{
    match fields.len() {
        2 => with_worker(fields[0], fields[1]),
        3 => steps(fields[0], fields[1], fields[2]),
        5 if fields[0] == "start" => start(alloc, fields[1], fields[2], fields[3], fields[4]),
        _ => Err(LineFault::Malformed),
    }
}

fn with_worker(word: &str, worker: &str) -> Result<EventLine, LineFault>
    ensures event_is { IfOk result (λ e. specs.with_worker word.now worker.now ≡ Some e) }
    ensures malformed { result ≡ Err LineFault.Malformed
        → specs.with_worker word.now worker.now ≡ None }
{
    let Some(worker) = worker_number(worker) else {
        return Err(LineFault::Malformed);
    };
    match word {
        "step" => Ok(EventLine::Step {
            worker,
            count: None,
        }),
        "finish" => Ok(EventLine::Finish { worker }),
        _ => Err(LineFault::Malformed),
    }
}

fn steps(word: &str, worker: &str, count: &str) -> Result<EventLine, LineFault>
    ensures event_is { IfOk result (λ e. specs.steps word.now worker.now count.now ≡ Some e) }
    ensures malformed { result ≡ Err LineFault.Malformed
        → specs.steps word.now worker.now count.now ≡ None }
{
    if word != "step" {
        return Err(LineFault::Malformed);
    }
    match (worker_number(worker), step_count(count)) {
        (Some(worker), Some(count)) => Ok(EventLine::Step {
            worker,
            count: Some(count),
        }),
        _ => Err(LineFault::Malformed),
    }
}

fn start(
    alloc: Global,
    worker: &str,
    appid: &str,
    bucket: &str,
    version: &str,
) -> Result<EventLine, LineFault>
    ensures event_is { IfOk result (λ e.
        specs.start worker.now appid.now bucket.now version.now ≡ Some e) }
    ensures malformed { result ≡ Err LineFault.Malformed
        → specs.start worker.now appid.now bucket.now version.now ≡ None }
{
    let (Some(worker), Some(bucket)) = (worker_number(worker), bucket_number(bucket)) else {
        return Err(LineFault::Malformed);
    };
    let appid = text(alloc, appid)?;
    let version = version_text(alloc, version)?;
    Ok(EventLine::Start {
        worker,
        appid,
        bucket,
        version,
    })
}

fn version_text(alloc: Global, field: &str) -> Result<Option<Text>, LineFault>
    ensures event_is { IfOk result (λ v. specs.version_text field.now ≡ Some v) }
    ensures malformed { result ≡ Err LineFault.Malformed → specs.version_text field.now ≡ None }
{
    if field == "-" {
        return Ok(None);
    }
    Ok(Some(text(alloc, field)?))
}

fn swap(alloc: Global, rest: &str) -> Result<EventLine, LineFault>
    ensures event_is { IfOk result (λ e. specs.swap rest.now ≡ Some e) }
    ensures malformed { result ≡ Err LineFault.Malformed → specs.swap rest.now ≡ None }
{
    let manifest = text(alloc, rest)?;
    Ok(EventLine::Swap { manifest })
}

// A field that isn't empty.
fn text(alloc: Global, field: &str) -> Result<Text, LineFault>
    ensures event_is { IfOk result (λ t. specs.text field.now ≡ Some t) }
    ensures malformed { result ≡ Err LineFault.Malformed → specs.text field.now ≡ None }
{
    if field.is_empty() {
        return Err(LineFault::Malformed);
    }
    match String::from_str(alloc, field) {
        Ok(text) => Ok(Text::new(text)),
        Err(_) => Err(LineFault::Memory),
    }
}
