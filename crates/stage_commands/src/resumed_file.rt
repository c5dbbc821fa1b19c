//! The file of an app that is resumed: what it was before the app's last halt, or that rule with
//! another number in its threshold.

ghost use Rattle.std.specs.Prelude.{◌≡◌, IfOk, is_some};
ghost use Rattle.std.specs.List.{list_any};
ghost use Rattle.stage_servers.specs.Replaced.{file_named};
ghost use Rattle.stage_commands.specs.Resumes as specs;
ghost use Rattle.stage_commands.specs.Resumes.{IsCut, PlansResumeOf, WasBefore};

use crate::app_file::replacement;
use crate::raises::raised_text;
use crate::stop_texts::{HAS_PROGRAM, NOT_HALTED, REPLACED_SINCE};
use load::AppSources;
use manifest::ProgramSource;
use stage_folder::StageFolder;
use stage_records::{ReplacedFile, StagingStep};
use stage_rules::last_halt;
use stage_servers::{Stop, file_named, in_folder, refusal_of};
use std::alloc::Global;

fn has_file(files: &[ReplacedFile], name: &str) -> bool
    ensures { result ≡ is_some (file_named files.now name.now) }
{
    match file_named(files, name) {
        Some(_) => true,
        None => false,
    }
}

fn replaces_after(step: &StagingStep, number: u32, name: &str) -> bool
    ensures { result ≡ specs.replaces_after number name.now step.now }
{
    step.number > number && !step.is_undone && has_file(&step.files, name)
}

// Whether a step after this number that isn't undone replaced the file of this name. What was there
// before the halt is then not what was offered last.
fn is_replaced_after(steps: &[StagingStep], number: u32, name: &str) -> bool
    ensures { result ≡ list_any (specs.replaces_after number name.now) steps.now }
{
    let mut left = steps;
    while let [step, others @ ..] = left {
        if replaces_after(step, number, name) {
            return true;
        }
        left = others;
    }
    false
}

// The bytes that the app's file had before the app's last halt.
#[tactic(auto, using(crate::proofs::Plans::was_before))]
fn bytes_before_halt<'a>(
    alloc: Global,
    steps: &'a [StagingStep],
    app: &AppSources,
) -> Result<&'a [u8], Stop>
    ensures { IfOk result (λ was. WasBefore steps.now app.now was.now) }
{
    let appid = app.entry.appid();
    let Some(step) = last_halt(steps, appid) else {
        return Err(refusal_of(alloc, appid, NOT_HALTED));
    };
    let name = app.entry.source().file();
    let Some(file) = file_named(&step.files, name) else {
        return Err(refusal_of(alloc, appid, NOT_HALTED));
    };
    if is_replaced_after(steps, step.number, name) {
        return Err(refusal_of(alloc, name, REPLACED_SINCE));
    }
    match &file.before {
        Some(bytes) => Ok(bytes.as_slice()),
        None => Err(refusal_of(alloc, appid, NOT_HALTED)),
    }
}

fn has_program(app: &AppSources) -> bool {
    match app.entry.source() {
        ProgramSource::Program(_) => true,
        ProgramSource::Rule(_) => false,
    }
}

// These bytes, or the rule with another number in its threshold.
fn bytes_for(
    alloc: Global,
    app: &AppSources,
    was: &[u8],
    buckets: Option<u32>,
) -> Result<Vec<u8>, Stop>
    ensures { IfOk result (λ text. IsCut app.now.shape was.now text.items buckets) }
{
    let Some(number) = buckets else {
        return Ok(Vec::from_slice(alloc, was)?);
    };
    if has_program(app) {
        return Err(refusal_of(alloc, app.entry.source().file(), HAS_PROGRAM));
    }
    let text = raised_text(alloc, app, was, number)?;
    Ok(Vec::from_slice(alloc, text.as_bytes())?)
}

/// The file that resumes the app, unless it is in place.
#[tactic(auto, using(crate::proofs::Plans::resume_of))]
pub(crate) fn resumed_file_of<F: StageFolder>(
    alloc: Global,
    folder: &F,
    steps: &[StagingStep],
    app: &AppSources,
    buckets: Option<u32>,
) -> Result<Option<ReplacedFile>, Stop>
    ensures { IfOk result (PlansResumeOf (F.files folder.now) steps.now app.now buckets) }
{
    let was = bytes_before_halt(alloc, steps, app)?;
    let text = bytes_for(alloc, app, was, buckets)?;
    let name = app.entry.source().file();
    let before = match folder.read(name) {
        Ok(before) => before,
        Err(fault) => {
            drop(text);
            return Err(in_folder(alloc, name, fault));
        }
    };
    let file = replacement(alloc, name, before, &text)?;
    Ok(file)
}
