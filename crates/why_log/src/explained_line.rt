//! The explanation of one line.

ghost use Rattle.std.specs.Prelude.{All, IfErr, IfOk, string_bytes};
ghost use Rattle.dry_run.specs.Meanings.{IsMeantApp};
ghost use Rattle.dry_run.specs.OnCounters.{IsUnassignable};
ghost use Rattle.json_value.specs.Bytes.{json_of};
ghost use Rattle.serde_json.specs.View.{view};
ghost use Rattle.why_log.specs.Explained as specs;
ghost use Rattle.why_log.specs.Requests.{request_of};

use crate::explained_apps::explain_apps;
use crate::finding::FoundLine;
use crate::line_head::{LineNotes, line_notes};
use crate::line_request::{LineRequest, request_in};
use crate::served::LoggedGeneration;
use bounded_files::ResourceFault;
use cell_assignments::CellAssignment;
use cells::PlainPass;
use dry_run::{DryRunFault, assigned_counters};
use json_value::read_json;
use load::JudgedManifest;
use serde_json::Value;
use std::alloc::{AllocError, Global};

/// The lines of a found line: those of its request, on the counters of `reply_on_counters`. The
/// manifest's digest is `digest`. Returns B7 if the manifest lacks a cell of `words`.
#[tactic(auto, using(crate::proofs::Whole::line_is))]
pub(crate) fn explain_line(
    alloc: Global,
    manifest: &JudgedManifest,
    digest: &str,
    served: &[CellAssignment<'_>],
    words: &[CellAssignment<'_>],
    line: &FoundLine,
) -> Result<String, DryRunFault>
    requires { All IsMeantApp manifest.now.apps.items }
    ensures lines { IfOk result (λ text. specs.ExplainsLine manifest.now served.now words.now
        line.now (string_bytes text)) }
    ensures fault { IfErr result
        (IsUnassignable manifest.now.directory served.now words.now) }
{
    let mut counters = assigned_counters(alloc, manifest.directory.arrays(), served, words)?;
    match line_text(
        alloc,
        manifest,
        digest,
        &line.served,
        line.bytes.as_slice(),
        &mut counters,
    ) {
        Ok(text) => Ok(text),
        Err(_) => Err(DryRunFault::Resource(ResourceFault::Memory)),
    }
}

fn line_text(
    alloc: Global,
    manifest: &JudgedManifest,
    digest: &str,
    served: &LoggedGeneration,
    line: &[u8],
    counters: &mut PlainPass,
) -> Result<String, AllocError>
    requires { All IsMeantApp manifest.now.apps.items }
    ensures { IfOk result (λ text. specs.ExplainsJson manifest.now counters.old
        (json_of line.now) (string_bytes text)) }
{
    match read_json(alloc, line)? {
        Some(event) => {
            let text = event_text(alloc, manifest, digest, served, &event, counters);
            drop(event);
            text
        }
        None => Ok(String::new(alloc)),
    }
}

fn event_text(
    alloc: Global,
    manifest: &JudgedManifest,
    digest: &str,
    served: &LoggedGeneration,
    event: &Value,
    counters: &mut PlainPass,
) -> Result<String, AllocError>
    requires { All IsMeantApp manifest.now.apps.items }
    ensures { IfOk result (λ text. specs.ExplainsEvent manifest.now counters.old (view event.now)
        (string_bytes text)) }
{
    match request_in(alloc, event)? {
        Some(request) => {
            let notes = line_notes(alloc, event, digest, served);
            let text = request_text(alloc, manifest, &request, notes, counters);
            drop(request);
            text
        }
        None => Ok(String::new(alloc)),
    }
}

// The lines of a request, after its first ones.
#[tactic(auto, using(crate::proofs::Whole::request_is))]
fn request_text(
    alloc: Global,
    manifest: &JudgedManifest,
    request: &LineRequest,
    notes: Result<LineNotes, AllocError>,
    counters: &mut PlainPass,
) -> Result<String, AllocError>
    requires { All IsMeantApp manifest.now.apps.items }
    ensures { IfOk result (λ text. specs.ExplainsRequest manifest.now counters.old
        (request_of request.now) (string_bytes text)) }
{
    let LineNotes { head, apps: notes } = notes?;
    let mut text = head;
    let lines = explain_apps(
        alloc,
        manifest,
        &request.moment,
        request.apps.as_slice(),
        notes.as_slice(),
        counters,
    )?;
    text.push_str(lines.as_str())?;
    Ok(text)
}
