//! Why the apps of a request get what they get.

ghost use Rattle.std.specs.Prelude.{◌≡◌, All, IfOk, IfErr, string_bytes};
ghost use Rattle.attrs.specs.Facts.{attributes_of};
ghost use Rattle.dry_run.specs.Meanings.{IsMeantApp};
ghost use Rattle.dry_run.specs.OnCounters.{IsUnanswered};
ghost use Rattle.dry_run.specs.Why as specs;

use crate::app_lines::{no_request_app, unknown_app};
use crate::dry_run_fault::DryRunFault;
use crate::explained_app::{AppReasons, app_reasons};
use crate::notes::{Notes, note_at, notes_in};
use crate::on_counters::assigned_counters;
use crate::why_files::OpenedWhy;
use answering::NoObserver;
use attrs::{AppFacts, Attrs, Moment, RequestFacts, SharedFacts};
use cell_assignments::CellAssignment;
use cells::PlainPass;
use load::JudgedManifest;
use omaha_json::{OmahaFault, Request, read_request};
use std::alloc::{AllocError, Global};

/// Why the apps of a body's request get what they get, at a moment, on the counters of
/// `reply_on_counters`. First come the request's members that count as absent; then for each app: a
/// first line, the tests of its rule, the offer, and the members that count as absent. A version
/// may count as absent only as an attribute. Returns B7 if the manifest lacks a cell of `words`, or
/// a value doesn't fit; then O1 to O4. Returns B4 or O5 if an allocation fails.
///
/// An app without a rule is explained as a program.
// open: whether an allocation fails (B4, O5).
#[tactic(auto, using(crate::proofs::Assigning::why_text_is, crate::proofs::Assigning::unread))]
pub fn why_on_counters(
    alloc: Global,
    why: &OpenedWhy,
    moment: &Moment,
    served: &[CellAssignment<'_>],
    words: &[CellAssignment<'_>],
) -> Result<String, DryRunFault>
    requires { All IsMeantApp why.now.manifest.apps.items }
    ensures shown_text { IfOk result (λ text.
        specs.IsWhyText why.now moment.now served.now words.now (string_bytes text)) }
    ensures fault { IfErr result
        (IsUnanswered why.now.manifest.directory why.now.body.items served.now words.now) }
{
    let mut counters = assigned_counters(alloc, why.manifest.directory.arrays(), served, words)?;
    let request = match read_request(alloc, &why.body, &mut NoObserver) {
        Ok(request) => request,
        Err(fault) => return Err(DryRunFault::Omaha(fault)),
    };
    let Ok(notes) = notes_in(alloc, &why.body) else {
        return Err(DryRunFault::Omaha(OmahaFault::Memory));
    };
    match explain_request(alloc, &why.manifest, &request, moment, notes, &mut counters) {
        Ok(text) => Ok(text),
        Err(_) => Err(DryRunFault::Omaha(OmahaFault::Memory)),
    }
}

// The lines of the request itself, followed by those of its apps.
fn explain_request(
    alloc: Global,
    manifest: &JudgedManifest,
    request: &Request,
    moment: &Moment,
    notes: Notes,
    counters: &mut PlainPass,
) -> Result<String, AllocError>
    requires { All IsMeantApp manifest.now.apps.items }
    ensures { IfOk result (λ text. specs.ExplainsRequest manifest.now request.now.facts moment.now
        counters.old request.now.apps counters.new (string_bytes text)) }
{
    let Notes {
        request: front,
        apps,
    } = notes;
    let lines = explain_apps(alloc, manifest, request, moment, &apps, counters)?;
    let mut text = front;
    text.push_str(lines.as_str())?;
    Ok(text)
}

#[tactic(auto, using(crate::proofs::Explaining::none_yet, crate::proofs::Explaining::all_shown))]
fn explain_apps(
    alloc: Global,
    manifest: &JudgedManifest,
    request: &Request,
    moment: &Moment,
    notes: &[String],
    counters: &mut PlainPass,
) -> Result<String, AllocError>
    requires { All IsMeantApp manifest.now.apps.items }
    ensures { IfOk result (λ text. specs.ExplainsAll manifest.now request.now.facts moment.now
        counters.old request.now.apps counters.new (string_bytes text)) }
{
    let mut text = String::new(alloc);
    let facts = request.facts();
    let apps = request.apps();
    let mut place = 0;
    for app in apps {
        let note = note_at(notes, place);
        let Ok(lines) = explain_app(alloc, manifest, facts, moment, app, note, counters) else {
            return Err(AllocError);
        };
        let Ok(()) = text.push_str(lines.as_str()) else {
            return Err(AllocError);
        };
        place += 1;
    }
    Ok(text)
}

fn explain_app(
    alloc: Global,
    manifest: &JudgedManifest,
    facts: &RequestFacts,
    moment: &Moment,
    app: &SharedFacts,
    note: &str,
    counters: &mut PlainPass,
) -> Result<String, AllocError>
    requires { All IsMeantApp manifest.now.apps.items }
    ensures { IfOk result (λ text. specs.ExplainsOne manifest.now facts.now moment.now app.now
        counters.old counters.new (string_bytes text)) }
{
    let appid = app.appid();
    let stated = app.facts();
    let Some(known) = manifest.app(appid) else {
        return unknown_app(alloc, appid, note);
    };
    let Ok(attrs) = attrs_of(alloc, stated, facts, moment) else {
        return Err(AllocError);
    };
    if !stated.updatecheck {
        return no_request_app(alloc, stated, attrs.context(), note);
    }
    let _named = known.sources.entry.appid();
    let AppReasons {
        choice: _choice,
        text,
    } = app_reasons(alloc, known, stated, attrs, note, counters)?;
    Ok(text)
}

// The attributes of an app at a moment.
fn attrs_of(
    alloc: Global,
    app: &AppFacts,
    facts: &RequestFacts,
    moment: &Moment,
) -> Result<Attrs, AllocError>
    ensures { IfOk result (λ a. a ≡ attributes_of app.now facts.now moment.now) }
{
    match Attrs::of(alloc, app, facts, *moment) {
        Ok(attrs) => Ok(attrs),
        Err(_) => Err(AllocError),
    }
}
