//! What servers serve, compared with the manifest in place.

// No contract says what is printed: bench/outside tests it.

use crate::collected::digest_text;
use crate::drift::push_serves;
use crate::load_notes::{note_of, read_notes};
use crate::options::StageCall;
use crate::outcome::Lines;
use crate::quota_lines::push_quotas;
use crate::served::{InPlace, Served, are_both};
use crate::server_loads::push_fault;
use crate::serves::{Serves, Surveyed, push_halted, server_at};
use crate::surveying::survey;
use bounded_files::Disk;
use cell_assignments::read_assignments;
use load::{AppSources, CollectedManifest, judge_app};
use operator::{RequestFault, ask_server};
use operator_request::OperatorRequest;
use printing::TextBuffer;
use stage_folder::StageFolder;
use stage_records::StageAction;
use std::alloc::{AllocError, Global};
use std::net::{Net, TcpStream};

// The lines by which a server shows the apps of a manifest; None if a load would refuse it.
fn shown_apps(alloc: Global, apps: &[AppSources]) -> Result<Option<String>, AllocError> {
    let mut text = TextBuffer::new(alloc);
    for app in apps {
        let Ok(judged) = judge_app(alloc, app) else {
            return Ok(None);
        };
        text.push("app ");
        text.push(app.entry.appid());
        text.push_number(" releases ", app.entry.releases().len() as u64, "");
        text.push_number(" slots ", judged.program.len() as u64, "\n");
        drop(judged);
    }
    Ok(Some(text.finish()?))
}

// What is in place, for a comparison with what servers serve.
fn in_place_of(alloc: Global, collected: &CollectedManifest) -> Result<InPlace, AllocError> {
    let digest = digest_text(alloc, collected)?;
    let shown = shown_apps(alloc, &collected.sources.apps)?;
    Ok(InPlace { shown, digest })
}

// Adds what a server says that it serves, and which apps it halts. Returns whether that is what is
// in place.
fn push_known(text: &mut TextBuffer, server: &Surveyed) -> bool {
    let is_in_place = matches!(&server.serves, Serves::InPlace);
    push_serves(text, &server.serves);
    if !is_in_place {
        text.push(", not what is in place: load it");
    }
    push_halted(text, &server.halted);
    text.push("\n");
    is_in_place
}

// Adds the generation of a server, and what it serves, as far as that is known. Returns whether it
// is what is in place, if that is known.
fn push_shown(
    text: &mut TextBuffer,
    port: u16,
    reply: &str,
    notes: &str,
    in_place: &InPlace,
    server: Option<&Surveyed>,
) -> Option<bool> {
    let (generation, shown) = reply.split_once('\n').unwrap_or((reply, ""));
    text.push_number("server at ", port as u64, ": ");
    text.push_printed("", generation, ", ");
    if let Some(server) = server
        && !matches!(&server.serves, Serves::Unknown)
    {
        return Some(push_known(text, server));
    }
    let served = Served::of(in_place, generation, shown, note_of(notes, port));
    text.push(served.words());
    text.push("\n");
    served.is_in_place()
}

// The lines of a server's counters that have a quota.
fn push_counters<R>(
    rt: &R,
    port: u16,
    collected: &CollectedManifest,
    text: &mut TextBuffer,
) -> Result<(), RequestFault>
where
    R: AllocGlobal + Net<Stream = TcpStream>,
{
    let reply = match ask_server(rt, OperatorRequest::Cells, port) {
        Ok(reply) => reply,
        Err(fault) => return Err(fault),
    };
    let Ok(cells) = read_assignments(rt.alloc(), reply.as_str()) else {
        return Err(RequestFault::Memory);
    };
    push_quotas(text, port, &collected.sources.arrays, &cells);
    Ok(())
}

// What the status compares each server with.
#[derive(Clone, Copy)]
struct Known<'a> {
    collected: &'a CollectedManifest,
    notes: &'a str,
    in_place: &'a InPlace,
    servers: &'a [Surveyed],
}

// What a server serves, and its counters.
fn push_server<R>(
    rt: &R,
    port: u16,
    known: &Known<'_>,
    text: &mut TextBuffer,
) -> Result<Option<bool>, RequestFault>
where
    R: AllocGlobal + Net<Stream = TcpStream>,
{
    let reply = match ask_server(rt, OperatorRequest::Show, port) {
        Ok(reply) => reply,
        Err(fault) => return Err(fault),
    };
    let server = server_at(known.servers, port);
    let served = push_shown(
        text,
        port,
        reply.as_str(),
        known.notes,
        known.in_place,
        server,
    );
    drop(reply);
    match push_counters(rt, port, known.collected, text) {
        Ok(()) => Ok(served),
        Err(fault) => Err(fault),
    }
}

// Adds what each server serves. Returns whether all serve what is in place, if that is known.
fn push_each<R, D>(call: &StageCall<'_, R, D>, known: &Known<'_>, lines: &mut Lines) -> Option<bool>
where
    R: AllocGlobal + Net<Stream = TcpStream>,
{
    let mut all = Some(true);
    for port in call.options.ports() {
        match push_server(call.rt, *port, known, &mut lines.text) {
            Ok(is_in_place) => all = are_both(all, is_in_place),
            Err(fault) => {
                push_fault(&mut lines.stderr, *port, fault, call.manifest);
                all = Some(false);
            }
        }
    }
    all
}

// The same, once it is known what each server says that it serves.
fn push_surveyed<R, D>(
    call: &StageCall<'_, R, D>,
    collected: &CollectedManifest,
    notes: &str,
    servers: &[Surveyed],
    lines: &mut Lines,
) -> Option<bool>
where
    R: AllocGlobal + Net<Stream = TcpStream>,
{
    match in_place_of(call.rt.alloc(), collected) {
        Ok(in_place) => {
            let known = Known {
                collected,
                notes,
                in_place: &in_place,
                servers,
            };
            push_each(call, &known, lines)
        }
        Err(_) => {
            lines.stderr.leave_out();
            None
        }
    }
}

/// Adds what each server serves. Returns whether all serve what is in place, if that is known.
pub(crate) fn push_servers<R, D, F>(
    call: &StageCall<'_, R, D>,
    folder: &F,
    collected: &CollectedManifest,
    lines: &mut Lines,
) -> Option<bool>
where
    R: AllocGlobal + Net<Stream = TcpStream>,
    D: Disk,
    F: StageFolder,
{
    if call.options.no_load {
        return Some(true);
    }
    let Ok(notes) = read_notes(call.rt.alloc(), folder) else {
        lines.stderr.leave_out();
        return None;
    };
    match survey(call, folder, &StageAction::Status) {
        Ok(servers) => push_surveyed(call, collected, notes.as_str(), &servers, lines),
        Err(_) => {
            lines.stderr.leave_out();
            None
        }
    }
}
