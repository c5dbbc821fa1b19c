//! One server loads the manifest in place.

// No contract says what is printed or noted: bench/outside tests it.

use crate::collected::digest_text;
use crate::load_notes::{LoadNote, with_note};
use crate::options::StageCall;
use crate::outcome::Lines;
use crate::removed_apps::{apps_shown, push_removed};
use crate::server_state::halted_in;
use crate::serves::{push_halted, server_at};
use load::CollectedManifest;
use operator::{RequestFault, ask_server};
use operator_request::OperatorRequest;
use printing::TextBuffer;
use std::alloc::{AllocError, Global};
use std::net::{Net, TcpStream};

/// Adds the line of a server that did not do what it was to do, and how to mend it.
pub(crate) fn push_fault(text: &mut TextBuffer, port: u16, fault: RequestFault, manifest: &str) {
    text.push_number("server at ", port as u64, ": refused ");
    text.push_value(&fault);
    match &fault {
        RequestFault::Connect => {
            text.push_number(
                ": no server replies, is ",
                port as u64,
                " its operator's port?\n",
            )
        }
        RequestFault::Refused(words) if words.starts_with("M7") => {
            text.push(": the arrays don't fit the server's: its log has the cause\n")
        }
        RequestFault::Refused(_) => text.push_printed(": call rollout check ", manifest, "\n"),
        RequestFault::Word => text.push(": rename the folder, its path can't be sent\n"),
        RequestFault::Memory => text.push(": call it again\n"),
    }
    drop(fault);
}

/// A server that loaded the manifest.
#[derive(Drop)]
pub(crate) struct Loaded {
    reply: String,
    /// The apps that it halts by its own word since then; None if it doesn't reply `state`.
    pub(crate) halted: Option<Vec<String>>,
}

// The apps that the server at a port halts now, by its state.
fn halted_at<R>(rt: &R, port: u16) -> Option<Vec<String>>
where
    R: AllocGlobal + Net<Stream = TcpStream>,
{
    match ask_server(rt, OperatorRequest::State, port) {
        Ok(reply) => halted_in(rt.alloc(), reply.as_str()).ok(),
        Err(fault) => {
            drop(fault);
            None
        }
    }
}

// Adds these apps, or else those that the server halted when it was surveyed.
fn push_halts<R, D>(
    call: &StageCall<'_, R, D>,
    port: u16,
    halted: Option<&[String]>,
    text: &mut TextBuffer,
) {
    if let Some(halted) = halted {
        push_halted(text, halted);
    } else if let Some(server) = server_at(call.servers, port) {
        push_halted(text, &server.halted);
    }
}

// Has the server at a port load the manifest, if it does.
fn load_at<R, D>(call: &StageCall<'_, R, D>, port: u16, lines: &mut Lines) -> Option<Loaded>
where
    R: AllocGlobal + Net<Stream = TcpStream>,
{
    match ask_server(call.rt, OperatorRequest::Load(call.manifest), port) {
        Ok(reply) => {
            lines.text.push_number("server at ", port as u64, ": ");
            lines.text.push(reply.as_str().trim_end());
            let halted = halted_at(call.rt, port);
            push_halts(call, port, halted.as_deref(), &mut lines.text);
            lines.text.push("\n");
            Some(Loaded { reply, halted })
        }
        Err(fault) => {
            push_fault(&mut lines.stderr, port, fault, call.manifest);
            None
        }
    }
}

// The notes after a load, by what the server replied to it.
fn notes_after(
    alloc: Global,
    port: u16,
    collected: &CollectedManifest,
    reply: &str,
    notes: &str,
) -> Result<String, AllocError> {
    let Ok(digest) = digest_text(alloc, collected) else {
        return Err(AllocError);
    };
    let note = LoadNote {
        generation: reply.trim_end(),
        digest: digest.as_str(),
    };
    with_note(alloc, notes, port, note)
}

/// Has the server at a port load the manifest, adds which apps it no longer has, and notes this
/// load.
pub(crate) fn load_noted<R, D>(
    call: &StageCall<'_, R, D>,
    port: u16,
    collected: Option<&CollectedManifest>,
    notes: &mut String,
    lines: &mut Lines,
) -> Option<Loaded>
where
    R: AllocGlobal + Net<Stream = TcpStream>,
{
    let shown = apps_shown(call.rt, port);
    let loaded = load_at(call, port, lines)?;
    if let Some(collected) = collected {
        let (alloc, apps) = (call.rt.alloc(), &collected.sources.apps);
        push_removed(&mut lines.stderr, port, shown.as_str(), apps);
        match notes_after(
            alloc,
            port,
            collected,
            loaded.reply.as_str(),
            notes.as_str(),
        ) {
            Ok(text) => *notes = text,
            Err(_) => lines.stderr.leave_out(),
        }
    }
    Some(loaded)
}
