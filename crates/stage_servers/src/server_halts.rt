//! A halt at the servers, which needs no file: each gets `halt APPID` before the folder is opened.

// No contract says what a server does, or what is printed: bench/outside tests it.

use crate::halted_app::halted_appid;
use crate::options::StageOptions;
use crate::outcome::Lines;
use crate::server_state::halted_in;
use operator::{RequestFault, ask_server};
use operator_request::OperatorRequest;
use printing::TextBuffer;
use stage_records::StageAction;
use std::alloc::AllocError;
use std::net::{Net, TcpStream};

// Adds why a server didn't halt an app.
fn push_no_halt(text: &mut TextBuffer, port: u16, appid: &str, fault: RequestFault) {
    text.push_number("server at ", port as u64, ": refused ");
    text.push_value(&fault);
    match &fault {
        RequestFault::Refused(words) if words.starts_with("B1") => {
            text.push_printed(": it is older, and halts ", appid, " by a load alone\n")
        }
        RequestFault::Refused(words) if words.starts_with("B8") => {
            text.push_printed(": it has no app ", appid, ", is it another server?\n")
        }
        _ => text.push_printed(": ", appid, " isn't halted there yet\n"),
    }
    drop(fault);
}

/// Adds what a server replied to a halt or to its end.
pub(crate) fn push_done(text: &mut TextBuffer, port: u16, reply: &str, appid: &str, end: &str) {
    text.push_number("server at ", port as u64, ": ");
    text.push_printed("", reply.trim_end(), ", ");
    text.push_printed("", appid, end);
}

// Has the server at a port halt an app. Returns whether it did.
fn halt_at<R>(rt: &R, port: u16, appid: &str, lines: &mut Lines) -> bool
where
    R: AllocGlobal + Net<Stream = TcpStream>,
{
    match ask_server(rt, OperatorRequest::Halt(appid), port) {
        Ok(reply) => {
            push_done(&mut lines.text, port, reply.as_str(), appid, " is halted\n");
            true
        }
        Err(fault) => {
            if matches!(&fault, RequestFault::Connect) {
                lines.note_lost_reply();
            }
            push_no_halt(&mut lines.stderr, port, appid, fault);
            false
        }
    }
}

// Whether the server at a port may halt an app already: it says so, or nothing.
fn is_halted_at<R>(rt: &R, port: u16, appid: &str) -> Result<bool, AllocError>
where
    R: AllocGlobal + Net<Stream = TcpStream>,
{
    let Ok(reply) = ask_server(rt, OperatorRequest::State, port) else {
        return Ok(true);
    };
    let halted = halted_in(rt.alloc(), reply.as_str())?;
    let mut is_halted = false;
    for name in &halted {
        is_halted = is_halted || name.as_str() == appid;
    }
    Ok(is_halted)
}

// Whether the app of an action is to be offered again at a port once its release is halted in the
// files, so that a halt that was there before stays. If that isn't known, it isn't offered again.
fn is_offered_later<R>(rt: &R, port: u16, action: &StageAction<'_>) -> bool
where
    R: AllocGlobal + Net<Stream = TcpStream>,
{
    match *action {
        StageAction::HaltRelease { appid, .. } => matches!(
            is_halted_at(rt, port, appid),
            Ok(false)
        ),
        _ => true,
    }
}

/// Has each server halt the app of a halt, whatever the others do, unless no server is to load. No
/// file is read for it. The lines then know at which ports the app is halted, and at which it is to
/// be offered again: not if it was, or may have been, halted before that of a release.
// open: what a server does, and what is printed: bench/outside.
pub fn halt_at_servers<R>(
    rt: &R,
    action: &StageAction<'_>,
    options: &StageOptions<'_>,
    lines: &mut Lines,
)
where
    R: AllocGlobal + Net<Stream = TcpStream>,
{
    let Some(appid) = halted_appid(action) else {
        return;
    };
    if options.no_load || options.dry_run {
        return;
    }
    for port in options.ports() {
        let is_offered = is_offered_later(rt, *port, action);
        if halt_at(rt, *port, appid, lines) {
            lines.note_halt(*port, is_offered);
        }
    }
}

/// Has the servers that halted the app of a halt do so again, once the folder is locked, or it
/// couldn't be: a call that was at work until then may have ended it. A server that still halts it
/// changes nothing.
// open: what a server does, and what is printed: bench/outside.
pub fn halt_again<R>(rt: &R, action: &StageAction<'_>, lines: &Lines)
where
    R: AllocGlobal + Net<Stream = TcpStream>,
{
    let Some(appid) = halted_appid(action) else {
        return;
    };
    for port in lines.halted_ports() {
        let _again = ask_server(rt, OperatorRequest::Halt(appid), *port);
    }
}
