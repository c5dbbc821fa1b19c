//! The end of a halt at the servers: once a server has loaded files that lift the halts of apps, it
//! is sent `resume APPID` for each of these that it may halt.

// No contract says what a server does, or what is printed: bench/outside tests it.

ghost use Rattle.std.specs.Prelude.{◌≡◌, map, option_copied, option_map, string_bytes};
ghost use Rattle.stage_servers.specs.Halted as specs;

use crate::outcome::Lines;
use crate::server_halts::push_done;
use operator::{RequestFault, ask_server};
use operator_request::OperatorRequest;
use printing::TextBuffer;
use stage_rules::is_named;
use std::net::{Net, TcpStream};

// Has the server at a port offer an app again. Returns whether it does. An older server has halted
// nothing without a load.
fn resume_app_at<R>(rt: &R, port: u16, appid: &str, lines: &mut Lines) -> bool
where
    R: AllocGlobal + Net<Stream = TcpStream>,
{
    match ask_server(rt, OperatorRequest::Resume(appid), port) {
        Ok(reply) => {
            push_done(
                &mut lines.text,
                port,
                reply.as_str(),
                appid,
                " is offered again\n",
            );
            true
        }
        Err(RequestFault::Refused(words)) if words.starts_with("B1") => true,
        Err(fault) => {
            push_still_halted(&mut lines.stderr, port, appid, fault);
            false
        }
    }
}

// Whether a server may halt an app: it lists it, or isn't known to list any.
fn may_halt(listed: Option<&[String]>, appid: &str) -> bool
    ensures { result ≡ specs.may_halt
        (option_map (map string_bytes) (option_copied listed.entry)) appid.now }
{
    match listed {
        None => true,
        Some(named) => is_named(named, appid),
    }
}

/// Has the server at a port offer these apps again, as their files say. Returns whether it does. It
/// is sent nothing of an app that it is known not to halt. An older server halts none without a
/// load.
pub(crate) fn resume_at<R>(
    rt: &R,
    port: u16,
    halted: Option<&[String]>,
    appids: &[String],
    lines: &mut Lines,
) -> bool
where
    R: AllocGlobal + Net<Stream = TcpStream>,
{
    let mut all = true;
    for appid in appids {
        if may_halt(halted, appid.as_str()) {
            all = resume_app_at(rt, port, appid.as_str(), lines) && all;
        }
    }
    all
}

/// Has the server at a port offer an app again, of which only a release is halted by now, unless
/// the app was halted there before. Returns whether it does what it is to do.
pub(crate) fn offer_others_at<R>(rt: &R, port: u16, appid: &str, lines: &mut Lines) -> bool
where
    R: AllocGlobal + Net<Stream = TcpStream>,
{
    if lines.offered_ports().contains(&port) {
        return resume_app_at(rt, port, appid, lines);
    }
    lines.text.push_number("server at ", port as u64, ": ");
    lines
        .text
        .push_printed("if ", appid, " was halted there before, ");
    lines
        .text
        .push_printed("it stays so: rollout resume ", appid, " ends that\n");
    true
}

// Adds why a server may still halt an app, and what to do.
fn push_still_halted(text: &mut TextBuffer, port: u16, appid: &str, fault: RequestFault) {
    text.push_number("server at ", port as u64, ": refused ");
    text.push_value(&fault);
    text.push_printed(": ", appid, " may stay halted there: ");
    text.push_printed("call rollout resume ", appid, "\n");
    drop(fault);
}
