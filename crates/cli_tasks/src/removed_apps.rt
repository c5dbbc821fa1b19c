//! The apps that a load removes from a server, with `--verbose`.

use cli_words::Task;
use operator::ask_server;
use operator_request::OperatorRequest;
use printing::Printed;
use std::alloc::{AllocError, Global};
use std::fmt::Write;
use std::net::{Net, TcpStream};

/// With `verbose`, the reply to `show` of the server that is to load. It is empty for any other
/// task, and if the server doesn't reply.
// open: the text: `bench/outside`.
pub fn apps_shown<R>(rt: &R, task: &Task<'_>, verbose: bool) -> String
where
    R: AllocGlobal + Net<Stream = TcpStream>,
{
    let none = String::new(rt.alloc());
    match task {
        Task::Send {
            request: OperatorRequest::Load(_),
            port,
        } if verbose => ask_server(rt, OperatorRequest::Show, *port).unwrap_or(none),
        _ => none,
    }
}

/// Prints the apps that a server had before a load, by its reply to `show`, and doesn't have any
/// more. The runtime itself writes the line to standard error. Without such apps there is none.
// open: the line: `bench/outside`.
pub fn print_removed_apps<R>(rt: &R, task: &Task<'_>, before: &str)
where
    R: AllocGlobal + Eprint + Net<Stream = TcpStream>,
{
    if before.is_empty() {
        return;
    }
    let after = apps_shown(rt, task, true);
    let Ok(names) = removed_between(rt.alloc(), before, after.as_str()) else {
        return;
    };
    if !names.is_empty() {
        let _printed = eprintln!(rt; "apps gone: {names}");
    }
}

// The appids of the first reply that the second one lacks, joined by commas.
fn removed_between(alloc: Global, before: &str, after: &str) -> Result<String, AllocError> {
    let mut names = String::new(alloc);
    for line in before.lines() {
        let Some(appid) = appid_of(line) else {
            continue;
        };
        if !has_app(after, appid) {
            let mark = if names.is_empty() { "" } else { ", " };
            let appid = Printed(appid);
            write!(names, "{mark}{appid}")?;
        }
    }
    Ok(names)
}

fn has_app(shown: &str, appid: &str) -> bool {
    for line in shown.lines() {
        if appid_of(line) == Some(appid) {
            return true;
        }
    }
    false
}

// The appid in a line `app APPID releases R slots S`.
fn appid_of(line: &str) -> Option<&str> {
    let (named, _counts) = line.rsplit_once(" releases ")?;
    named.strip_prefix("app ")
}
