//! The apps that a load removes from a server.

// No contract says what is printed: bench/outside tests it.

use crate::collected::app_named;
use load::AppSources;
use operator::ask_server;
use operator_request::OperatorRequest;
use printing::TextBuffer;
use std::net::{Net, TcpStream};

/// The apps of a server before a load, in its lines; empty if it doesn't reply.
pub(crate) fn apps_shown<R>(rt: &R, port: u16) -> String
where
    R: AllocGlobal + Net<Stream = TcpStream>,
{
    let none = String::new(rt.alloc());
    ask_server(rt, OperatorRequest::Show, port).unwrap_or(none)
}

/// The appid in a line `app APPID releases R slots S`, if no app has it.
pub(crate) fn removed_app<'a>(line: &'a str, apps: &[AppSources]) -> Option<&'a str> {
    let Some((named, _counts)) = line.rsplit_once(" releases ") else {
        return None;
    };
    let Some(appid) = named.strip_prefix("app ") else {
        return None;
    };
    match app_named(apps, appid) {
        Some(_) => None,
        None => Some(appid),
    }
}

/// Adds a line with the apps that a server showed and that are not among the loaded ones, if there
/// are any.
pub(crate) fn push_removed(text: &mut TextBuffer, port: u16, shown: &str, apps: &[AppSources]) {
    let mut is_first = true;
    for line in shown.lines() {
        if let Some(appid) = removed_app(line, apps) {
            if is_first {
                text.push_number("server at ", port as u64, ": apps gone: ");
            } else {
                text.push(", ");
            }
            text.push_printed("", appid, "");
            is_first = false;
        }
    }
    if !is_first {
        text.push("\n");
    }
}
