//! The first lines of an explained request: when it came, from whom, and how it was answered. No
//! clause says which words; rows compare them.

use crate::app_notes::{AppNote, app_note};
use crate::line_request::listed_in;
use crate::served::LoggedGeneration;
use printing::TextBuffer;
use report::{flag_in, number_in, text_in};
use serde_json::Value;
use std::alloc::{AllocError, Global};

/// What is printed of a line besides the reasons.
#[derive(Drop)]
pub(crate) struct LineNotes {
    /// The first lines of the request.
    pub(crate) head: String,
    /// What the line says of each app, in order.
    pub(crate) apps: Vec<AppNote>,
}

/// What is printed of a line besides the reasons. `digest` is that of the manifest by which it is
/// explained, and `served` what was served when it was written.
pub(crate) fn line_notes(
    alloc: Global,
    line: &Value,
    digest: &str,
    served: &LoggedGeneration,
) -> Result<LineNotes, AllocError> {
    let apps = app_notes(alloc, line, served)?;
    let head = head_lines(alloc, line, digest, served)?;
    Ok(LineNotes { head, apps })
}

fn head_lines(
    alloc: Global,
    line: &Value,
    digest: &str,
    served: &LoggedGeneration,
) -> Result<String, AllocError> {
    let mut text = TextBuffer::new(alloc);
    text.push_printed("", text_in(line, "time").unwrap_or(""), "");
    text.push_printed(" from ", sender_of(line), ": ");
    push_reply(&mut text, line);
    text.push("\n");
    if number_in(line, "generation").is_some() {
        push_manifest(&mut text, digest, served.digest());
    }
    if line.get("apps").is_none() {
        text.push("  the line has no app\n");
    }
    if let Some(count) = number_in(line, "left_out") {
        text.push_number("  further apps that aren't in the line: ", count, "\n");
    }
    text.finish()
}

// The address that the proxy named, or that of the other end.
fn sender_of(line: &Value) -> &str {
    match text_in(line, "forwarded") {
        Some(forwarded) => forwarded,
        None => text_in(line, "peer").unwrap_or("an unknown address"),
    }
}

// The status, the refusal, the generation, and whether the client sent no id.
fn push_reply(text: &mut TextBuffer, line: &Value) {
    match number_in(line, "status") {
        Some(status) => text.push_number("status ", status, ""),
        None => text.push("no whole reply"),
    }
    if let Some(refusal) = text_in(line, "refusal") {
        text.push_printed(", refused ", refusal, "");
    }
    if let Some(cause) = text_in(line, "cause") {
        text.push_printed(", ", cause, "");
    }
    if let Some(generation) = number_in(line, "generation") {
        text.push_number(", generation ", generation, "");
    }
    if flag_in(line, "id") == Some(false) {
        text.push(", without an id");
    }
}

// Whether the server had this manifest.
fn push_manifest(text: &mut TextBuffer, digest: &str, logged: Option<&str>) {
    match logged {
        Some(logged) if logged == digest => {}
        Some(logged) => text.push_printed(
            "  the server had another manifest, digest ",
            logged,
            "\n",
        ),
        None => text.push("  the log doesn't have the digest of the server's manifest then\n"),
    }
}

// What the line says of each app, in order.
fn app_notes(
    alloc: Global,
    line: &Value,
    served: &LoggedGeneration,
) -> Result<Vec<AppNote>, AllocError> {
    let is_short = number_in(line, "more_left_out").is_some();
    let apps = listed_in(line);
    let mut notes = Vec::with_capacity(alloc, apps.len())?;
    for app in apps {
        let note = app_note(alloc, app, is_short, served)?;
        notes.push(note)?;
    }
    Ok(notes)
}
