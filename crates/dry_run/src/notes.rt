//! The lines `ignored: ..`: one for each member of a request, or of an app, that is present and
//! doesn't fit. No clause says which words; rows compare them. The body's JSON is read once more
//! for them, because the observers of a request's apps promise nothing.

ghost use Rattle.std.specs.Prelude.{◌≡◌, option_map};
ghost use Rattle.serde_json.specs.View.{items_view, view};
ghost use Rattle.dry_run.specs.Members as specs;

use crate::wanted::{MemberKind, fits};
use json_value::read_json;
use printing::TextBuffer;
use serde_json::Value;
use std::alloc::{AllocError, Global};

/// The lines of a request itself, and of each of its apps, in order.
#[derive(Drop)]
pub(crate) struct Notes {
    pub request: String,
    pub apps: Vec<String>,
}

/// The lines of a body's members.
pub(crate) fn notes_in(alloc: Global, body: &[u8]) -> Result<Notes, AllocError> {
    match read_json(alloc, body)? {
        Some(top) => {
            let notes = notes_of(alloc, top.get("request"));
            drop(top);
            notes
        }
        None => notes_of(alloc, None),
    }
}

/// The lines of the app at a place; nothing past the end.
pub(crate) fn note_at(notes: &[String], place: usize) -> &str {
    match notes.get(place) {
        Some(note) => note.as_str(),
        None => "",
    }
}

fn notes_of(alloc: Global, request: Option<&Value>) -> Result<Notes, AllocError> {
    let Some(request) = request else {
        return Ok(Notes {
            request: String::new(alloc),
            apps: Vec::new(alloc),
        });
    };
    let note = request_note(alloc, request)?;
    let apps = app_notes(alloc, request)?;
    Ok(Notes {
        request: note,
        apps,
    })
}

fn request_note(alloc: Global, request: &Value) -> Result<String, AllocError> {
    let os = request.get("os");
    let platform = platform_written(os);
    let mut note = TextBuffer::new(alloc);
    push_member(&mut note, "", request, "requestid", MemberKind::Text);
    push_member(&mut note, "", request, "sessionid", MemberKind::Text);
    push_note(&mut note, "", "os", MemberKind::Object, os);
    push_note(
        &mut note,
        "",
        "os.platform",
        MemberKind::Attribute,
        platform,
    );
    note.finish()
}

fn platform_written(os: Option<&Value>) -> Option<&Value>
    ensures { option_map (λ v. view v.now) result
        ≡ specs.platform_written (option_map (λ v. view v.now) os.entry) }
{
    match os {
        Some(os) => os.get("platform"),
        None => None,
    }
}

fn app_notes(alloc: Global, request: &Value) -> Result<Vec<String>, AllocError> {
    let mut notes = Vec::new(alloc);
    let Some(apps) = apps_written(request) else {
        return Ok(notes);
    };
    for app in apps {
        let note = app_note(alloc, app)?;
        notes.push(note)?;
    }
    Ok(notes)
}

// The list of its apps.
fn apps_written(request: &Value) -> Option<&Vec<Value>>
    ensures { option_map (λ apps. items_view apps.now.items) result
        ≡ specs.apps_written (view request.now) }
{
    match request.get("app") {
        Some(apps) => apps.as_array(),
        None => None,
    }
}

fn app_note(alloc: Global, app: &Value) -> Result<String, AllocError> {
    let mut note = TextBuffer::new(alloc);
    push_member(&mut note, "  ", app, "version", MemberKind::Version);
    push_member(&mut note, "  ", app, "brand", MemberKind::Attribute);
    push_member(&mut note, "  ", app, "ap", MemberKind::Attribute);
    push_member(&mut note, "  ", app, "lang", MemberKind::Attribute);
    push_member(&mut note, "  ", app, "cohort", MemberKind::Attribute);
    push_member(&mut note, "  ", app, "installdate", MemberKind::Day);
    push_member(&mut note, "  ", app, "updatecheck", MemberKind::Value);
    push_member(&mut note, "  ", app, "ping", MemberKind::Value);
    push_member(&mut note, "  ", app, "event", MemberKind::Value);
    note.finish()
}

fn push_member(note: &mut TextBuffer, indent: &str, of: &Value, name: &str, wanted: MemberKind) {
    push_note(note, indent, name, wanted, of.get(name));
}

// Adds the line of a member, if it is present and doesn't fit.
fn push_note(
    note: &mut TextBuffer,
    indent: &str,
    name: &str,
    wanted: MemberKind,
    member: Option<&Value>,
) {
    let Some(value) = member else {
        return;
    };
    if fits(wanted, value) {
        return;
    }
    match value.as_str() {
        Some(text) => push_text_note(note, indent, name, wanted, text.len()),
        None => push_kind_note(note, indent, name, wanted, kind_of(value)),
    }
}

// The line of a text with this number of bytes.
fn push_text_note(
    note: &mut TextBuffer,
    indent: &str,
    name: &str,
    wanted: MemberKind,
    bytes: usize,
) {
    match wanted {
        MemberKind::Version => {
            note.push_all(&[indent, name, " has "]);
            note.push_value(&bytes);
            note.push(" bytes: as an attribute it is the empty text\n");
        }
        MemberKind::Attribute => {
            note.push_all(&[indent, "ignored: ", name, " has "]);
            note.push_value(&bytes);
            note.push(" bytes, where at most 1024 are wanted\n");
        }
        _ => push_kind_note(note, indent, name, wanted, "a text"),
    }
}

// The line of a member that is of another kind.
fn push_kind_note(note: &mut TextBuffer, indent: &str, name: &str, wanted: MemberKind, kind: &str) {
    note.push_all(&[indent, "ignored: ", name, " is ", kind]);
    match wanted {
        MemberKind::Text | MemberKind::Attribute | MemberKind::Version => {
            note.push(", where a text is wanted\n");
        }
        MemberKind::Day => {
            note.push(", where a whole number from 0 to 4294967294 is wanted\n");
        }
        MemberKind::Object => note.push(", where an object is wanted\n"),
        MemberKind::Value => note.push(", which counts as absent\n"),
    }
}

// The kind of a value, in words.
fn kind_of(value: &Value) -> &'static str {
    match value {
        Value::Null => "null",
        Value::Bool(_) => "a truth value",
        Value::Number(_) => "a number",
        Value::String(_) => "a text",
        Value::Array(_) => "a list",
        Value::Object(_) => "an object",
    }
}
