//! How installs ended, by the events in a line's apps.

ghost use Rattle.std.specs.Prelude.{[], OnOk, if◌then◌else◌};
ghost use Rattle.json.specs.Value.{value_view};
ghost use Rattle.report.specs.Borrowed.{data_of};
ghost use Rattle.report.specs.Events as specs;
ghost use Rattle.report.specs.Names.{listed};
ghost use Rattle.report.specs.Objects.{json_place};
ghost use Rattle.report.specs.Tallies.{Notes};

use crate::borrowed_json::read_borrowed;
use crate::event_names::{event_name_of, is_about};
use crate::log_line::LogApp;
use crate::objects::ObjectReader;
use crate::question::EventQuestion;
use crate::tally::{Tally, note_nothing};
use json::{Scratch, Value};
use std::alloc::{AllocError, Global};

/// Counts the events of apps.
pub(crate) fn note_events(
    alloc: Global,
    scratch: &mut Scratch,
    tally: &mut Tally,
    question: EventQuestion,
    apps: &[LogApp<'_>],
) -> Result<(), AllocError>
    ensures { OnOk result (Notes tally.old tally.new
        (specs.names_of_events question apps.now)) }
{
    let mut left = apps;
    while let [app, rest @ ..] = left {
        note_app_events(alloc, scratch, tally, question, app)?;
        left = rest;
    }
    Ok(())
}

fn note_app_events(
    alloc: Global,
    scratch: &mut Scratch,
    tally: &mut Tally,
    question: EventQuestion,
    app: &LogApp<'_>,
) -> Result<(), AllocError>
    ensures { OnOk result (Notes tally.old tally.new
        (specs.names_of_app question app.now)) }
{
    match (app.appid, app.event) {
        (Some(appid), Some(text)) => {
            note_text(alloc, scratch, tally, question, app, appid, text.as_bytes())
        }
        _ => note_nothing(tally),
    }
}

// Counts the events in a text: each whole object that isn't in another.
fn note_text(
    alloc: Global,
    scratch: &mut Scratch,
    tally: &mut Tally,
    question: EventQuestion,
    app: &LogApp<'_>,
    appid: &str,
    text: &[u8],
) -> Result<(), AllocError>
    ensures { OnOk result (Notes tally.old tally.new
        (specs.names_in_text question app.now appid.now text.now)) }
{
    let mut reader = ObjectReader::new(alloc, text.len())?;
    let mut left = text;
    while let [byte, rest @ ..] = left {
        note_byte(
            alloc,
            scratch,
            tally,
            question,
            app,
            appid,
            &mut reader,
            *byte,
        )?;
        left = rest;
    }
    Ok(())
}

// Reads a byte, and counts the object that it ends.
fn note_byte(
    alloc: Global,
    scratch: &mut Scratch,
    tally: &mut Tally,
    question: EventQuestion,
    app: &LogApp<'_>,
    appid: &str,
    reader: &mut ObjectReader,
    byte: u8,
) -> Result<(), AllocError>
    ensures { OnOk result (specs.NotesByte question app.now appid.now byte
        (json_place reader.old) tally.old (json_place reader.new) tally.new) }
{
    let closes = reader.read(byte)?;
    note_closed(
        alloc,
        scratch,
        tally,
        question,
        app,
        appid,
        closes,
        reader.object(),
    )?;
    Ok(())
}

// Counts an object, if it is closed.
fn note_closed(
    alloc: Global,
    scratch: &mut Scratch,
    tally: &mut Tally,
    question: EventQuestion,
    app: &LogApp<'_>,
    appid: &str,
    closes: bool,
    object: &[u8],
) -> Result<(), AllocError>
    ensures { OnOk result (Notes tally.old tally.new (if closes
        then listed (specs.object_name question app.now appid.now object.now)
        else [])) }
{
    if !closes {
        return note_nothing(tally);
    }
    match read_borrowed(alloc, scratch, object)? {
        Some(event) => {
            let noted = note_event(alloc, tally, question, app, appid, &event);
            drop(event);
            noted
        }
        None => note_nothing(tally),
    }
}

// Counts an event, if the question is about it.
fn note_event(
    alloc: Global,
    tally: &mut Tally,
    question: EventQuestion,
    app: &LogApp<'_>,
    appid: &str,
    event: &Value<'_>,
) -> Result<(), AllocError>
    ensures { OnOk result (Notes tally.old tally.new
        (listed (specs.event_name question app.now appid.now (data_of (value_view event.now))))) }
{
    if !is_about(question, event) {
        return note_nothing(tally);
    }
    let name = event_name_of(alloc, question, app, appid, event)?;
    tally.note(name)
}
