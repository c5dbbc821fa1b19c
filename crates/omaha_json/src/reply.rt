//! The text of a reply. Each function writes one object, with its members in the order of their
//! names.

ghost use Rattle.std.specs.Prelude.{◌≡◌, length, IfOk, OnOk};
ghost use Rattle.omaha_json.specs.Tokens.{Adds, tokens_of};
ghost use Rattle.attrs.specs.Moment.{elapsed_days, elapsed_seconds};
ghost use Rattle.omaha_json.specs.Reply as specs;

use crate::app::write_apps;
use crate::found::FoundApp;
use crate::tokens::{write_number, write_tokens};
use attrs::{Elapsed, Moment, SharedFacts};
use json::{Token, Writer};
use std::alloc::AllocError;

/// What precedes the JSON text, so that no script can read it as its own.
const GUARD: &[u8] = b")]}'\n";

/// Enough bytes for most replies of a few apps.
const USUAL_LENGTH: usize = 512;

/// The reply by what was found for each app, written into the buffer `text`, whose old contents are
/// dropped. `None` is an app that isn't in the ruleset; `server` is the server's name.
// open: whether an allocation fails (O5).
pub fn found_text(
    mut text: Vec<u8>,
    server: &str,
    apps: &[SharedFacts],
    found: &[Option<FoundApp<'_>>],
    moment: &Moment,
) -> Result<Vec<u8>, AllocError>
    requires { length found.now ≡ length apps.now }
    ensures { IfOk result (λ text.
        text.items ≡ specs.found_text server.now apps.now found.now moment.now) }
{
    text.clear();
    text.reserve(USUAL_LENGTH)?;
    text.extend_from_slice(GUARD)?;
    let mut writer = Writer::new(text);
    write_reply(&mut writer, server, apps, found, moment)?;
    Ok(writer.into_inner())
}

// The whole value.
fn write_reply(
    writer: &mut Writer,
    server: &str,
    apps: &[SharedFacts],
    found: &[Option<FoundApp<'_>>],
    moment: &Moment,
) -> Result<(), AllocError>
    requires { length found.now ≡ length apps.now }
    ensures { OnOk result (Adds writer.old writer.new
        (tokens_of (specs.reply_value server.now apps.now found.now moment.now))) }
{
    write_tokens(writer, &[Token::BeginObject, Token::Key("response")])?;
    write_response(writer, server, apps, found, moment)?;
    write_tokens(writer, &[Token::EndObject])?;
    Ok(())
}

fn write_response(
    writer: &mut Writer,
    server: &str,
    apps: &[SharedFacts],
    found: &[Option<FoundApp<'_>>],
    moment: &Moment,
) -> Result<(), AllocError>
    requires { length found.now ≡ length apps.now }
    ensures { OnOk result (Adds writer.old writer.new
        (tokens_of (specs.response_value server.now apps.now found.now moment.now))) }
{
    write_tokens(
        writer,
        &[Token::BeginObject, Token::Key("app"), Token::BeginArray],
    )?;
    write_apps(writer, apps, found)?;
    write_tokens(writer, &[Token::Key("daystart")])?;
    write_daystart(writer, moment)?;
    write_tokens(
        writer,
        &[
            Token::Key("protocol"),
            Token::String("3.1"),
            Token::Key("server"),
            Token::String(server),
            Token::EndObject,
        ],
    )?;
    Ok(())
}

// The current day and its current second.
fn write_daystart(writer: &mut Writer, moment: &Moment) -> Result<(), AllocError>
    ensures { OnOk result (Adds writer.old writer.new
        (tokens_of (specs.daystart_value moment.now))) }
{
    let elapsed = elapsed_at(moment);
    write_tokens(writer, &[Token::BeginObject])?;
    write_number(writer, "elapsed_days", elapsed.days as u64)?;
    write_number(writer, "elapsed_seconds", elapsed.seconds as u64)?;
    write_tokens(writer, &[Token::EndObject])?;
    Ok(())
}

// The days and seconds of a moment.
fn elapsed_at(moment: &Moment) -> Elapsed
    ensures days { result.days ≡ elapsed_days moment.now }
    ensures seconds { result.seconds ≡ elapsed_seconds moment.now }
{
    Elapsed::at(*moment)
}
