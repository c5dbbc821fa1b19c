//! The apps of a reply: the object of each, with its members in the order of their names.

ghost use Rattle.std.specs.Prelude.{◌≡◌, length, OnOk};
ghost use Rattle.omaha_json.specs.Tokens.{Adds, tokens_of, item_tokens, member_tokens};
ghost use Rattle.omaha_json.specs.Reply as specs;

use crate::cohort::{as_text, cohort_text};
use crate::found::FoundApp;
use crate::tokens::write_tokens;
use crate::update::{release_at, write_status, write_update};
use attrs::SharedFacts;
use json::{Token, Writer};
use releases::Release;
use std::alloc::AllocError;

/// The apps of a request, each with what the ruleset has for it, and the bracket that closes their
/// list.
pub fn write_apps(
    writer: &mut Writer,
    apps: &[SharedFacts],
    found: &[Option<FoundApp<'_>>],
) -> Result<(), AllocError>
    requires { length found.now ≡ length apps.now }
    ensures { OnOk result (Adds writer.old writer.new
        (item_tokens (specs.app_values apps.now found.now))) }
{
    for i in 0..apps.len() {
        write_app(writer, &apps[i], &found[i])?;
    }
    writer.end_array()
}

fn write_app(
    writer: &mut Writer,
    app: &SharedFacts,
    found: &Option<FoundApp<'_>>,
) -> Result<(), AllocError>
    ensures { OnOk result (Adds writer.old writer.new
        (tokens_of (specs.app_value app.now found.now))) }
{
    match found {
        Some(found) => write_listed(writer, app, found),
        None => write_unknown(writer, app.appid()),
    }
}

// An app that isn't in the ruleset.
fn write_unknown(writer: &mut Writer, appid: &str) -> Result<(), AllocError>
    ensures { OnOk result (Adds writer.old writer.new
        (tokens_of (specs.unknown_value appid.now))) }
{
    write_tokens(
        writer,
        &[
            Token::BeginObject,
            Token::Key("appid"),
            Token::String(appid),
            Token::Key("status"),
            Token::String("error-unknownApplication"),
            Token::EndObject,
        ],
    )
}

// An app that is in the ruleset.
fn write_listed(
    writer: &mut Writer,
    app: &SharedFacts,
    found: &FoundApp<'_>,
) -> Result<(), AllocError>
    ensures { OnOk result (Adds writer.old writer.new
        (tokens_of (specs.listed_value app.now found.now))) }
{
    let cohort = cohort_text(found.bucket());
    write_tokens(
        writer,
        &[
            Token::BeginObject,
            Token::Key("appid"),
            Token::String(app.appid()),
            Token::Key("cohort"),
            Token::String(as_text(&cohort)),
        ],
    )?;
    write_pinged(writer, app.facts().ping, found.releases(), found.choice())?;
    Ok(())
}

// The members from `ping` on, and the closing brace.
fn write_pinged(
    writer: &mut Writer,
    ping: bool,
    releases: &[Release],
    choice: Option<u8>,
) -> Result<(), AllocError>
    ensures { OnOk result (Adds writer.old writer.new
        (member_tokens (specs.pinged ping (specs.answered releases.now choice)))) }
{
    if !ping {
        return write_answered(writer, releases, choice);
    }
    write_tokens(writer, &[Token::Key("ping")])?;
    write_status(writer, "ok")?;
    write_answered(writer, releases, choice)?;
    Ok(())
}

// The members from `status` on, and the closing brace.
fn write_answered(
    writer: &mut Writer,
    releases: &[Release],
    choice: Option<u8>,
) -> Result<(), AllocError>
    ensures { OnOk result (Adds writer.old writer.new
        (member_tokens (specs.answered releases.now choice))) }
{
    write_tokens(writer, &[Token::Key("status"), Token::String("ok")])?;
    if let Some(choice) = choice {
        write_tokens(writer, &[Token::Key("updatecheck")])?;
        write_update(writer, release_at(releases, choice))?;
        write_tokens(writer, &[Token::EndObject])?;
        return Ok(());
    }
    write_tokens(writer, &[Token::EndObject])?;
    Ok(())
}
