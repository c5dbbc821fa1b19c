//! An app of a request, as a line logs it. Its details, the further members and the event, are
//! logged if they fit; otherwise only the event, if that fits.

ghost use Rattle.std.specs.Prelude.{◌≡◌, ◌≤◌, [], ◌∷◌, ◌++◌, true, cond, IfOk, OnOk};
ghost use Rattle.access_log.specs.Tokens.{AddsTokens, AddsMembers};
ghost use Rattle.access_log.specs.Apps as specs;

use crate::excerpt::Excerpt;
use crate::further_members::write_more;
use crate::json_text::write_quoted;
use crate::line_buffer::LineBuffer;
use crate::logged_app::{LoggedApp, Outcome};
use crate::member::{
    write_count, write_flag, write_left_out_of, write_number, write_optional_excerpt, write_text,
};
use std::alloc::AllocError;

/// What an app leaves for later ones.
#[derive(Clone, Copy)]
pub struct Left {
    /// The bytes for their details.
    pub room: usize,
    /// 1 if its further members are left out, otherwise 0.
    pub without_more: usize,
}

/// An app, after a comma or not, with those of its details that fit in `room` bytes.
pub fn write_app(
    line: &mut LineBuffer,
    comma: bool,
    app: &LoggedApp<'_>,
    room: usize,
) -> Result<Left, AllocError>
    ensures text { OnOk result (AddsTokens comma true line.old line.new
        (specs.object_with app.now (specs.fitted_details room app.now))) }
    ensures room { IfOk result (λ left. left.room ≡ specs.left_after room app.now) }
    ensures more { IfOk result (λ left. left.without_more ≡ specs.without_more room app.now) }
    ensures bound { IfOk result (λ left. left.without_more ≤ 1) }
{
    write_members(line, comma, app)?;
    let left = write_fitted(line, app, room)?;
    line.put(b"}")?;
    Ok(left)
}

/// The bytes that an app takes after a comma without its details. Leaves the line as it is.
pub fn brief_size(line: &mut LineBuffer, app: &LoggedApp<'_>) -> Result<usize, AllocError>
    ensures line { OnOk result (line.new ≡ line.old) }
    ensures size { IfOk result (λ size. size ≡ specs.brief_size app.now) }
{
    let before = line.len();
    write_members(line, true, app)?;
    write_no_details(line, app)?;
    line.put(b"}")?;
    let size = line.added_since(before);
    line.cut_back(before);
    Ok(size)
}

// The brace that opens an app, and the members that are always logged.
fn write_members(line: &mut LineBuffer, comma: bool, app: &LoggedApp<'_>) -> Result<(), AllocError>
    ensures { OnOk result (AddsTokens comma true line.old line.new (specs.app_members app.now)) }
{
    write_head(line, comma, app.appid.text)?;
    write_left_out_of(line, "appid_left_out", &app.appid)?;
    write_optional_excerpt(line, "version", "version_left_out", &app.version)?;
    write_number(line, "bucket", app.bucket as u64)?;
    write_flag(line, "named", app.named)?;
    write_outcome(line, &app.outcome)?;
    Ok(())
}

// The brace that opens an app, and its first member.
#[tactic(auto, using(crate::proofs::AddedApps::adds_head))]
fn write_head(line: &mut LineBuffer, comma: bool, appid: &str) -> Result<(), AllocError>
    ensures { OnOk result (AddsTokens comma true line.old line.new
        (specs.head_of appid.now)) }
{
    write_comma(line, comma)?;
    line.put(b"{\"appid\":")?;
    write_quoted(line, appid)?;
    Ok(())
}

fn write_comma(line: &mut LineBuffer, comma: bool) -> Result<(), AllocError>
    ensures { OnOk result (line.new ≡ line.old ++ cond comma (44 ∷ []) []) }
{
    if comma {
        return line.put(b",");
    }
    Ok(())
}

#[tactic(auto, using(crate::proofs::Added::adds_nothing))]
fn write_outcome(line: &mut LineBuffer, outcome: &Outcome<'_>) -> Result<(), AllocError>
    ensures { OnOk result (AddsMembers line.old line.new (specs.outcome_members outcome.now)) }
{
    match outcome {
        Outcome::Unknown => write_flag(line, "unknown", true),
        Outcome::NotRequested => Ok(()),
        Outcome::NoUpdate => write_number(line, "choice", 0),
        Outcome::Offered(choice, version) => write_offer(line, *choice, version),
    }
}

fn write_offer(line: &mut LineBuffer, choice: u8, version: &str) -> Result<(), AllocError>
    ensures { OnOk result (AddsMembers line.old line.new
        (specs.offer_members choice version.now)) }
{
    write_number(line, "choice", choice as u64)?;
    write_text(line, "release", version)?;
    Ok(())
}

// The details if they fit in `room` bytes, otherwise the event or its length.
fn write_fitted(line: &mut LineBuffer, app: &LoggedApp<'_>, room: usize) -> Result<Left, AllocError>
    ensures text { OnOk result (AddsMembers line.old line.new
        (specs.fitted_details room app.now)) }
    ensures room { IfOk result (λ left. left.room ≡ specs.left_after room app.now) }
    ensures more { IfOk result (λ left. left.without_more ≡ specs.without_more room app.now) }
    ensures bound { IfOk result (λ left. left.without_more ≤ 1) }
{
    let least = no_details_size(line, app)?;
    let before = line.len();
    let more = write_details(line, app)?;
    let size = line.added_since(before).saturating_sub(least);
    if room < size {
        line.cut_back(before);
        return Ok(Left {
            room: write_fitted_event(line, app, room)?,
            without_more: if more == 0 { 0 } else { 1 },
        });
    }
    Ok(Left {
        room: room - size,
        without_more: 0,
    })
}

// The event, or its length if it doesn't fit in `room` bytes. Returns the bytes that are left.
fn write_fitted_event(
    line: &mut LineBuffer,
    app: &LoggedApp<'_>,
    room: usize,
) -> Result<usize, AllocError>
    ensures text { OnOk result (AddsMembers line.old line.new
        (specs.fitted_event room app.now)) }
    ensures room { IfOk result (λ left. left ≡ specs.left_after_event room app.now) }
{
    let least = no_details_size(line, app)?;
    let before = line.len();
    write_event(line, app)?;
    let size = line.added_since(before).saturating_sub(least);
    if room < size {
        line.cut_back(before);
        write_no_details(line, app)?;
        return Ok(room);
    }
    Ok(room - size)
}

// The details of an app. Returns the bytes of its further members.
fn write_details(line: &mut LineBuffer, app: &LoggedApp<'_>) -> Result<usize, AllocError>
    ensures text { OnOk result (AddsMembers line.old line.new (specs.details_of app.now)) }
    ensures more { IfOk result (λ size. size ≡ specs.more_size app.now) }
{
    let before = line.len();
    write_more(line, &app.more)?;
    let more = line.added_since(before);
    write_event(line, app)?;
    Ok(more)
}

fn write_event(line: &mut LineBuffer, app: &LoggedApp<'_>) -> Result<(), AllocError>
    ensures { OnOk result (AddsMembers line.old line.new (specs.event_of app.now)) }
{
    write_optional_excerpt(line, "event", "event_left_out", &app.event)
}

// What replaces the details.
fn write_no_details(line: &mut LineBuffer, app: &LoggedApp<'_>) -> Result<(), AllocError>
    ensures { OnOk result (AddsMembers line.old line.new (specs.no_details_of app.now)) }
{
    write_count(line, "event_left_out", event_length(&app.event))
}

// The bytes of what replaces the details. Leaves the line as it is.
fn no_details_size(line: &mut LineBuffer, app: &LoggedApp<'_>) -> Result<usize, AllocError>
    ensures line { OnOk result (line.new ≡ line.old) }
    ensures size { IfOk result (λ size. size ≡ specs.no_details_size app.now) }
{
    let before = line.len();
    write_no_details(line, app)?;
    let size = line.added_since(before);
    line.cut_back(before);
    Ok(size)
}

fn event_length(event: &Option<Excerpt<'_>>) -> u64
    ensures { result ≡ specs.event_length event.now }
{
    match event {
        Some(event) => event.length,
        None => 0,
    }
}
