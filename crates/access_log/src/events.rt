//! The members of each event, in their order.

ghost use Rattle.std.specs.Prelude.{◌≡◌, true, OnOk};
ghost use Rattle.access_log.specs.Tokens.{AddsMembers};
ghost use Rattle.access_log.specs.Line as specs;
ghost use Rattle.access_log.specs.Plain.{is_plain_text};

use crate::apps::write_apps;
use crate::excerpt::Excerpt;
use crate::line_buffer::LineBuffer;
use crate::log_event::{Connection, Counter, Halt, Load, LogEvent, Start, Totals};
use crate::member::{
    write_count, write_excerpt, write_flag, write_number, write_optional, write_optional_excerpt,
    write_text, write_word,
};
use std::alloc::AllocError;

/// The members of an event.
pub fn write_members(line: &mut LineBuffer, event: &LogEvent<'_>) -> Result<(), AllocError>
    ensures { OnOk result (AddsMembers line.old line.new (specs.members_of event.now)) }
{
    match event {
        LogEvent::Start(start) => write_start(line, start),
        LogEvent::Serving(generation) => write_serving(line, *generation),
        LogEvent::Load(load) => write_load(line, load),
        LogEvent::Halt(halt) => write_halt(line, halt),
        LogEvent::Connection(connection) => write_connection(line, connection),
        LogEvent::Unaccepted(reason) => write_unaccepted(line, reason),
        LogEvent::Lost(lines) => write_lost(line, *lines),
        LogEvent::Totals(totals) => write_totals(line, totals),
        LogEvent::Counters(refusal) => write_counters(line, *refusal),
        LogEvent::Stop(refusal) => write_stop(line, *refusal),
        LogEvent::Counter(counter) => write_counter(line, counter),
    }
}

fn write_start(line: &mut LineBuffer, start: &Start<'_>) -> Result<(), AllocError>
    ensures { OnOk result (AddsMembers line.old line.new (specs.start_members start.now)) }
{
    write_kind(line, "start")?;
    write_path(line, &start.manifest)?;
    write_number(line, "operator", start.operator as u64)?;
    write_optional(line, "digest", start.digest)?;
    write_optional(line, "counters", start.counters)?;
    write_optional(line, "refusal", start.refusal)?;
    write_optional_excerpt(line, "cause", "cause_left_out", &start.cause)?;
    Ok(())
}

fn write_serving(line: &mut LineBuffer, generation: u64) -> Result<(), AllocError>
    ensures { OnOk result (AddsMembers line.old line.new (specs.serving_members generation)) }
{
    write_kind(line, "serving")?;
    write_number(line, "generation", generation)?;
    Ok(())
}

fn write_load(line: &mut LineBuffer, load: &Load<'_>) -> Result<(), AllocError>
    ensures { OnOk result (AddsMembers line.old line.new (specs.load_members load.now)) }
{
    write_kind(line, "load")?;
    write_path(line, &load.path)?;
    write_count(line, "generation", load.generation)?;
    write_optional(line, "digest", load.digest)?;
    write_count(line, "halted", load.halted)?;
    write_optional(line, "refusal", load.refusal)?;
    write_optional_excerpt(line, "cause", "cause_left_out", &load.cause)?;
    Ok(())
}

fn write_halt(line: &mut LineBuffer, halt: &Halt<'_>) -> Result<(), AllocError>
    ensures { OnOk result (AddsMembers line.old line.new (specs.halt_members halt.now)) }
{
    write_kind(line, "halt")?;
    write_excerpt(line, "app", "app_left_out", &halt.app)?;
    write_halt_word(line, halt.is_resume)?;
    write_count(line, "generation", halt.generation)?;
    write_optional(line, "refusal", halt.refusal)?;
    Ok(())
}

// What the operator requested.
fn write_halt_word(line: &mut LineBuffer, is_resume: bool) -> Result<(), AllocError>
    ensures { OnOk result (AddsMembers line.old line.new (specs.halt_word_member is_resume)) }
{
    if is_resume {
        return write_word(line, "word", "resume");
    }
    write_word(line, "word", "halt")
}

fn write_connection(line: &mut LineBuffer, connection: &Connection<'_>) -> Result<(), AllocError>
    ensures { OnOk result (AddsMembers line.old line.new
        (specs.connection_members connection.now)) }
{
    write_kind(line, "connection")?;
    write_text(line, "peer", connection.peer)?;
    write_optional(line, "forwarded", connection.forwarded)?;
    write_id(line, connection.lacks_id)?;
    write_optional(line, "request_id", connection.request_id)?;
    write_reply(line, connection)?;
    write_apps(line, connection.apps)?;
    Ok(())
}

// The member `id`, if the request has no id.
#[tactic(auto, using(crate::proofs::Added::adds_nothing))]
fn write_id(line: &mut LineBuffer, lacks_id: bool) -> Result<(), AllocError>
    ensures { OnOk result (AddsMembers line.old line.new (specs.id_member lacks_id)) }
{
    if lacks_id {
        return write_flag(line, "id", false);
    }
    Ok(())
}

// The reply, if there was one.
fn write_reply(line: &mut LineBuffer, connection: &Connection<'_>) -> Result<(), AllocError>
    ensures { OnOk result (AddsMembers line.old line.new (specs.reply_members connection.now)) }
{
    write_count(line, "status", connection.status as u64)?;
    write_optional(line, "refusal", connection.refusal)?;
    write_optional(line, "cause", connection.cause)?;
    write_count(line, "generation", connection.generation)?;
    write_number(line, "bytes", connection.bytes)?;
    write_number(line, "micros", connection.micros)?;
    write_number(line, "waited", connection.waited)?;
    Ok(())
}

fn write_unaccepted(line: &mut LineBuffer, reason: &str) -> Result<(), AllocError>
    ensures { OnOk result (AddsMembers line.old line.new (specs.unaccepted_members reason.now)) }
{
    write_kind(line, "unaccepted")?;
    write_text(line, "reason", reason)?;
    Ok(())
}

fn write_lost(line: &mut LineBuffer, lines: u64) -> Result<(), AllocError>
    ensures { OnOk result (AddsMembers line.old line.new (specs.lost_members lines)) }
{
    write_kind(line, "lost")?;
    write_number(line, "lines", lines)?;
    Ok(())
}

fn write_totals(line: &mut LineBuffer, totals: &Totals) -> Result<(), AllocError>
    ensures { OnOk result (AddsMembers line.old line.new (specs.totals_members totals.now)) }
{
    write_kind(line, "totals")?;
    write_statuses(line, totals)?;
    write_number(line, "dropped", totals.dropped)?;
    write_number(line, "longest_wait", totals.longest_wait)?;
    write_number(line, "busy", totals.busy)?;
    Ok(())
}

// The number of replies of each status.
fn write_statuses(line: &mut LineBuffer, totals: &Totals) -> Result<(), AllocError>
    ensures { OnOk result (AddsMembers line.old line.new (specs.status_members totals.now)) }
{
    write_number(line, "status_200", totals.success)?;
    write_number(line, "status_400", totals.bad_request)?;
    write_number(line, "status_404", totals.not_found)?;
    write_number(line, "status_405", totals.method_not_allowed)?;
    write_number(line, "status_411", totals.length_required)?;
    write_number(line, "status_413", totals.content_too_large)?;
    write_number(line, "status_431", totals.header_fields_too_large)?;
    write_number(line, "status_500", totals.internal_server_error)?;
    write_count(line, "status_503", totals.service_unavailable)?;
    Ok(())
}

fn write_counters(line: &mut LineBuffer, refusal: Option<&str>) -> Result<(), AllocError>
    ensures { OnOk result (AddsMembers line.old line.new (specs.counters_members refusal.entry)) }
{
    write_kind(line, "counters")?;
    write_optional(line, "refusal", refusal)?;
    Ok(())
}

fn write_stop(line: &mut LineBuffer, refusal: Option<&str>) -> Result<(), AllocError>
    ensures { OnOk result (AddsMembers line.old line.new (specs.stop_members refusal.entry)) }
{
    write_kind(line, "stop")?;
    write_optional(line, "refusal", refusal)?;
    Ok(())
}

fn write_counter(line: &mut LineBuffer, counter: &Counter<'_>) -> Result<(), AllocError>
    ensures { OnOk result (AddsMembers line.old line.new (specs.counter_members counter.now)) }
{
    write_kind(line, "counter")?;
    write_text(line, "array", counter.array)?;
    write_number(line, "index", counter.index as u64)?;
    write_number(line, "value", counter.value)?;
    Ok(())
}

/// The member that names the kind of event.
pub fn write_kind(line: &mut LineBuffer, kind: &str) -> Result<(), AllocError>
    requires { is_plain_text kind.now ≡ true }
    ensures { OnOk result (AddsMembers line.old line.new (specs.kind_member kind.now)) }
{
    write_word(line, "kind", kind)
}

fn write_path(line: &mut LineBuffer, path: &Excerpt<'_>) -> Result<(), AllocError>
    ensures { OnOk result (AddsMembers line.old line.new (specs.path_members path.now)) }
{
    write_excerpt(line, "path", "path_left_out", path)
}
