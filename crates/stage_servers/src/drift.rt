//! Servers that don't serve what is in place: when an action stops because of one.

// No contract says what is printed: bench/outside tests it.

ghost use Rattle.std.specs.Prelude.{◌≡◌, IfErr, OnOk, false, true};
ghost use Rattle.std.specs.List.{list_any};
ghost use Rattle.std.specs.Result.{OnErr};
ghost use Rattle.stage_servers.specs.Drift as specs;
ghost use Rattle.stage_servers.specs.Stops.{IsRefusedOnlyIf};

use crate::action_kinds::{is_back, is_halt};
use crate::options::StageCall;
use crate::outcome::{Lines, Stop};
use crate::refusals::refusal;
use crate::serves::{Serves, Surveyed};
use printing::TextBuffer;
use stage_records::StageAction;
use std::alloc::Global;

// ---- the words

/// Adds what a server serves, which has to be known.
// open: what the words are: rows, and bench/outside.
pub fn push_serves(text: &mut TextBuffer, serves: &Serves) {
    match serves {
        Serves::Step { number: 0, .. } => text.push("what was there before the first step"),
        Serves::Step { number, .. } => text.push_number("step ", *number as u64, ""),
        Serves::LastLoaded => text.push("what stage loaded last"),
        Serves::Other { loaded, .. } => {
            text.push_printed(
                "what no step is known to have left, loaded ",
                loaded.as_str(),
                "",
            )
        }
        Serves::InPlace | Serves::Unknown => text.push("what is in place"),
    }
}

// A server doesn't serve what is in place.
fn drifted(alloc: Global, server: &Surveyed, manifest: &str) -> Stop {
    let mut text = TextBuffer::new(alloc);
    text.push_number("server at ", server.port as u64, " serves ");
    push_serves(&mut text, &server.serves);
    text.push_printed(", not what is in place: rollout load ", manifest, "");
    text.push_number(
        " --operator ",
        server.port as u64,
        " mends it (--anyway continues)",
    );
    refusal(text)
}

// A server has an app that is neither in place nor in the next manifest.
fn another(alloc: Global, port: u16, appid: &str, loaded: &str) -> Stop {
    let mut text = TextBuffer::new(alloc);
    text.push_number("server at ", port as u64, " is another one: it serves ");
    text.push_printed("", appid, ", loaded ");
    text.push_printed("", loaded, " (--other-server continues)");
    refusal(text)
}

// ---- stops

/// The app that only this server has, which is another one then.
pub(crate) fn strange_app(server: &Surveyed) -> Option<&str> {
    match &server.serves {
        Serves::Other {
            strange: Some(appid),
            ..
        } => Some(appid.as_str()),
        _ => None,
    }
}

// Whether a server has an app that is neither in place nor in the next manifest.
fn is_strange(serves: &Serves) -> bool
    ensures { result ≡ specs.is_strange serves.now }
{
    match serves {
        Serves::Other {
            strange: Some(_),
            ..
        } => true,
        Serves::Other { strange: None, .. } => false,
        Serves::InPlace => false,
        Serves::Step { .. } => false,
        Serves::LastLoaded => false,
        Serves::Unknown => false,
    }
}

// Whether as many later steps are done as an action expects.
fn is_last(action: &StageAction<'_>, later: usize) -> bool
    ensures { result ≡ specs.is_last action.now later }
{
    if is_back(action) {
        return later < 2;
    }
    later == 0
}

// Whether a server serves what an action expects, whatever was edited.
fn is_expected(action: &StageAction<'_>, serves: &Serves) -> bool
    ensures { result ≡ specs.is_expected action.now serves.now }
{
    match serves {
        Serves::InPlace => true,
        Serves::Unknown => true,
        Serves::Step { later, .. } => is_last(action, *later),
        Serves::LastLoaded => false,
        Serves::Other { .. } => false,
    }
}

// The stop at a server with a strange app.
fn another_of(alloc: Global, server: &Surveyed) -> Stop {
    match &server.serves {
        Serves::Other {
            loaded,
            strange: Some(appid),
        } => another(alloc, server.port, appid.as_str(), loaded.as_str()),
        _ => another(alloc, server.port, "", ""),
    }
}

// Stops because of one server.
#[tactic(auto, using(crate::proofs::GoesOn::other_stops, crate::proofs::GoesOn::drift_stops))]
fn stop_at<R, D>(
    call: &StageCall<'_, R, D>,
    server: &Surveyed,
    action: &StageAction<'_>,
    lines: &mut Lines,
) -> Result<(), Stop>
where
    R: AllocGlobal,
    ensures passed { OnOk result
        (specs.stops_at call.now.options.now action.now server.now ≡ false) }
    ensures refused { IfErr result (IsRefusedOnlyIf
        (specs.stops_at call.now.options.now action.now server.now)) }
    ensures halted { specs.is_halt action.now ≡ true → OnErr result ⊥ }
{
    if is_halt(action) {
        return Ok(());
    }
    let (alloc, options) = (call.rt.alloc(), call.options);
    if is_strange(&server.serves) {
        return match lines.go_on_if(options.other_server, another_of(alloc, server)) {
            Ok(()) => Ok(()),
            Err(stop) => Err(stop),
        };
    }
    if is_expected(action, &server.serves) {
        return Ok(());
    }
    match lines.go_on_if(options.anyway, drifted(alloc, server, call.manifest)) {
        Ok(()) => Ok(()),
        Err(stop) => Err(stop),
    }
}

/// Stops before anything is changed, if a server says that it serves neither what is in place nor
/// what the last step left: unless `--anyway` is given, or `--other-server` if it has another app.
/// A halt never stops, not even if memory runs out. Nor does `back` at a server that serves the
/// step before the one to undo.
// open: whether an allocation fails, and that a stop is a refusal: rows.
#[tactic(auto, using(crate::proofs::GoesOn::some_stops))]
pub fn stop_if_drifted<R, D>(
    call: &StageCall<'_, R, D>,
    servers: &[Surveyed],
    action: &StageAction<'_>,
    lines: &mut Lines,
) -> Result<(), Stop>
where
    R: AllocGlobal,
    ensures passed { OnOk result
        (list_any (specs.stops_at call.now.options.now action.now) servers.now ≡ false) }
    ensures refused { IfErr result (IsRefusedOnlyIf
        (list_any (specs.stops_at call.now.options.now action.now) servers.now)) }
    ensures halted { specs.is_halt action.now ≡ true → OnErr result ⊥ }
{
    let mut left = servers;
    while let [server, others @ ..] = left {
        if let Err(stop) = stop_at(call, server, action, lines) {
            return Err(stop);
        }
        left = others;
    }
    Ok(())
}
