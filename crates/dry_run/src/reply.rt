//! The reply to a body, without a server.

ghost use Rattle.std.specs.Prelude.{◌≡◌, IfOk, IfErr};
ghost use Rattle.dry_run.specs.Reply.{IsFoundReply, RepliesOn};

use answering::{NoObserver, Turn, run_apps};
use attrs::Moment;
use cells::{PlainCells, PlainPass};
use omaha_json::{OmahaFault, Request, found_text, read_request};
use ruleset::Ruleset;
use std::alloc::Global;

/// The text of Omaha's reply to a body, by a ruleset at a moment, on counters that are left as the
/// runs leave them. Returns O1 to O4 if the body isn't a request, and O5 if an allocation fails.
pub(crate) fn find_reply(
    alloc: Global,
    rules: &Ruleset,
    moment: &Moment,
    body: &[u8],
    counters: &mut PlainPass,
) -> Result<Vec<u8>, OmahaFault>
    ensures { IsFoundReply rules.now moment.now body.now counters.old counters.new result }
{
    match read_request(alloc, body, &mut NoObserver) {
        Ok(request) => reply_to(alloc, rules, moment, &request, counters),
        Err(fault) => Err(fault),
    }
}

// The text of the reply to a request.
fn reply_to(
    alloc: Global,
    rules: &Ruleset,
    moment: &Moment,
    request: &Request,
    counters: &mut PlainPass,
) -> Result<Vec<u8>, OmahaFault>
    ensures replies { IfOk result (λ text. RepliesOn rules.now moment.now request.now counters.old
        text.items counters.new) }
    ensures memory { IfErr result (λ fault. fault ≡ OmahaFault.Memory) }
{
    let cells = PlainCells;
    let turn = Turn {
        alloc,
        cells: &cells,
        moment,
    };
    let Ok(found) = run_apps(&turn, request, rules, counters) else {
        return Err(OmahaFault::Memory);
    };
    let answers = found.as_slice();
    match found_text(
        Vec::new(alloc),
        rules.server(),
        request.apps(),
        answers,
        moment,
    ) {
        Ok(text) => Ok(text),
        Err(_) => Err(OmahaFault::Memory),
    }
}
