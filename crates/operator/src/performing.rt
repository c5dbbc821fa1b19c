//! Performs a request: a load, a halt, its end or a stop, which change the control, or a read of
//! the ruleset, of the state or of the counters.

ghost use Rattle.std.specs.Prelude.{◌≡◌};
ghost use Rattle.operator.specs.Perform as specs;
ghost use Rattle.operator.specs.Perform.{Performs};
ghost use Rattle.cells.specs.Grown.{Grows};

use crate::control::Control;
use crate::loader::Loader;
use crate::reply::{OperatorRefusal, OperatorReply};
use crate::reply_lines::{counter_lines, ruleset_lines};
use crate::state_lines::state_lines;
use access_log::Utc;
use cells::CellSteps;
use hot_swap::Generation;
use operator_request::OperatorRequest;
use std::alloc::{AllocError, Global};
use std::sync::Wait;

/// Does what is requested, and returns the reply; `None` is a line without a request. Once a stop
/// was requested the caller has to end the server. `now` is the time of a load.
pub(crate) fn perform<R: Wait, L: Loader, C: CellSteps>(
    rt: &R,
    alloc: Global,
    now: Utc,
    loader: &L,
    control: &mut Control,
    cells: &C,
    pass: &mut C::Pass,
    request: Option<OperatorRequest<'_>>,
) -> OperatorReply<L::Fault>
    requires { C.belongs cells.now pass.old }
    ensures belongs { C.belongs cells.now pass.new }
    ensures performs { Grows C.grew pass.old pass.new (λ events.
        Performs (L.loads loader.now) request.entry control.old events result control.new) }
{
    let Some(request) = request else {
        return OperatorReply::Refused(OperatorRefusal::Word);
    };
    match request {
        OperatorRequest::Load(path) => served(control.load(rt, alloc, now, loader, path)),
        OperatorRequest::Halt(appid) => served(control.halt(rt, alloc, appid)),
        OperatorRequest::Resume(appid) => served(control.resume(rt, alloc, appid)),
        OperatorRequest::Show => lines(ruleset_lines(
            alloc,
            control.generation(),
            control.ruleset(),
        )),
        OperatorRequest::State => lines(state_lines(alloc, control)),
        OperatorRequest::Cells => lines(counter_lines(alloc, control.arrays(), cells, pass)),
        OperatorRequest::Stop => {
            control.stop();
            OperatorReply::Stopping
        }
    }
}

// The reply to a request that installs a ruleset.
fn served<F>(done: Result<Generation, OperatorRefusal<F>>) -> OperatorReply<F>
    ensures { result ≡ specs.served_reply done }
{
    match done {
        Ok(generation) => OperatorReply::Loaded(generation),
        Err(refusal) => OperatorReply::Refused(refusal),
    }
}

// The reply to a request for lines.
fn lines<F>(lines: Result<String, AllocError>) -> OperatorReply<F>
    ensures { result ≡ specs.lines_reply lines }
{
    match lines {
        Ok(lines) => OperatorReply::Lines(lines),
        Err(_) => OperatorReply::Refused(OperatorRefusal::Memory),
    }
}
