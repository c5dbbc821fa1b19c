//! The operator's port: one connection after another, each with a time limit. It ends with the
//! connection that requests a stop, or at the next one once the flag is set.

ghost use Rattle.std.specs.Prelude.{◌≡◌, None, IfNone, IfSome};
ghost use Rattle.cells.specs.Grown.{Grows};
ghost use Rattle.operator.specs.Perform.{AnswersLine};
ghost use Rattle.workers.specs.Back.{OperatorBack};

use crate::accept::{OperatorEnd, Port};
use crate::clock::Limits;
use crate::counter_thread::{Bell, note_change};
use crate::parts::ServerParts;
use cells::{CellSteps, growth};
use net_io::{Counted, Timed, drain};
use operator::{Control, Loader, OperatorReply, answer, write_reply};
use server_log::{Recorder, note_request, utc_now};
use std::fmt::Display;
use std::io;
use std::net::{TcpListener, TcpStream};
use std::sync::Wait;
use std::sync::atomic::AtomicBool;
use std::time::{Clock, Duration};

/// How many seconds an operator may take to send a line, and again to read the reply. A slower
/// client would delay the next one, which may need to halt a release.
const OPERATOR_SECONDS: u64 = 5;

/// Answers connections until one requests a stop, or until `stop` is set and one more is accepted,
/// which isn't answered. Loads, halts and resumes change the control.
/// The caller has to end the server. The line of a
/// connection has to arrive within 5 seconds. Its reply has to be read within 5 seconds of being
/// ready, since a load may take long. If the server's time limit is shorter, it holds instead.
/// A connection that fails, or can't be accepted, is skipped.
// open: which bytes a socket carries; that requests are answered one after another, in these time
// limits, and that it returns only after a requested stop, or if the flag was set: tests.
pub fn operate<'x, H, L, C, K, B>(
    rt: &H,
    listener: &'x TcpListener,
    parts: &ServerParts<'_, L, C, K, B>,
    pass: &mut C::Pass,
    control: &mut Control,
    stop: &'x AtomicBool,
) -> OperatorEnd
where
    H: Wait + AllocGlobal + Clock,
    L: Loader,
    C: CellSteps,
    B: Bell,
    requires { C.belongs parts.now.cells.now pass.old }
    ensures { OperatorBack (C.belongs parts.now.cells.now) C.grew (L.loads parts.now.loader.now)
        result (pass.old, control.old) (pass.new, control.new) }
{
    growth::<C>();
    let limit = parts
        .service
        .timeout
        .min(Duration::from_secs(OPERATOR_SECONDS));
    let mut port = Port::new(listener, stop, None, None);
    for _ in rt.forever() {
        let Some(call) = port.accept(rt) else {
            return port.ended(control.is_stopping());
        };
        let _reply = attend(rt, &call.stream, limit, parts, pass, control);
        let is_stopping = control.is_stopping();
        if is_stopping {
            return port.ended(is_stopping);
        }
    }
    unreachable!()
}

// Answers one connection, and returns the reply; `None` if no line could be read.
fn attend<'x, H, L, C, K, B>(
    rt: &'x H,
    stream: &'x TcpStream,
    limit: Duration,
    parts: &ServerParts<'_, L, C, K, B>,
    pass: &mut C::Pass,
    control: &mut Control,
) -> Option<OperatorReply<L::Fault>>
where
    H: Wait + AllocGlobal + Clock,
    L: Loader,
    C: CellSteps,
    B: Bell,
    requires { C.belongs parts.now.cells.now pass.old }
    ensures belongs { C.belongs parts.now.cells.now pass.new }
    // The reply is that to a line,
    ensures answers { IfSome result (λ reply. Grows C.grew pass.old pass.new (λ events.
        AnswersLine (L.loads parts.now.loader.now) None control.old events reply control.new)) }
    // and without one nothing happens.
    ensures unread { IfNone result ((control.new ≡ control.old) × (pass.new ≡ pass.old)) }
{
    let Some(limits) = Limits::begin(rt, limit) else {
        return None;
    };
    let loader = parts.loader;
    let log = parts.service.log;
    let before = control.generation();
    let timed = Timed::new(stream, rt, limits.until());
    let mut reader = Counted::new(Recorder::new(rt.alloc(), timed, log.is_some()));
    let Some(reply) = answer(
        rt,
        rt.alloc(),
        utc_now(rt),
        &mut reader,
        loader,
        control,
        parts.cells,
        pass,
    ) else {
        return None;
    };
    note_change(rt, parts.bell, before, control);
    let _sent = send(rt, stream, &reply, limit);
    note_request(rt, log, reader.into_inner(), loader, control, &reply);
    Some(reply)
}

/// Sends a reply, and reads what the client sends after its line.
pub(crate) fn send<H: Clock, F: Display>(
    rt: &H,
    stream: &TcpStream,
    reply: &OperatorReply<F>,
    timeout: Duration,
) -> io::Result<()> {
    let Some(limits) = Limits::begin(rt, timeout) else {
        return Ok(());
    };
    let mut writer = Timed::new(stream, rt, limits.until());
    write_reply(&mut writer, reply)?;
    drain(stream, rt)
}
