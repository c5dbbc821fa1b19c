//! A worker thread: it takes connections from the queue and answers them, one after another.

ghost use Rattle.std.specs.Prelude.{◌≡◌};
ghost use Rattle.workers.specs.Back.{ConnectionBack, ConnectionsBack, MomentBack, WorkerBack};

use crate::accept::Call;
use crate::clock::{Limits, begun, micros_between, unix_second};
use crate::gate::Gate;
use crate::parts::Crew;
use crate::queue::Calls;
use answering::{AnswerBuffers, AnswerFault, Sent, Turn, answer_in};
use cells::{CellSteps, growth};
use cover::Cover;
use crossbeam_channel::Receiver;
use hot_swap::Watcher;
use net_io::{Counted, Timed, drain, take_rest};
use server_log::{ConnectionRecord, Log, Recorder, count_begun, count_ended};
use std::io;
use std::net::TcpStream;
use std::sync::Wait;
use std::time::Clock;

/// What a worker answers with, and the buffers that it reuses.
#[derive(Drop)]
struct WorkerSeat<'a, C: CellSteps>
where
    C::Pass: Drop,
{
    cells: &'a C,
    pass: C::Pass,
    watcher: Watcher,
    buffers: AnswerBuffers,
}

/// Answers until the queue is closed, and returns the pass and the watcher.
pub(crate) fn work<H, G, C, K>(
    rt: &H,
    crew: &Crew<'_, G, K>,
    queue: Receiver<Call>,
    cells: &C,
    worker: (C::Pass, Watcher),
) -> (C::Pass, Watcher)
where
    H: Wait + AllocGlobal + Clock,
    G: Gate,
    C: CellSteps,
    C::Pass: Drop,
    K: Cover<C>,
    requires { C.belongs cells.now worker.0 }
    ensures { WorkerBack (K.withholds crew.now.cover.now) (C.belongs cells.now) C.grew worker
        result }
{
    let (pass, watcher) = worker;
    let mut seat = WorkerSeat {
        cells,
        pass,
        watcher,
        buffers: AnswerBuffers::new(rt.alloc()),
    };
    let mut calls = Calls::of(queue);
    attend_all(rt, crew, &mut calls, &mut seat);
    crew.leave();
    let WorkerSeat {
        cells: _cells,
        pass,
        watcher,
        buffers: _buffers,
    } = seat;
    (pass, watcher)
}

// Answers connections, one after another, until the queue is closed.
fn attend_all<H, G, C, K>(
    rt: &H,
    crew: &Crew<'_, G, K>,
    calls: &mut Calls,
    seat: &mut WorkerSeat<'_, C>,
)
where
    H: Wait + AllocGlobal + Clock,
    G: Gate,
    C: CellSteps,
    C::Pass: Drop,
    K: Cover<C>,
    requires first { calls.old.taken ≡ 0 }
    requires belongs { C.belongs seat.old.cells.now seat.old.pass }
    // No connection that was taken has two answers.
    ensures { ConnectionsBack (K.withholds crew.now.cover.now) (C.belongs seat.old.cells.now)
        C.grew calls.new.taken (seat.old.pass, seat.old.watcher) (seat.new.pass, seat.new.watcher) }
{
    growth::<C>();
    let mut log = Log::new(rt.alloc(), crew.service.log);
    let mut recorded = ConnectionRecord::new(rt.alloc(), log.is_kept());
    for _ in rt.forever() {
        let Some(call) = calls.take(rt, &mut log) else {
            return;
        };
        crew.gate.before(call.number);
        let _attended = attend(rt, &call, seat, crew, &mut log, &mut recorded);
        crew.gate.after(call.number);
    }
}

// Answers one connection.
fn attend<H, G, C, K>(
    rt: &H,
    call: &Call,
    seat: &mut WorkerSeat<'_, C>,
    crew: &Crew<'_, G, K>,
    log: &mut Log<'_>,
    recorded: &mut ConnectionRecord,
) -> io::Result<()>
where
    H: Wait + AllocGlobal + Clock,
    G: Gate,
    C: CellSteps,
    C::Pass: Drop,
    K: Cover<C>,
    requires { C.belongs seat.old.cells.now seat.old.pass }
    ensures cells { seat.new.cells ≡ seat.old.cells }
    ensures back { ConnectionBack (K.withholds crew.now.cover.now) (C.belongs seat.old.cells.now)
        C.grew (seat.old.pass, seat.old.watcher) (seat.new.pass, seat.new.watcher) }
{
    let service = crew.service;
    let moment = unix_second(rt);
    log.flush_earlier(rt, moment);
    let limits = Limits::begin(rt, service.timeout);
    let waited = micros_between(call.accepted, begun(limits));
    count_begun(service.log, waited);
    recorded.begin();
    let outcome = answer_within(rt, &call.stream, seat, crew.cover, moment, limits, recorded);
    server_log::note_connection(
        rt,
        log,
        call.peer,
        waited,
        begun(limits),
        &outcome,
        recorded,
    );
    let finished = finish(rt, &call.stream, &outcome);
    count_ended(service.log, &outcome);
    finished
}

// Answers one connection within its limits. If the clock can't give its deadline, nothing is read,
// and the client counts as unreadable.
fn answer_within<'x, H, C, K>(
    rt: &'x H,
    stream: &'x TcpStream,
    seat: &mut WorkerSeat<'_, C>,
    cover: &K,
    moment: i64,
    limits: Option<Limits>,
    recorded: &mut ConnectionRecord,
) -> Result<Sent, AnswerFault>
where
    H: AllocGlobal + Clock,
    C: CellSteps,
    C::Pass: Drop,
    K: Cover<C>,
    requires { C.belongs seat.old.cells.now seat.old.pass }
    ensures cells { seat.new.cells ≡ seat.old.cells }
    ensures back { MomentBack (K.withholds cover.now) (C.belongs seat.old.cells.now) C.grew moment
        (seat.old.pass, seat.old.watcher) (seat.new.pass, seat.new.watcher) }
{
    let Some(limits) = limits else {
        recorded.fail("clock");
        return Err(AnswerFault::Reading);
    };
    let alloc = rt.alloc();
    let from = Timed::new(stream, rt, limits.until());
    let into = from.opposite();
    let mut reader = Counted::new(recorded.recorder_of(from));
    let mut writer = Counted::new(Recorder::new(alloc, into, false));
    let turn = Turn {
        alloc,
        cells: seat.cells,
        moment: &moment,
    };
    let outcome = answer_in(
        &turn,
        cover,
        &mut seat.buffers,
        &mut reader,
        &mut writer,
        &mut seat.pass,
        &mut seat.watcher,
        recorded,
    );
    recorded.remember(reader.into_inner(), writer.into_inner());
    outcome
}

// Reads what a client sent after its request. A socket that is closed with unread bytes is reset,
// and the reply may be lost with it (RFC 9112, section 9.6). A request with a 200 or a 503 was read
// whole: only the bytes that have arrived are read, without waiting. Another refused client may
// keep sending for a while.
fn finish<H: Clock>(
    rt: &H,
    stream: &TcpStream,
    outcome: &Result<Sent, AnswerFault>,
) -> io::Result<()> {
    match outcome {
        Ok(sent) if sent.status == 200 || sent.status == 503 => take_rest(stream),
        Ok(_) => drain(stream, rt),
        Err(_) => Ok(()),
    }
}
