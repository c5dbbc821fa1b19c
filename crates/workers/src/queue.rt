//! The queue between the accept loop and the worker threads. It has 64 places, and nothing is
//! promised about which worker gets which connection.

ghost use Rattle.std.specs.Prelude.{◌≡◌, ◌+◌, ◌-◌, ◌^◌, min, IfNone, OnSome};

use crate::accept::{Call, Port};
use crate::wake::Wake;
use crossbeam_channel::{Receiver, Sender};
use server_log::{Log, LogQueue};
use std::net::TcpListener;
use std::sync::Wait;
use std::sync::atomic::AtomicBool;
use std::time::Clock;

/// How many accepted connections may wait for a worker.
pub(crate) const WAITING: usize = 64;

/// Puts each connection of a port into the queue, and closes both at the end. If the connection is
/// known that wakes the port then, also those that the system had for it.
pub(crate) fn fill<'x, H>(
    rt: &H,
    listener: TcpListener,
    queue: Sender<Call>,
    stop: &'x AtomicBool,
    wake: Option<&'x Wake>,
    log: Option<&'x LogQueue>,
)
where
    H: Wait + AllocGlobal + Clock,
{
    let mut port = Port::new(&listener, stop, wake, log);
    for _ in rt.forever() {
        let Some(call) = port.accept(rt) else {
            break;
        };
        if queue.send(rt, call).is_err() {
            break;
        }
    }
}

/// A worker's end of the queue, with the number of connections that it has taken. The number stays
/// at 2^64 - 1.
#[derive(Drop)]
pub(crate) struct Calls {
    queue: Receiver<Call>,
    taken: u64,
}

impl Calls {
    /// An end from which nothing is taken yet.
    pub(crate) fn of(queue: Receiver<Call>) -> Calls
        ensures { result.taken ≡ 0 }
    {
        Calls { queue, taken: 0 }
    }

    /// The next connection, or `None` if the queue is closed.
    pub(crate) fn take<H>(&mut self, rt: &H, log: &mut Log<'_>) -> Option<Call>
    where
        H: Wait + AllocGlobal + Clock,
        ensures one { OnSome result
            (self.new.taken ≡ min (self.old.taken + 1) (2 ^ 64 - 1)) }
        ensures none { IfNone result (self.new.taken ≡ self.old.taken) }
    {
        let Some(call) = next_of(rt, &self.queue, log) else {
            return None;
        };
        self.taken = self.taken.saturating_add(1);
        Some(call)
    }
}

// The next connection of a queue. If none arrives for a moment the worker flushes its log before it
// waits, so that no line is left at the end.
fn next_of<H>(rt: &H, queue: &Receiver<Call>, log: &mut Log<'_>) -> Option<Call>
where
    H: Wait + AllocGlobal + Clock,
{
    if let Ok(call) = queue.try_recv(rt) {
        return Some(call);
    }
    if let Some(linger) = log.linger() {
        if let Ok(call) = queue.recv_timeout(rt, linger) {
            return Some(call);
        }
        log.send_queued(rt);
    }
    queue.recv(rt).ok()
}
