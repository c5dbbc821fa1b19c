//! The clients' side of a server whose gate holds answers back: two are made at the same time, and
//! those that a stop finds are given.

use crate::impaired::Impaired;
use crate::loopback::{BODY, HEAD, ONE_APP, is_replied, send, sent};
use crate::servers::service_of;
use crate::stopped::publisher_of;
use cells::{PlainCells, PlainPass};
use hot_swap::{Publisher, Watcher};
use std::net::{SocketAddr, TcpListener, TcpStream};
use std::process::Abort;
use std::sync::Wait;
use std::sync::atomic::{AtomicBool, AtomicU64, Ordering};
use std::thread::{self, Threads};
use std::time::Duration;
use workers::{Gate, serve};

/// What a call, or a client, waits for.
#[derive(Clone, Copy)]
enum Awaited {
    /// This number of calls have begun.
    Begun(u64),
    /// The call of this number was answered last.
    Answered(u64),
    Stop,
}

/// Which calls wait before their connection is read.
#[derive(Clone, Copy)]
enum Held {
    Nothing,
    /// The first, until the second is answered.
    First,
    /// All, until the server is stopped.
    All,
}

/// A gate that knows which calls have begun, and which was answered last.
#[derive(Drop)]
struct HoldingGate<'a> {
    rt: &'a HostRuntime,
    held: Held,
    begun: AtomicU64,
    answered: AtomicU64,
    stop: AtomicBool,
}

impl HoldingGate<'_> {
    fn has_come(&self, awaited: Awaited) -> bool {
        match awaited {
            Awaited::Begun(calls) => self.begun.load(Ordering::SeqCst) == calls,
            Awaited::Answered(call) => self.answered.load(Ordering::SeqCst) == call,
            Awaited::Stop => self.stop.load(Ordering::SeqCst),
        }
    }

    /// Waits for this, at most ten seconds. Returns whether it has come.
    fn wait_for(&self, awaited: Awaited) -> bool {
        for _ in 0..1000 {
            if self.has_come(awaited) {
                return true;
            }
            thread::sleep(self.rt, Duration::from_millis(10));
        }
        false
    }
}

impl Gate for HoldingGate<'_> {
    fn before(&self, call: u64) {
        let _before = self.begun.fetch_add(1, Ordering::SeqCst);
        let _come = match self.held {
            Held::First if call == 1 => self.wait_for(Awaited::Answered(2)),
            Held::First | Held::Nothing => true,
            Held::All => self.wait_for(Awaited::Stop),
        };
    }

    fn after(&self, call: u64) {
        self.answered.store(call, Ordering::SeqCst);
    }
}

/// Sets the flag of the stop, and makes the connection that isn't answered.
fn stop<T>(own: &Impaired<'_, T>, gate: &HoldingGate<'_>, place: SocketAddr) {
    gate.stop.store(true, Ordering::SeqCst);
    let _woken = TcpStream::connect(own.rt, place);
}

/// Two clients that send their requests at once, and a third if all are held until a stop.
fn are_replied<T: Abort>(own: &Impaired<'_, T>, gate: &HoldingGate<'_>, place: SocketAddr) -> bool {
    let alloc = own.rt.alloc();
    let first = sent(own, place, ONE_APP);
    let second = sent(own, place, ONE_APP);
    if matches!(gate.held, Held::First) {
        return is_replied(alloc, &second) && is_replied(alloc, &first);
    }
    let third = sent(own, place, ONE_APP);
    let are_held = gate.wait_for(Awaited::Begun(3));
    stop(own, gate, place);
    are_held && is_replied(alloc, &first) && is_replied(alloc, &second) && is_replied(alloc, &third)
}

/// A client that sends only its head, and its body once a second one is answered.
fn is_body_awaited<T: Abort>(
    own: &Impaired<'_, T>,
    gate: &HoldingGate<'_>,
    place: SocketAddr,
) -> bool {
    let alloc = own.rt.alloc();
    let first = sent(own, place, HEAD);
    let is_read = gate.wait_for(Awaited::Begun(1));
    let second = sent(own, place, ONE_APP);
    let is_second = gate.wait_for(Awaited::Answered(2)) && is_replied(alloc, &second);
    send(&first, BODY).expect(own.handles, "a body is sent");
    is_read && is_second && is_replied(alloc, &first)
}

/// Whether all clients are answered. Then the server is stopped, if it hasn't been.
fn are_answered<T: Abort>(
    own: &Impaired<'_, T>,
    gate: &HoldingGate<'_>,
    place: SocketAddr,
) -> bool {
    let are_answered = match gate.held {
        Held::Nothing => is_body_awaited(own, gate, place),
        Held::First | Held::All => are_replied(own, gate, place),
    };
    stop(own, gate, place);
    are_answered
}

/// This number of workers, each with cells of its own.
fn staff<T: Abort>(
    own: &Impaired<'_, T>,
    publisher: &mut Publisher,
    workers: u8,
) -> Vec<(PlainPass, Watcher)> {
    let mut staff = Vec::new(own.rt.alloc());
    for _ in 0..workers {
        let (_, pass) = PlainCells::new(own.rt.alloc()).expect(own.handles, "cells");
        let watcher = publisher.watcher().expect(own.handles, "a watcher");
        staff.push((pass, watcher)).expect(own.handles, "memory");
    }
    staff
}

/// Serves with these workers until the stop. Returns whether nothing failed.
fn is_served<T: Abort + Threads + Wait + Sync>(
    own: &Impaired<'_, T>,
    gate: &HoldingGate<'_>,
    listener: TcpListener,
    staff: Vec<(PlainPass, Watcher)>,
) -> bool {
    if staff.len() < 1 || staff.len() > 64 {
        return false;
    }
    let end = serve(
        own,
        gate,
        listener,
        &PlainCells,
        staff,
        &gate.stop,
        service_of(30),
    );
    end.is_ok()
}

/// Whether the clients of a server with this gate are answered, and it ends.
fn are_held<T: Abort + Threads + Wait + Sync>(
    own: &Impaired<'_, T>,
    held: Held,
    workers: u8,
) -> bool {
    let gate = HoldingGate {
        rt: own.rt,
        held,
        begun: AtomicU64::new(0),
        answered: AtomicU64::new(0),
        stop: AtomicBool::new(false),
    };
    let listener = TcpListener::bind(own.rt, "127.0.0.1:0").expect(own.handles, "a port");
    let place = listener.local_addr().expect(own.handles, "an address");
    let mut publisher = publisher_of(own);
    let staff = staff(own, &mut publisher, workers);
    let (are_answered, is_served) = thread::join(
        own.handles,
        || are_answered(own, &gate, place),
        || is_served(own, &gate, listener, staff),
    );
    publisher.close(own);
    are_answered && is_served
}

#[test]
fn answers_are_held(rt: HostRuntime) {
    let own = Impaired::new(&rt, &rt, None);
    assert!(rt;
        are_held(&own, Held::First, 2),
        "the second is answered first"
    );
    assert!(rt;
        are_held(&own, Held::Nothing, 2),
        "a body is awaited meanwhile"
    );
    assert!(rt; are_held(&own, Held::All, 3), "three are held at a stop");
}
