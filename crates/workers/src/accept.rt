//! The accept loop of a port, until the server has to stop.

ghost use Rattle.std.specs.Prelude.{◌≡◌, ◌+◌, ◌-◌, ◌^◌, min, IfNone, OnSome};

use crate::clock::pause;
use crate::wake::Wake;
use server_log::{LogQueue, note_unaccepted};
use std::io;
use std::net::{SocketAddr, TcpListener, TcpStream};
use std::sync::Wait;
use std::sync::atomic::{AtomicBool, Ordering};
use std::time::{Clock, Instant};

/// A connection with its number, from 1 on, and its client's address. It has the time when it was
/// accepted if there is a log and the clock can be read.
#[derive(Drop)]
pub(crate) struct Call {
    pub(crate) number: u64,
    pub(crate) stream: TcpStream,
    pub(crate) peer: SocketAddr,
    pub(crate) accepted: Option<Instant>,
}

/// How an operator's thread ended. Only `Port::ended` makes this.
#[derive(Clone, Copy, Drop)]
pub struct OperatorEnd {
    /// How many connections were accepted.
    accepted: u64,
    is_requested: bool,
}

impl OperatorEnd {
    /// Whether a stop was requested.
    pub fn is_requested(&self) -> bool
        ensures { result ≡ self.now.is_requested }
    {
        self.is_requested
    }
}

/// How many times a port is still accepted from once its flag is set: more than the system keeps
/// connections for it.
const MOST_LEFT: u8 = 255;

/// A listening port, until its flag is set and one more connection is accepted.
#[derive(Drop)]
pub(crate) struct Port<'a> {
    listener: &'a TcpListener,
    stop: &'a AtomicBool,
    /// The connection that is made once the flag is set. If it is known, all connections that the
    /// system has for the port then are accepted as well.
    wake: Option<&'a Wake>,
    /// How many times more it is accepted from once the flag is set.
    left: u8,
    /// The log, for connections that can't be accepted.
    log: Option<&'a LogQueue>,
    /// How many connections it has accepted. The number stays at 2^64 - 1.
    accepted: u64,
}

impl<'a> Port<'a> {
    /// A port that has accepted nothing yet.
    pub(crate) fn new(
        listener: &'a TcpListener,
        stop: &'a AtomicBool,
        wake: Option<&'a Wake>,
        log: Option<&'a LogQueue>,
    ) -> Port<'a>
        ensures { result.accepted ≡ 0 }
    {
        Port {
            listener,
            stop,
            wake,
            left: MOST_LEFT,
            log,
            accepted: 0,
        }
    }

    /// The next connection. Returns `None` once the flag is set and the connection that wakes it is
    /// accepted; if that is known, only once the system has no more. A connection that can't be
    /// accepted is skipped.
    pub(crate) fn accept<H>(&mut self, rt: &H) -> Option<Call>
    where
        H: Wait + AllocGlobal + Clock,
        ensures one { OnSome result
            (self.new.accepted ≡ min (self.old.accepted + 1) (2 ^ 64 - 1)) }
        ensures none { IfNone result (self.new.accepted ≡ self.old.accepted) }
    {
        for _ in rt.forever() {
            let accepted = self.listener.accept();
            let is_ending = self.stop.load(Ordering::SeqCst);
            if is_ending && !self.goes_on() {
                return None;
            }
            match accepted {
                Ok((stream, peer)) => {
                    if !(is_ending && self.is_wake(rt, peer)) {
                        return Some(self.numbered(rt, stream, peer));
                    }
                }
                Err(error) => {
                    if is_ending {
                        return None;
                    }
                    self.pass_over(rt, &error);
                }
            }
        }
        unreachable!()
    }

    // Whether it is accepted from once more although its flag is set. From then on accept doesn't
    // wait for a connection.
    fn goes_on(&mut self) -> bool
        ensures { self.new.accepted ≡ self.old.accepted }
    {
        if self.wake.is_none() || self.left == 0 {
            return false;
        }
        self.left -= 1;
        self.listener.set_nonblocking(true).is_ok()
    }

    fn is_wake<H: Wait + Clock>(&self, rt: &H, peer: SocketAddr) -> bool {
        match self.wake {
            Some(wake) => wake.is_from(rt, peer),
            None => false,
        }
    }

    /// The end of the thread that answered what the port accepted.
    pub(crate) fn ended(&self, is_requested: bool) -> OperatorEnd
        ensures accepted { result.accepted ≡ self.now.accepted }
        ensures requested { result.is_requested ≡ is_requested }
    {
        OperatorEnd {
            accepted: self.accepted,
            is_requested,
        }
    }

    fn numbered<H: Clock>(&mut self, rt: &H, stream: TcpStream, peer: SocketAddr) -> Call
        ensures { self.new.accepted ≡ min (self.old.accepted + 1) (2 ^ 64 - 1) }
    {
        self.accepted = self.accepted.saturating_add(1);
        Call {
            number: self.accepted,
            stream,
            peer,
            accepted: self.now(rt),
        }
    }

    fn now<H: Clock>(&self, rt: &H) -> Option<Instant> {
        match self.log {
            Some(_) => Instant::now(rt).ok(),
            None => None,
        }
    }

    // If file descriptors have run out, the next accept fails as well, so the thread sleeps first.
    fn pass_over<H>(&self, rt: &H, error: &io::Error)
    where
        H: Wait + AllocGlobal + Clock,
    {
        if let Some(queue) = self.log {
            note_unaccepted(rt, queue, error);
        }
        pause(rt);
    }
}
