//! The operator's port while a server ends: it stays open, and the reply to each connection is that
//! the server stops, whatever the request.

use crate::accept::Port;
use crate::operating::send;
use crate::wake::Wake;
use operator::{OperatorReply, RequestFault};
use std::net::TcpListener;
use std::sync::Wait;
use std::sync::atomic::AtomicBool;
use std::time::{Clock, Duration};

/// The flags that end the two sides of a server. The operator's side sets the clients' flag. The
/// last worker that ends sets the operator's.
#[derive(Drop)]
pub(crate) struct StopFlags {
    pub(crate) clients: AtomicBool,
    pub(crate) operator: AtomicBool,
    /// The connection that wakes the clients' side.
    pub(crate) wake: Wake,
}

impl StopFlags {
    pub(crate) fn new() -> StopFlags {
        StopFlags {
            clients: AtomicBool::new(false),
            operator: AtomicBool::new(false),
            wake: Wake::new(),
        }
    }
}

/// How many seconds a client has to read the reply. The server's end may wait for it that long, and
/// one second to close.
const REPLY_SECONDS: u64 = 1;

/// Replies to each connection that the server stops, until the flag is set. Accept doesn't block
/// meanwhile: the port and the flag are polled a hundred times a second. So the server's end needs
/// no connection to wake it.
pub(crate) fn reply_stopping<'x, H>(rt: &H, listener: &'x TcpListener, ended: &'x AtomicBool)
where
    H: Wait + AllocGlobal + Clock,
{
    if listener.set_nonblocking(true).is_err() {
        return;
    }
    let limit = Duration::from_secs(REPLY_SECONDS);
    let stopping = OperatorReply::<RequestFault>::Stopping;
    let mut port = Port::new(listener, ended, None, None);
    for _ in rt.forever() {
        let Some(call) = port.accept(rt) else {
            return;
        };
        let _sent = send(rt, &call.stream, &stopping, limit);
    }
}
