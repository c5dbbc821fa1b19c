//! A server that ends while clients' requests are read and others wait: all are answered, and its
//! operator's port says that it stops.

use crate::impaired::Impaired;
use crate::loopback::{BODY, HEAD, ONE_APP, has_answer, is_replied, send, sent};
use crate::servers::Place;
use operator_request::OperatorRequest;
use std::alloc::Global;
use std::net::{SocketAddr, TcpStream};
use std::process::Abort;
use std::thread;
use std::time::Duration;

/// What the operator gets from the first stop on. A server that stops sends everybody `stopping`,
/// which is a reply only to a stop.
const STOPPING: &[(OperatorRequest<'static>, Option<&str>)] = &[
    (OperatorRequest::Stop, Some("stopping\n")),
    (OperatorRequest::Show, None),
    (OperatorRequest::Cells, None),
    (OperatorRequest::Load("no.toml"), None),
    (OperatorRequest::Stop, Some("stopping\n")),
];

/// How many clients wait.
const WAITING: usize = 80;

/// Whether the operator's port replies as it should from the first stop on.
fn is_stopping(rt: &HostRuntime, port: u16) -> bool {
    for (request, want) in STOPPING {
        if !has_answer(rt, port, *request, *want) {
            return false;
        }
    }
    true
}

/// Whether each connection gets its reply once it has sent this text.
fn are_replied(alloc: Global, streams: &[TcpStream], text: &str) -> bool {
    for stream in streams {
        if send(stream, text).is_err() || !is_replied(alloc, stream) {
            return false;
        }
    }
    true
}

/// Whether the server stops, and then replies to those that it holds and to those that wait.
fn are_ended(rt: &HostRuntime, port: u16, held: &[TcpStream], waiting: &[TcpStream]) -> bool {
    is_stopping(rt, port)
        && are_replied(rt.alloc(), held, BODY)
        && are_replied(rt.alloc(), waiting, "")
}

/// Clients whose requests wait: more than the queue of a server has places, so that some are still
/// with the system.
fn waiting<T: Abort>(own: &Impaired<'_, T>, clients: SocketAddr) -> Vec<TcpStream> {
    let mut streams = Vec::new(own.rt.alloc());
    for _ in 0..WAITING {
        let added = streams.push(sent(own, clients, ONE_APP));
        added.expect(own.handles, "memory");
    }
    streams
}

/// Two clients that send their bodies only after the stop, one to each worker, and others whose
/// requests wait for a worker. The server has half a second to accept them.
pub(crate) fn ending<T: Abort>(own: &Impaired<'_, T>, place: Place) -> bool {
    let clients = place.clients;
    let held = [sent(own, clients, HEAD), sent(own, clients, HEAD)];
    let waiting = waiting(own, clients);
    thread::sleep(own.rt, Duration::from_millis(500));
    are_ended(own.rt, place.operator.port(), &held, &waiting)
}
