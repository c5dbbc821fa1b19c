//! Clients that take turns: some send nothing, or slowly, while others need a worker.

use crate::impaired::Impaired;
use crate::loopback::{
    BODY, HEAD, ONE_APP, has_answer, is_answered, is_dropped, is_replied, send, sent,
};
use crate::servers::Place;
use operator_request::OperatorRequest;
use std::net::{SocketAddr, TcpStream};
use std::process::Abort;
use std::thread;
use std::time::{Duration, Instant};

/// The operator's reply to `show`.
const SHOWN: &str = "generation 1\napp x releases 0 slots 5\n";

/// A client that has sent its head sends its body once a second one got its reply, and gets its
/// own then.
pub(crate) fn at_once<T: Abort>(own: &Impaired<'_, T>, place: SocketAddr) -> bool {
    let first = sent(own, place, HEAD);
    let is_second = is_answered(own, place);
    send(&first, BODY).expect(own.handles, "a body is sent");
    is_replied(own.rt.alloc(), &first) && is_second
}

/// Whether a second client and a second operator get their replies, and the first client gets none.
fn are_served<T: Abort>(own: &Impaired<'_, T>, place: Place, first: &TcpStream) -> bool {
    let is_second = is_answered(own, place.clients);
    let port = place.operator.port();
    let is_shown = has_answer(own.rt, port, OperatorRequest::Show, Some(SHOWN));
    is_second && is_shown && is_dropped(own.rt.alloc(), first)
}

/// A client and an operator that send nothing, and others that need the only worker and the
/// operator's port. The silent ones are dropped well before half a minute.
pub(crate) fn silent<T: Abort>(own: &Impaired<'_, T>, place: Place) -> bool {
    let begun = Instant::now(own.rt).expect(own.handles, "a clock");
    let client = sent(own, place.clients, "");
    let _operator = sent(own, place.operator, "");
    let are_served = are_served(own, place, &client);
    let elapsed = begun.elapsed(own.rt).expect(own.handles, "a clock");
    are_served && elapsed < Duration::from_secs(30)
}

/// An operator that sends nothing, and another one that has its reply well before the time limit of
/// half a minute: an operator's line has to arrive within five seconds.
pub(crate) fn silent_operator<T: Abort>(own: &Impaired<'_, T>, place: Place) -> bool {
    let begun = Instant::now(own.rt).expect(own.handles, "a clock");
    let _operator = sent(own, place.operator, "");
    let port = place.operator.port();
    let is_shown = has_answer(own.rt, port, OperatorRequest::Show, Some(SHOWN));
    let elapsed = begun.elapsed(own.rt).expect(own.handles, "a clock");
    is_shown && elapsed < Duration::from_secs(15)
}

/// Sends a byte now and then for three seconds.
fn send_slowly(rt: &HostRuntime, stream: &TcpStream) {
    for _ in 0..15 {
        let _dropped = send(stream, "P");
        thread::sleep(rt, Duration::from_millis(200));
    }
}

/// A client that sends slowly, and a second one that needs the only worker. The second has its
/// reply after three seconds, since a whole connection may last only one second.
pub(crate) fn slow<T: Abort>(own: &Impaired<'_, T>, place: SocketAddr) -> bool {
    let slow = sent(own, place, "");
    let second = sent(own, place, ONE_APP);
    send_slowly(own.rt, &slow);
    let limit = Some(Duration::from_millis(300));
    second
        .set_read_timeout(limit)
        .expect(own.handles, "a time limit");
    is_replied(own.rt.alloc(), &second)
}
