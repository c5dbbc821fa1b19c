//! An app is halted while rulesets are loaded, and is resumed: what its clients are offered.

use crate::impaired::Impaired;
use crate::loopback::{ONE_APP, has_answer, reply, sent, text_of};
use crate::servers::Place;
use operator_request::OperatorRequest;
use std::net::SocketAddr;
use std::process::Abort;

/// What the operator of a server of `yes.toml` requests, the reply, and whether a client is offered
/// the release then.
const STEPS: &[(OperatorRequest<'static>, &str, bool)] = &[
    (OperatorRequest::Resume("x"), "generation 1\n", true),
    (OperatorRequest::Halt("x"), "generation 2\n", false),
    (OperatorRequest::Halt("x"), "generation 2\n", false),
    (OperatorRequest::Load("yes.toml"), "generation 3\n", false),
    (OperatorRequest::Resume("x"), "generation 4\n", true),
    (OperatorRequest::Load("no.toml"), "generation 5\n", false),
    (OperatorRequest::Halt("x"), "generation 6\n", false),
    (OperatorRequest::Load("yes.toml"), "generation 7\n", false),
    (OperatorRequest::Resume("x"), "generation 8\n", true),
];

/// Whether a client is offered the release.
fn is_offered<T: Abort>(own: &Impaired<'_, T>, place: SocketAddr) -> bool {
    let stream = sent(own, place, ONE_APP);
    match reply(own.rt.alloc(), &stream) {
        Ok(bytes) => text_of(&bytes).contains("\"manifest\""),
        Err(_) => false,
    }
}

/// Whether each step has its reply, and a client then gets what it should.
pub(crate) fn halted<T: Abort>(own: &Impaired<'_, T>, place: Place) -> bool {
    let port = place.operator.port();
    for (request, want, offered) in STEPS {
        let is_replied = has_answer(own.rt, port, *request, Some(*want));
        if !is_replied || is_offered(own, place.clients) != *offered {
            return false;
        }
    }
    true
}
