//! The operator's client: sends a request to a server on this machine, and returns the lines of its
//! reply. A stop may wait for the server's end, until nothing listens at the port.

ghost use Rattle.std.specs.Prelude.{◌≡◌, ◌↔◌, ◌^◌, ◌≤◌, length, Err, IfOk, IfErr};
ghost use Rattle.std.specs.String.{string_bytes};
ghost use Rattle.operator.specs.Done.{IsDoneAs, IsRequestRefusal};
ghost use Rattle.operator.specs.Replies.{IsReplyTo};
ghost use Rattle.operator_request.specs.Requests.{IsSendable};
ghost use Rattle.operator_request.specs.declared.request.OperatorRequest as request;

use crate::server_reply::{RequestFault, ask};
use operator_request::OperatorRequest;
use std::alloc::Global;
use std::io::ErrorKind;
use std::net::{IpAddr, Ipv4Addr, Net, SocketAddr, TcpStream};
use std::time::{Clock, Duration};
use std::{str, thread};

/// The time between two checks whether a server has ended.
const LOOK_MILLIS: u64 = 100;

/// The longest time of a check.
const LOOK_SECONDS: u64 = 1;

/// The lines of a server's reply, at most 1 MiB, if the request was done; an empty reply to `cells`
/// means that all counters are 0. It waits ten minutes for each piece of the reply; after B5 the
/// request may still have been done.
// open: that a server replies, and which of B4 and B5 is returned: tests. Nothing tests the ten
// minutes.
pub fn ask_server<R>(
    rt: &R,
    request: OperatorRequest<'_>,
    port: u16,
) -> Result<String, RequestFault>
where
    R: Net<Stream = TcpStream> + AllocGlobal,
    ensures done { IfOk result (λ t. IsDoneAs request.entry (string_bytes t)) }
    ensures short { IfOk result (λ t. length (string_bytes t) ≤ 2 ^ 20) }
    ensures fault { IfErr result (IsRequestRefusal request.entry) }
    ensures word { result ≡ Err RequestFault.Word ↔ (¬ IsSendable request.entry) }
{
    let reply = match ask(rt, port, request) {
        Ok(reply) => reply,
        Err(fault) => return Err(fault),
    };
    match read_reply(rt.alloc(), reply.as_slice()) {
        Ok(text) => Ok(text),
        Err(fault) => Err(fault),
    }
}

/// The reply to a stop, once the server has ended: a connection to its operator's port is refused,
/// or another server replies there, since one that ends replies to nothing more. It checks at most
/// ten times a second.
// open: that a server replies, and when it has ended: tests.
pub fn stop_and_wait<R>(rt: &R, port: u16) -> Result<String, RequestFault>
where
    R: Net<Stream = TcpStream> + AllocGlobal + Clock,
    ensures done { IfOk result (λ t. IsDoneAs OperatorRequest.Stop (string_bytes t)) }
    ensures fault { IfErr result (IsRequestRefusal OperatorRequest.Stop) }
{
    match ask_server(rt, OperatorRequest::Stop, port) {
        Ok(text) => {
            wait_for_end(rt, port);
            Ok(text)
        }
        Err(fault) => Err(fault),
    }
}

// Waits until a connection to the port is refused, or another server replies there. Any other
// failure, such as a lack of file descriptors, says nothing about the server.
fn wait_for_end<R>(rt: &R, port: u16)
where
    R: Net<Stream = TcpStream> + AllocGlobal + Clock,
{
    let place = SocketAddr::new(IpAddr::V4(Ipv4Addr::LOCALHOST), port);
    for _ in 0..u64::MAX {
        match TcpStream::connect_timeout(rt, &place, Duration::from_secs(LOOK_SECONDS)) {
            Err(error) if error.kind() == ErrorKind::ConnectionRefused => return,
            Err(_) => {}
            Ok(connection) => {
                drop(connection);
                if is_served(rt, port) {
                    return;
                }
            }
        }
        thread::sleep(rt, Duration::from_millis(LOOK_MILLIS));
    }
}

// Whether a server replies to `show`. One that ends gives no reply up to its end.
fn is_served<R>(rt: &R, port: u16) -> bool
where
    R: Net<Stream = TcpStream> + AllocGlobal,
{
    ask_server(rt, OperatorRequest::Show, port).is_ok()
}

// The lines of a reply, or the words of its refusal.
fn read_reply(alloc: Global, reply: &[u8]) -> Result<String, RequestFault>
    ensures done { IfOk result (λ t. (request : request.OperatorRequest)
        → IsReplyTo request reply.now → IsDoneAs request (string_bytes t)) }
    ensures same { IfOk result (λ t. string_bytes t ≡ reply.now) }
    ensures fault { IfErr result
        (λ e. (request : request.OperatorRequest) → IsRequestRefusal request e) }
{
    let Ok(text) = str::from_utf8(reply) else {
        return Err(RequestFault::Connect);
    };
    if let Some(refusal) = text.strip_prefix("refused ") {
        return Err(refused(alloc, refusal));
    }
    match String::from_str(alloc, text) {
        Ok(text) => Ok(text),
        Err(_) => Err(RequestFault::Memory),
    }
}

// The words of a refusal, without their line feed.
fn refused(alloc: Global, refusal: &str) -> RequestFault
    ensures { (request : request.OperatorRequest) → IsRequestRefusal request result }
{
    let words = refusal.strip_suffix('\n').unwrap_or(refusal);
    match String::from_str(alloc, words) {
        Ok(words) => RequestFault::Refused(words),
        Err(_) => RequestFault::Memory,
    }
}
