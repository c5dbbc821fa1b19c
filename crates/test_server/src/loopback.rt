//! What clients and an operator send over loopback, and what they get.

use crate::impaired::Impaired;
use operator::{RequestFault, ask_server};
use operator_request::OperatorRequest;
use std::alloc::Global;
use std::io::{self, Read, Write};
use std::net::{SocketAddr, TcpStream};
use std::process::Abort;
use std::str;

/// An app that requests an update.
pub(crate) const ONE_APP: &str = "POST /service/update2/json HTTP/1.1\r\nContent-Length: 69\r\n\r\n\
    {\"request\":{\"protocol\":\"3.1\",\"app\":[{\"appid\":\"x\",\"updatecheck\":{}}]}}";

/// The head of its request, and the body.
pub(crate) const HEAD: &str = "POST /service/update2/json HTTP/1.1\r\nContent-Length: 69\r\n\r\n";

pub(crate) const BODY: &str =
    r#"{"request":{"protocol":"3.1","app":[{"appid":"x","updatecheck":{}}]}}"#;

/// Four apps that request an update.
pub(crate) const FOUR_APPS: &str =
    "POST /service/update2/json HTTP/1.1\r\nContent-Length: 162\r\n\r\n\
    {\"request\":{\"protocol\":\"3.1\",\"app\":[\
    {\"appid\":\"x\",\"updatecheck\":{}},{\"appid\":\"x\",\"updatecheck\":{}},\
    {\"appid\":\"x\",\"updatecheck\":{}},{\"appid\":\"x\",\"updatecheck\":{}}]}}";

/// A connection that has sent this text.
pub(crate) fn sent<T: Abort>(own: &Impaired<'_, T>, place: SocketAddr, text: &str) -> TcpStream {
    let stream = TcpStream::connect(own.rt, place).expect(own.handles, "a connection");
    send(&stream, text).expect(own.handles, "bytes are sent");
    stream
}

/// Sends this text over an open connection.
pub(crate) fn send(stream: &TcpStream, text: &str) -> io::Result<()> {
    let mut to = stream;
    to.write_all(text.as_bytes())
}

/// What the server sends until it ends.
pub(crate) fn reply(alloc: Global, stream: &TcpStream) -> io::Result<Vec<u8>> {
    let mut bytes = Vec::new(alloc);
    let mut from = stream;
    let _count = from.read_to_end(&mut bytes)?;
    Ok(bytes)
}

/// The text of these bytes; empty if they aren't UTF-8.
pub(crate) fn text_of(bytes: &[u8]) -> &str {
    str::from_utf8(bytes).unwrap_or("")
}

/// Whether what the server sends until it ends is a reply to a request.
pub(crate) fn is_replied(alloc: Global, stream: &TcpStream) -> bool {
    match reply(alloc, stream) {
        Ok(bytes) => bytes.starts_with(b"HTTP/1.1 200 OK\r\n") && bytes.ends_with(b"\"}}"),
        Err(_) => false,
    }
}

/// Whether the server ends the connection without a reply.
pub(crate) fn is_dropped(alloc: Global, stream: &TcpStream) -> bool {
    match reply(alloc, stream) {
        Ok(bytes) => bytes.is_empty(),
        Err(_) => true,
    }
}

/// Whether a request gets its reply.
pub(crate) fn is_answered<T: Abort>(own: &Impaired<'_, T>, place: SocketAddr) -> bool {
    is_replied(own.rt.alloc(), &sent(own, place, ONE_APP))
}

/// Whether the operator gets this reply, or `None`: what isn't a reply to the request (B5).
pub(crate) fn has_answer(
    rt: &HostRuntime,
    port: u16,
    request: OperatorRequest<'_>,
    want: Option<&str>,
) -> bool {
    match ask_server(rt, request, port) {
        Ok(reply) => want == Some(reply.as_str()),
        Err(RequestFault::Connect) => want.is_none(),
        Err(_) => false,
    }
}
