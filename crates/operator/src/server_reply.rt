//! The bytes of a server's reply to a request. The line is sent, and the reply's form is checked,
//! since another server may listen at the port.

ghost use Rattle.std.specs.Prelude.{◌≡◌, ◌↔◌, ◌^◌, ◌≤◌, length, Some, Err, IfOk};
ghost use Rattle.operator.specs.Replies as specs;
ghost use Rattle.operator.specs.Texts.{request_fault_text};
ghost use Rattle.operator_request.specs.Requests.{IsSendable};

use crate::reply_forms::{are_cells, begins_with_generation, is_loaded, is_state};
use bounded_files::ResourceFault;
use operator_request::OperatorRequest;
use printing::Printed;
use std::alloc::Global;
use std::fmt;
use std::io::{self, ErrorKind, Read, Write};
use std::net::{Ipv4Addr, Net, TcpStream};
use std::time::Duration;

/// The most bytes of a reply: 8192 counters have lines of at most 60 bytes, and 256 apps lines of
/// at most 1052.
const REPLY_LIMIT: usize = 0x10_0000;

/// How long a server may send nothing: it may serve another connection, or load a manifest.
const SILENCE_SECONDS: u64 = 600;

/// B1, as it is printed.
pub(crate) const WORD_NAME: &str = "B1 Word";

/// Why a request isn't done.
#[derive(Debug, Drop)]
pub enum RequestFault {
    /// B1: no line can request this.
    Word,
    /// B4: out of memory.
    Memory,
    /// B5: the connection fails, the reply has no whole line, nothing arrives for ten minutes, or
    /// what arrives isn't a reply.
    Connect,
    /// The server's refusal, in its words.
    Refused(String),
}

impl fmt::Display for RequestFault {
    ghost output = { λ fault. Some (request_fault_text fault) };

    fn fmt<W: fmt::Write>(&self, f: &mut fmt::Formatter<W>) -> fmt::Result {
        match self {
            RequestFault::Word => f.write_str(WORD_NAME),
            RequestFault::Memory => f.write_str(ResourceFault::Memory.name()),
            RequestFault::Connect => f.write_str("B5 Connect"),
            RequestFault::Refused(words) => {
                let words = Printed(words.as_str());
                write!(f, "{words}")
            }
        }
    }
}

impl std::error::Error for RequestFault {}

// Sends a request to the operator's port of a server on this machine, and returns the lines of its
// reply, at most 1 MiB; a refusal begins with `refused `. It returns B5 for anything else. It waits
// ten minutes for each piece of the reply.
pub(crate) fn ask<H>(
    rt: &H,
    port: u16,
    request: OperatorRequest<'_>,
) -> Result<Vec<u8>, RequestFault>
where
    H: Net<Stream = TcpStream> + AllocGlobal,
    ensures replied { IfOk result (λ reply. specs.IsReplyTo request.entry reply.items) }
    ensures short { IfOk result (λ reply. length reply.items ≤ 2 ^ 20) }
    ensures word { result ≡ Err RequestFault.Word ↔ (¬ IsSendable request.entry) }
{
    if !request.is_sendable() {
        return Err(RequestFault::Word);
    }
    let Ok(stream) = TcpStream::connect(rt, (Ipv4Addr::LOCALHOST, port)) else {
        return Err(RequestFault::Connect);
    };
    match exchange(rt.alloc(), &stream, request) {
        Ok(reply) if is_reply(request, &reply) => Ok(reply),
        Err(error) if error.kind() == ErrorKind::OutOfMemory => Err(RequestFault::Memory),
        _ => Err(RequestFault::Connect),
    }
}

// Whether the bytes are a reply to this request.
fn is_reply(request: OperatorRequest<'_>, bytes: &[u8]) -> bool
    ensures { result ≡ specs.is_reply request.entry bytes.now }
{
    begins_lines(b"refused ", bytes) || is_answer(request, bytes)
}

// Whether the bytes report that the request was done.
fn is_answer(request: OperatorRequest<'_>, bytes: &[u8]) -> bool
    ensures { result ≡ specs.is_answer request.entry bytes.now }
{
    match request {
        OperatorRequest::Load(_) | OperatorRequest::Halt(_) | OperatorRequest::Resume(_) => {
            is_loaded(bytes)
        }
        OperatorRequest::Show => begins_with_generation(bytes),
        OperatorRequest::Cells => are_cells(bytes),
        OperatorRequest::Stop => bytes == b"stopping\n".as_slice(),
        OperatorRequest::State => is_state(bytes),
    }
}

// Whether the bytes are lines, of which the first begins with this word.
fn begins_lines(word: &[u8], bytes: &[u8]) -> bool
    ensures { result ≡ specs.begins_lines word.now bytes.now }
{
    bytes.starts_with(word) && bytes.ends_with(b"\n")
}

// Sends the line of a request, and reads the whole reply, unless it is longer than a reply may be.
fn exchange(
    alloc: Global,
    mut stream: &TcpStream,
    request: OperatorRequest<'_>,
) -> io::Result<Vec<u8>>
    ensures { IfOk result (λ reply. length reply.items ≤ 2 ^ 20) }
{
    let Ok(words) = request.words(alloc) else {
        return Err(io::Error::from(ErrorKind::OutOfMemory));
    };
    stream.set_read_timeout(Some(Duration::from_secs(SILENCE_SECONDS)))?;
    stream.write_all(words.as_bytes())?;
    stream.write_all(b"\n")?;
    let mut reply = Vec::new(alloc);
    let mut from = stream.take(REPLY_LIMIT as u64 + 1);
    let _size = from.read_to_end(&mut reply)?;
    if reply.len() > REPLY_LIMIT {
        return Err(io::Error::from(ErrorKind::InvalidData));
    }
    Ok(reply)
}
