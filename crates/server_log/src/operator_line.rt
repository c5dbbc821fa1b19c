//! The log line of an operator's request: of a load, of a halt or of its end. Other requests have
//! none.

ghost use Rattle.std.specs.Prelude.{◌≡◌, IfOk, IfSome, option_map};
ghost use Rattle.server_log.specs.Requested.{IsLineOfRequest};

use crate::clock::seconds_from_now;
use crate::halt_line::{HaltRequest, halt_line};
use crate::load_line::load_line;
use crate::log_queue::{LogPiece, LogQueue};
use crate::recorder::Recorder;
use access_log::LineHeader;
use operator::{Control, Loader, OperatorReply};
use operator_request::OperatorRequest;
use std::alloc::{AllocError, Global};
use std::sync::Wait;
use std::time::Clock;

/// How long the line of a request waits for a place in the queue.
const REQUEST_SECONDS: u64 = 2;

/// Puts the line of a load, of a halt or of its end into the queue, if there is a queue and one of
/// these was requested. The line has the generation and, of a load, the digest; or the refusal and
/// the loader's cause. It is lost if an allocation fails, or if no place becomes free in time.
// open: that what is queued is the piece of `request_line`, that its request is that of the line,
// and that it is written: no contract knows the contents of a queue. Tests.
pub fn note_request<H, R, L>(
    rt: &H,
    log: Option<&LogQueue>,
    recorder: Recorder<R>,
    loader: &L,
    control: &Control,
    reply: &OperatorReply<L::Fault>,
)
where
    H: Wait + AllocGlobal + Clock,
    R: Drop,
    L: Loader,
{
    let Some(queue) = log else {
        return;
    };
    let Some(request) = recorder.request() else {
        if let OperatorReply::Loaded(_) = reply {
            queue.count_lost(1);
        }
        return;
    };
    match request_line(
        rt.alloc(),
        &queue.header(rt),
        request,
        loader,
        control,
        reply,
    ) {
        Ok(Some(piece)) => {
            let until = seconds_from_now(rt, REQUEST_SECONDS);
            let _put = queue.put_until(rt, piece, until);
        }
        Ok(None) => (),
        Err(_) => queue.count_lost(1),
    }
}

/// The line of a request, by its reply; `None` if it has none.
// open: whether an allocation fails.
fn request_line<L: Loader>(
    alloc: Global,
    header: &LineHeader,
    request: OperatorRequest<'_>,
    loader: &L,
    control: &Control,
    reply: &OperatorReply<L::Fault>,
) -> Result<Option<LogPiece>, AllocError>
    ensures line { IfOk result (λ piece. IsLineOfRequest L.has_cause L.Fault.output header.now
        request.entry control.now reply.now (option_map (λ p. p.text.items) piece)) }
    ensures one { IfOk result (λ piece. IfSome piece (λ p. p.lines ≡ 1)) }
{
    match request {
        OperatorRequest::Load(path) => {
            let line = load_line(alloc, header, path, loader, control, reply)?;
            Ok(piece_of(line))
        }
        OperatorRequest::Halt(appid) => {
            let request = HaltRequest {
                appid,
                is_resume: false,
            };
            let line = halt_line(alloc, header, request, reply)?;
            Ok(piece_of(line))
        }
        OperatorRequest::Resume(appid) => {
            let request = HaltRequest {
                appid,
                is_resume: true,
            };
            let line = halt_line(alloc, header, request, reply)?;
            Ok(piece_of(line))
        }
        _ => Ok(None),
    }
}

// A piece of one line.
fn piece_of(line: Option<Vec<u8>>) -> Option<LogPiece>
    ensures text { option_map (λ p. p.text.items) result ≡ option_map (λ l. l.items) line }
    ensures one { IfSome result (λ p. p.lines ≡ 1) }
{
    match line {
        Some(text) => Some(LogPiece { text, lines: 1 }),
        None => None,
    }
}
