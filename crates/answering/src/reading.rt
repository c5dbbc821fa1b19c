//! Reads a request from a reader. The result is the request or its refusal, or no reply if the
//! input ends or the reader fails.

ghost use Rattle.std.specs.Prelude.{◌≡◌, ◌+◌, ◌-◌, ◌^◌, ◌<◌, Err, IfOk, IfErr};
ghost use Rattle.http_front.specs.Post.{AnswersPost};
ghost use Rattle.http_front.specs.declared.post_fault.PostFault.TheVariants as fault;
ghost use Rattle.answering.specs.Answer.{IsReceived, IsReceivedBody, WritesNothing};

use crate::answering::AnswerFault;
use crate::observer::RequestObserver;
use crate::rejection::Rejection;
use http_front::{Counted, PostBuffers, PostFault};
use omaha_json::{Request, read_request};
use std::alloc::Global;
use std::io::Read;

/// Reads a request into the buffers, and returns it, or its refusal.
pub fn receive_request<R: Read, W: RequestObserver>(
    alloc: Global,
    room: &mut PostBuffers,
    reader: &mut Counted<R>,
    observer: &mut W,
) -> Result<Result<Request, Rejection>, AnswerFault>
    requires { reader.old.failures < 2 ^ 64 - 1 }
    ensures received { IfOk result (IsReceived (R.remaining reader.old.inner)) }
    ensures silent { IfErr result WritesNothing }
    ensures ended { result ≡ Err AnswerFault.Ended
        → AnswersPost (R.remaining reader.old.inner) (Err fault.Ended) }
    ensures unreadable { result ≡ Err AnswerFault.Reading
        → reader.new.failures ≡ reader.old.failures + 1 }
{
    let fault = match room.read_post(reader) {
        Ok(()) => return Ok(request_of(alloc, room.body(), observer)),
        Err(fault) => fault,
    };
    match fault.status() {
        Some(status) => Ok(Err(Rejection::of_post(fault, status))),
        None => Err(match fault {
            PostFault::Ended => AnswerFault::Ended,
            _ => AnswerFault::Reading,
        }),
    }
}

// The request in a body, or its refusal.
fn request_of<W: RequestObserver>(
    alloc: Global,
    body: &[u8],
    observer: &mut W,
) -> Result<Request, Rejection>
    ensures { IsReceivedBody body.now result }
{
    match read_request(alloc, body, observer) {
        Ok(request) => Ok(request),
        Err(fault) => Err(Rejection::of_omaha(fault)),
    }
}
