//! One request: it is read into reused buffers, and its reply is made and written.

ghost use Rattle.std.specs.Prelude.{◌≡◌, ◌+◌, ◌-◌, ◌^◌, ◌<◌, Err, IfOk};
ghost use Rattle.hot_swap.specs.Published.{Extends};
ghost use Rattle.net_io.specs.Device.{CountsFailure, WritesPrefix};
ghost use Rattle.http_front.specs.Post.{AnswersPost};
ghost use Rattle.http_front.specs.Reply.{code_of};
ghost use Rattle.http_front.specs.declared.post_fault.PostFault.TheVariants as fault;
ghost use Rattle.answering.specs.Answer.{Settles};
ghost use Rattle.answering.specs.Connection.{Answers};
ghost use Rattle.answering.specs.Reply.{message_bytes, refusal_line, settled_reply};

use crate::answer_buffers::AnswerBuffers;
use crate::answering::AnswerFault;
use crate::covered_text::CoveredText;
use crate::observer::RequestObserver;
use crate::reading::receive_request;
use crate::rejection::Rejection;
use crate::replying::reply_to;
use crate::sent::Sent;
use crate::turn::Turn;
use cells::CellSteps;
use cover::Cover;
use hot_swap::Watcher;
use http_front::{Counted, Status, WriteFault, write_reply};
use std::io::{Read, Write};
use std::snapshot::Snapshot;

/// Reads a request into reused buffers, writes its reply, and returns what was sent. Omaha's reply
/// is only sent if `cover` covers what its runs did; otherwise the status is 503. The observer is
/// passed the request and its result.
// open: whether an allocation fails (O5, P9), or the ruleset can't have another owner (H2): then
// the status is 500. Which bytes a socket carries. That the moment is the clock's: a test.
pub fn answer_in<R: Read, W: Write, C: CellSteps, K: Cover<C>, N: RequestObserver>(
    turn: &Turn<'_, C>,
    cover: &K,
    room: &mut AnswerBuffers,
    reader: &mut Counted<R>,
    writer: &mut Counted<W>,
    pass: &mut C::Pass,
    watcher: &mut Watcher,
    observer: &mut N,
) -> Result<Sent, AnswerFault>
    requires belongs { C.belongs turn.now.cells.now pass.old }
    requires reads { reader.old.failures < 2 ^ 64 - 1 }
    requires writes { writer.old.failures < 2 ^ 64 - 1 }
    ensures belongs { C.belongs turn.now.cells.now pass.new }
    ensures watched { Extends watcher.old watcher.new }
    ensures answers { Answers (K.withholds cover.now) C.grew R.remaining W.contents watcher.new
        turn.now.moment.now pass.old pass.new reader.old reader.new writer.old writer.new result }
{
    let before = Snapshot::of(pass);
    let outcome = settle(turn, cover, room, reader, pass, watcher, observer)?;
    match send(writer, cover, &before, pass, &outcome) {
        Ok(sent) => {
            room.keep(outcome);
            Ok(sent)
        }
        Err(WriteFault { written }) => Err(AnswerFault::Writing(written)),
    }
}

// Reads a request, and makes its reply.
fn settle<R: Read, C: CellSteps, K: Cover<C>, N: RequestObserver>(
    turn: &Turn<'_, C>,
    cover: &K,
    room: &mut AnswerBuffers,
    reader: &mut Counted<R>,
    pass: &mut C::Pass,
    watcher: &mut Watcher,
    observer: &mut N,
) -> Result<Result<CoveredText<K::Receipt>, Rejection>, AnswerFault>
    requires belongs { C.belongs turn.now.cells.now pass.old }
    requires reads { reader.old.failures < 2 ^ 64 - 1 }
    ensures belongs { C.belongs turn.now.cells.now pass.new }
    ensures watched { Extends watcher.old watcher.new }
    ensures covered { IfOk result (λ outcome.
        IfOk outcome (λ reply. K.covers cover.now reply.receipt pass.old pass.new)) }
    ensures settles { Settles (K.withholds cover.now) C.grew (R.remaining reader.old.inner)
        watcher.new turn.now.moment.now pass.old pass.new result }
    ensures ended { result ≡ Err AnswerFault.Ended
        → AnswersPost (R.remaining reader.old.inner) (Err fault.Ended) }
    ensures unreadable { result ≡ Err AnswerFault.Reading
        → reader.new.failures ≡ reader.old.failures + 1 }
{
    match receive_request(turn.alloc, &mut room.post, reader, observer)? {
        Ok(request) => {
            let text = room.take_text(turn.alloc);
            let outcome = reply_to(turn, cover, text, &request, pass, watcher, observer);
            Ok(outcome)
        }
        Err(rejection) => Ok(Err(rejection)),
    }
}

// Writes the reply, and returns what was sent. The pass was `before` when its request was read.
fn send<W: Write, C: CellSteps, K: Cover<C>>(
    writer: &mut Counted<W>,
    cover: &K,
    before: &Snapshot<C::Pass>,
    pass: &C::Pass,
    outcome: &Result<CoveredText<K::Receipt>, Rejection>,
) -> Result<Sent, WriteFault>
    requires writes { writer.old.failures < 2 ^ 64 - 1 }
    // Omaha's reply is only sent if all that its runs did is covered.
    requires covered { IfOk outcome.now (λ reply.
        K.covers cover.now reply.receipt before.now.value pass.now) }
    ensures status { IfOk result
        (λ sent. code_of (settled_reply outcome.now).status ≡ sent.status) }
    ensures line { IfOk result (λ sent. sent.line.now ≡ refusal_line (settled_reply outcome.now)) }
    ensures bytes { WritesPrefix (W.contents writer.old.inner) (W.contents writer.new.inner)
        (message_bytes (settled_reply outcome.now)) result }
    ensures count { CountsFailure writer.old.failures writer.new.failures result }
{
    match outcome {
        Ok(covered) => {
            write_reply(writer, Status::Success, covered.text.as_slice())?;
            Ok(Sent {
                status: Status::Success.code(),
                line: b"",
            })
        }
        Err(rejection) => {
            write_reply(writer, rejection.status(), rejection.line())?;
            Ok(Sent {
                status: rejection.status().code(),
                line: rejection.line(),
            })
        }
    }
}
