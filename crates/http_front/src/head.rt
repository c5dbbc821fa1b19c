//! Reads a head, with a check as bytes arrive, and at most as many bytes as a head may have.

ghost use Rattle.std.specs.Prelude.{◌≡◌, ◌+◌, ◌-◌, ◌^◌, ◌<◌, ◌≤◌, length, take};
ghost use Rattle.std.specs.Prelude.{Err, IfOk, IfErr, MatchOption};
ghost use Rattle.std.specs.Io.KnownBytes.{IsAtEnd};
ghost use Rattle.httparse.specs.Spans.{IsRequestOf, IsRequestWithin};
ghost use Rattle.net_io.specs.Device.{CountsFailure};
ghost use Rattle.http_front.specs.Post.{IsBegun, IsFrugal, IsHeadFault, AnswersPost, CountsDevice};
ghost use Rattle.http_front.specs.Reading.{GainsBytes, IsFound};

use crate::post_fault::PostFault;
use httparse::spans::{HeaderSpan, RequestSpans, parse_request};
use httparse::{Error, Status};
use net_io::{Counted, Failed};
use std::io::Read;

/// A head at the front of the bytes read so far.
#[derive(Clone, Copy, Drop)]
pub struct Found {
    pub head: RequestSpans,
    pub filled: usize,
}

// A whole head, or `None` if more bytes can make one.
fn judge(buf: &[u8], headers: &mut [HeaderSpan]) -> Result<Option<RequestSpans>, PostFault>
    requires { length headers.old ≡ 64 }
    ensures room { length headers.new ≡ 64 }
    ensures begun { IfOk result
        (λ o. MatchOption o (IsBegun buf.now) (IsRequestOf buf.now headers.new)) }
    ensures within { IfOk result
        (λ o. MatchOption o (Unit {0}) (IsRequestWithin buf.now headers.new)) }
    ensures refused { IfErr result (IsHeadFault buf.now) }
{
    match parse_request(buf, headers) {
        Ok(Status::Complete(head)) => Ok(Some(head)),
        Ok(Status::Partial) => Ok(None),
        Err(Error::TooManyHeaders) => Err(PostFault::HeadTooLarge),
        Err(_) => Err(PostFault::Head),
    }
}

/// Reads some bytes and stores them after the first ones.
pub fn read_more<R: Read>(
    reader: &mut Counted<R>,
    buf: &mut [u8],
    filled: usize,
) -> Result<usize, Failed>
    requires count { reader.old.failures < 2 ^ 64 - 1 }
    requires room { filled < length buf.old }
    ensures within { IfOk result (λ n. filled + n ≤ length buf.new) }
    ensures end { IfOk result (λ n. n ≡ 0 → IsAtEnd (R.remaining reader.new.inner)) }
    ensures bytes { GainsBytes (R.remaining reader.old.inner) (R.remaining reader.new.inner)
        (take filled buf.old) buf.new filled result }
    ensures count { CountsFailure reader.old.failures reader.new.failures result }
{
    let gained = reader.read_some(&mut buf[filled..])?;
    Ok(gained)
}

/// Reads until a head is whole, or has a fault.
pub fn read_head<R: Read>(
    reader: &mut Counted<R>,
    buf: &mut [u8],
    headers: &mut [HeaderSpan],
) -> Result<Found, PostFault>
    requires count { reader.old.failures < 2 ^ 64 - 1 }
    requires room { length buf.old ≡ 16384 }
    requires lines { length headers.old ≡ 64 }
    ensures found { IfOk result (IsFound
        (R.remaining reader.old.inner) (R.remaining reader.new.inner) buf.new headers.new) }
    ensures refused { IfErr result (λ e. AnswersPost (R.remaining reader.old.inner) (Err e)) }
    ensures frugal { IfErr result
        (IsFrugal (R.remaining reader.old.inner) (R.remaining reader.new.inner)) }
    ensures count { CountsDevice reader.old.failures reader.new.failures result }
{
    let mut filled = 0;
    'reading: loop {
        match judge(&buf[..filled], headers) {
            Err(fault) => return Err(fault),
            Ok(Some(head)) => return Ok(Found { head, filled }),
            Ok(None) => {}
        }
        if filled == buf.len() {
            return Err(PostFault::HeadTooLarge);
        }
        match read_more(reader, buf, filled) {
            Err(_) => return Err(PostFault::Device),
            Ok(0) => return Err(PostFault::Ended),
            Ok(gained) => filled += gained,
        }
    }
}
