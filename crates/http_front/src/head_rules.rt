//! What a whole head requests.

ghost use Rattle.std.specs.Prelude.{◌≡◌, length, IfErr};
ghost use Rattle.httparse.specs.Spans.{IsRequestWithin};
ghost use Rattle.http_front.specs.Head.{is_served, IsFaultOfHead};
ghost use Rattle.http_front.specs.Reading.{body_length_at};

use crate::header_lines::{content_length, has_line};
use crate::post_fault::PostFault;
use httparse::spans::{HeaderSpan, RequestSpans};

// Whether the target is the one that is served, with or without a query.
fn is_served(target: &[u8]) -> bool
    ensures { result ≡ is_served target.now }
{
    target == b"/service/update2/json".as_slice() || target.starts_with(b"/service/update2/json?")
}

/// The length of the body, or the first rule that the head breaks.
pub fn requested_length(
    buf: &[u8],
    headers: &[HeaderSpan],
    head: RequestSpans,
) -> Result<usize, PostFault>
    requires { IsRequestWithin buf.now headers.now head }
    ensures length { result ≡ body_length_at buf.now headers.now head }
    ensures rule { IfErr result IsFaultOfHead }
{
    if !is_served(head.path.of(buf)) {
        return Err(PostFault::Path);
    }
    if head.method.of(buf) != b"POST".as_slice() {
        return Err(PostFault::Method);
    }
    let lines = &headers[..head.headers];
    if has_line(buf, lines, b"transfer-encoding") {
        return Err(PostFault::Length);
    }
    content_length(buf, lines, b"content-length")
}
